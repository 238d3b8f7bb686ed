//! The laws of parsing. Each is a statement, and does nothing when it is called.

ghost use Rattle.std.specs.Prelude.{◌≡◌, ◌⊎◌, ℕ, List};
ghost use Rattle.deck_tree.specs.declared.deck.Deck.{Deck};
ghost use Rattle.deck_tree.specs.declared.refusal.DeckRefusal.{DeckRefusal};
ghost use Rattle.deck_refusal.specs.Refused.{IsTextRefused};
ghost use Rattle.deck_parser.specs.Parsed.{IsDeckText};

use deck_grammar::one_deck;
use deck_lexer::one_list_of_tokens;
use deck_refusal::{accepted_or_refused, one_refusal};

/// A text is one deck at most, and is refused in one way at most, and not both.
pub fn one_text_answer()
    ensures deck { (text : List ℕ) (a b : Deck) → IsDeckText text a → IsDeckText text b → a ≡ b }
    ensures refusal { (text : List ℕ) (a b : DeckRefusal) → IsTextRefused text a → IsTextRefused text b → a ≡ b }
    ensures not_both { (text : List ℕ) (deck : Deck) (refusal : DeckRefusal) → IsDeckText text deck
        → IsTextRefused text refusal → ⊥ }
{
    one_list_of_tokens();
    one_deck();
    one_refusal();
}

/// Each text is a deck, or refused.
pub fn some_text_answer()
    ensures { (text : List ℕ) → ((deck : Deck) × IsDeckText text deck)
        ⊎ ((refusal : DeckRefusal) × IsTextRefused text refusal) }
{
    accepted_or_refused();
}
