//! The laws of refusals. Each is a statement, and does nothing when it is called.

ghost use Rattle.std.specs.Prelude.{◌≡◌, ◌⊎◌, ℕ, List};
ghost use Rattle.deck_tree.specs.declared.statement.Statement.{Statement};
ghost use Rattle.deck_tree.specs.declared.refusal.DeckRefusal.{DeckRefusal};
ghost use Rattle.deck_refusal.specs.Refused.{IsTextRefused, IsTextAccepted};

use deck_grammar::one_answer;
use deck_lexer::{one_list_of_tokens, tokens_or_a_fact};

/// A text is refused in one way at most, and not where it is accepted.
pub fn one_refusal()
    ensures one { (text : List ℕ) (a b : DeckRefusal) → IsTextRefused text a → IsTextRefused text b → a ≡ b }
    ensures not_both { (text : List ℕ) (all : List Statement) (a : DeckRefusal) → IsTextAccepted text all
        → IsTextRefused text a → ⊥ }
{
    one_list_of_tokens();
    one_answer();
}

/// Each text is accepted as a deck, or refused.
pub fn accepted_or_refused()
    ensures { (text : List ℕ) → ((all : List Statement) × IsTextAccepted text all)
        ⊎ ((refusal : DeckRefusal) × IsTextRefused text refusal) }
{
    tokens_or_a_fact();
}
