//! The laws of canonical text. Each is a statement, and does nothing when it is called.

ghost use Rattle.std.specs.Prelude.{◌≡◌, ◌≤◌, ℕ, List, length, Contains};
ghost use Rattle.deck_tree.specs.declared.deck.Deck.{Deck};
ghost use Rattle.deck_tree.specs.declared.refusal.Single.{Single};
ghost use Rattle.deck_tree.specs.declared.statement.Statement.{Statement};
ghost use Rattle.deck_tree.specs.Plain.{plain};
ghost use Rattle.deck_tree.specs.WellFormed.{IsWellFormed};
ghost use Rattle.deck_lexer.specs.declared.token.Token.{Token};
ghost use Rattle.deck_lexer.specs.Sizes.{longest_deck};
ghost use Rattle.deck_lexer.specs.Tokens.{lexes};
ghost use Rattle.deck_grammar.specs.Refusals.{singles, wanted, StandOnce};
ghost use Rattle.deck_cursor.specs.Decks.{IsDeckOf};
ghost use Rattle.deck_refusal.specs.Refused.{IsTextAccepted};
ghost use Rattle.deck_printer.specs.Canonical.{canonical};
ghost use Rattle.deck_round.specs.Alike.{AreAlike};

use deck_grammar::one_deck;
use deck_lexer::one_list_of_tokens;

/// The canonical text of a well formed deck has a list of tokens: no byte of it is refused.
pub fn canonical_text_has_tokens()
    ensures { (deck : Deck) → IsWellFormed deck → (tokens : List Token) × lexes (canonical deck) tokens }
{}

/// The canonical text of a well formed deck is spelled as that deck, but for places, and as no other.
pub fn canonical_text_spells_the_deck()
    ensures some { (deck : Deck) → IsWellFormed deck
        → (read : List Statement) × IsDeckOf (canonical deck) read × AreAlike read deck.statements }
    ensures only { (deck : Deck) (read : List Statement) → IsWellFormed deck
        → IsDeckOf (canonical deck) read → AreAlike read deck.statements }
{
    one_list_of_tokens();
    one_deck();
}

/// The deck of a text is well formed.
pub fn the_deck_of_a_text_is_well_formed()
    ensures { (text : List ℕ) (deck : Deck) → IsDeckOf text deck.statements → IsWellFormed deck }
{}

/// The canonical text of a well formed deck is accepted, where it isn't too long and the deck has each statement that
/// must be there, and none twice of those that stand once. So that of an accepted text's deck is, where it isn't too long.
pub fn canonical_text_is_accepted()
    ensures complete { (deck : Deck) → IsWellFormed deck → length (canonical deck) ≤ longest_deck
        → ((one : Single) → Contains wanted one → Contains (singles deck.statements) one) → StandOnce deck.statements
        → (read : List Statement) × IsTextAccepted (canonical deck) read × AreAlike read deck.statements }
    ensures again { (text : List ℕ) (deck : Deck) → IsTextAccepted text deck.statements
        → length (canonical deck) ≤ longest_deck
        → (read : List Statement) × IsTextAccepted (canonical deck) read × AreAlike read deck.statements }
{}

/// Canonical text doesn't show places: decks that are equal but for them have the same text.
pub fn places_are_not_printed()
    ensures { (a b : Deck) → plain a ≡ plain b → canonical a ≡ canonical b }
{}

/// Canonical text shows all but places: well formed decks of one text are equal but for them.
pub fn only_places_are_not_printed()
    ensures { (a b : Deck) → IsWellFormed a → IsWellFormed b → canonical a ≡ canonical b → plain a ≡ plain b }
{
    one_list_of_tokens();
    one_deck();
}
