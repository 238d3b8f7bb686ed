//! The law of steps. It is a statement, and does nothing when it is called.

ghost use Rattle.std.specs.Prelude.{ℕ, List, drop, None, Ok};
ghost use Rattle.deck_tree.specs.declared.statement.Statement.{Statement};
ghost use Rattle.deck_lexer.specs.Tokens.{Comes};
ghost use Rattle.deck_grammar.specs.Rules as r;
ghost use Rattle.deck_cursor.specs.Places.{Place, start_of};
ghost use Rattle.deck_cursor.specs.Steps.{Reads};
ghost use Rattle.deck_cursor.specs.Decks.{IsDeckOf};

/// What is spelled by steps from the start of a text to its end is the text's deck.
pub fn steps_are_a_deck()
    ensures { (text : List ℕ) (to : Place) (all : List Statement) → Reads r.statements (start_of text) to all → Comes to.at (drop to.at to.text) (Ok None) → IsDeckOf text all }
{}
