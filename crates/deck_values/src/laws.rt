//! A law of the list of values. It is a statement, and does nothing when it is called.

ghost use Rattle.std.specs.Prelude.{All, length};
ghost use Rattle.deck_tree.specs.declared.deck.Deck.{Deck};
ghost use Rattle.deck_names.specs.Definitions.{IsPlace};
ghost use Rattle.deck_counts.specs.Outputs.{checks_of};
ghost use Rattle.deck_values.specs.Values.{Standing, values_of};

/// The names of each value are seen from a place of the deck: from outside checks, or from one of its checks.
pub fn places_are_of_the_deck()
    ensures { (deck : Deck) → All (λ (s : Standing). IsPlace (length (checks_of deck)) s.scope) (values_of deck) }
{}
