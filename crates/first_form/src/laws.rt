//! Laws of the definition.
ghost use Rattle.std.specs.Prelude.{◌≡◌, ◌⊎◌, List, ℕ};
ghost use Rattle.deck_tree.specs.declared.deck.Deck.{Deck};
ghost use Rattle.first_form.specs.FirstForm.{ServedDeck, IsFirstForm};

/// A deck says at most one thing.
pub fn one_first_form()
    ensures { (name : List ℕ) (deck : Deck) (d e : ServedDeck) → IsFirstForm name deck d → IsFirstForm name deck e → d ≡ e }
{}

/// Each deck is of the first form, or isn't.
pub fn each_first_form()
    ensures { (name : List ℕ) (deck : Deck)
        → ((d : ServedDeck) × IsFirstForm name deck d) ⊎ ((d : ServedDeck) → IsFirstForm name deck d → ⊥) }
{}
