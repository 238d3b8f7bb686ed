//! The laws of worths. Each is a statement, and does nothing when it is called.

ghost use Rattle.std.specs.Prelude.{◌≡◌, ◌⊎◌, ◌∷◌, ℕ, List, Ok, Err};
ghost use Rattle.std.specs.List.{AllByRecursion};
ghost use Rattle.drc_num.specs.Fractions.{Fraction};
ghost use Rattle.deck_tree.specs.Names.{Names};
ghost use Rattle.deck_tree.specs.Worths.{value_worth};
ghost use Rattle.deck_tree.specs.declared.value.Value.{Value};
ghost use Rattle.deck_tree.specs.declared.value_fault.ValueFault.{ValueFault};
ghost use Rattle.deck_uses.specs.UsedNames.{value_names};
ghost use Rattle.deck_definitions.specs.Definitions.{Entry};
ghost use Rattle.deck_graph.specs.Graphs.{LeadsTo};
ghost use Rattle.deck_worths.specs.Worths.{HasWorth, IsWorth};

/// A definition is worth one number at most.
pub fn one_worth()
    ensures { (all : List Entry) (i : ℕ) (q r : Fraction) → IsWorth all i q → IsWorth all i r → q ≡ r }
{}

/// A definition that leads back to itself is worth nothing.
pub fn none_in_circles()
    ensures { (all : List Entry) (i : ℕ) (q : Fraction) → IsWorth all i q → LeadsTo all i i → ⊥ }
{}

/// A value whose names all come to numbers comes to one, or has a fault.
pub fn worth_or_fault()
    ensures { (names : Names) (value : Value) → AllByRecursion (HasWorth names) (value_names value)
        → ((q : Fraction) × (value_worth names value ≡ Ok q))
        ⊎ ((f : ValueFault) × (more : List ValueFault) × (value_worth names value ≡ Err (f ∷ more))) }
{}
