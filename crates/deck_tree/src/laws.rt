//! A law of the definitions.
ghost use Rattle.std.specs.Prelude.{◌≡◌, List, [], MatchOption};
ghost use Rattle.deck_tree.specs.Worths.{IsFirstFault, first_fault};
ghost use Rattle.deck_tree.specs.declared.value_fault.ValueFault.{ValueFault};

/// The first fault is one of them and none is before it; only where there is none there is no first.
pub fn first_fault_is_first()
    ensures { (faults : List ValueFault) → MatchOption (first_fault faults) (faults ≡ []) (λ f. IsFirstFault f faults) }
{}
