ghost use Rattle.std.specs.Prelude.{◌≡◌};
ghost use Rattle.deck_tree.specs.DeckKinds.{deck_number};
ghost use Rattle.deck_tree.specs.Worths.{fault_place, fault_number};

use crate::DeckKind;

/// Why a value comes to no fraction, and the offset at which that is so.
#[derive(Clone, Copy, Debug, PartialEq, Eq)]
pub enum ValueFault {
    /// A name that isn't known.
    UndefinedName(u64),
    /// The sign `/` or `%` of which the right side is 0.
    DivideByZero(u64),
    /// A number out of range, or the sign of an operation whose result doesn't fit or whose exponent isn't allowed.
    ValueRange(u64),
}

impl ValueFault {
    /// The offset of the fault.
    pub fn at(self) -> u64
        ensures { result ≡ fault_place self }
    {
        match self {
            ValueFault::UndefinedName(at)
            | ValueFault::DivideByZero(at)
            | ValueFault::ValueRange(at) => at,
        }
    }

    /// The reason for which a deck with the fault is refused.
    pub fn kind(self) -> DeckKind
        ensures { deck_number result ≡ fault_number self }
    {
        match self {
            ValueFault::UndefinedName(_) => DeckKind::UndefinedName,
            ValueFault::DivideByZero(_) => DeckKind::DivideByZero,
            ValueFault::ValueRange(_) => DeckKind::ValueRange,
        }
    }
}
