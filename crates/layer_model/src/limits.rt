//! Which areas or lengths are kept.

ghost use Rattle.std.specs.Prelude.{◌≡◌};
ghost use Rattle.layer_model.specs.Limits.{is_above, is_below, is_equal, is_other, meets};

/// A bound, and whether it is kept itself.
#[derive(Clone, Copy, Debug, PartialEq, Eq, Hash)]
pub struct Bound {
    pub value: u128,
    pub inclusive: bool,
}

/// A number meets the limits where it meets each that is there: above the low bound, below the high one, equal to the
/// one and different from the other.
#[derive(Clone, Copy, Debug, PartialEq, Eq, Hash)]
pub struct Limits {
    pub low: Option<Bound>,
    pub high: Option<Bound>,
    pub equal: Option<u128>,
    pub other: Option<u128>,
}

impl Limits {
    /// Whether the number meets the limits.
    pub fn meet(&self, number: u128) -> bool
        ensures { result ≡ meets self.now number }
    {
        above(self.low, number)
            && below(self.high, number)
            && equal_to(self.equal, number)
            && other_than(self.other, number)
    }
}

fn above(low: Option<Bound>, number: u128) -> bool
    ensures { result ≡ is_above low number }
{
    match low {
        Some(bound) => bound.value < number || (bound.inclusive && number == bound.value),
        None => true,
    }
}

fn below(high: Option<Bound>, number: u128) -> bool
    ensures { result ≡ is_below high number }
{
    match high {
        Some(bound) => number < bound.value || (bound.inclusive && number == bound.value),
        None => true,
    }
}

fn equal_to(value: Option<u128>, number: u128) -> bool
    ensures { result ≡ is_equal value number }
{
    match value {
        Some(value) => number == value,
        None => true,
    }
}

fn other_than(value: Option<u128>, number: u128) -> bool
    ensures { result ≡ is_other value number }
{
    match value {
        Some(value) => number != value,
        None => true,
    }
}
