//! Whether uses are of definitions that are there.

ghost use Rattle.std.specs.Prelude.{◌≡◌, ◌↔◌, ◌<◌, ℕ, Some, slice_get, IsTrue};
ghost use Rattle.deck_order.specs.Uses.{AreWithin};

/// Whether each use is of one of the definitions.
pub fn are_within(uses: &[Vec<u32>]) -> bool
    ensures { IsTrue result ↔ AreWithin uses.now }
{
    for used in uses {
        if !all_below(used, uses.len()) {
            return false;
        }
    }
    true
}

/// Whether all numbers are below a bound.
fn all_below(numbers: &[u32], bound: usize) -> bool
    ensures { IsTrue result ↔ ((k j : ℕ) → slice_get numbers.now k ≡ Some j → j < bound) }
{
    for number in numbers {
        if *number as usize >= bound {
            return false;
        }
    }
    true
}
