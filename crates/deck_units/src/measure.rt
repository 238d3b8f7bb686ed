//! Values in the units of a place.

ghost use Rattle.std.specs.Prelude.{◌≡◌, ◌^◌, ◌≤◌, ◌↔◌, ◌*ℤ◌, ◌≤ℤ◌, pos, IsTrue, IfSome, if◌then◌else◌};
ghost use Rattle.deck_units.specs.Ranges.{IsMeasure, range, count, range_of};

use crate::{Range, UnitFault, ValuePlace};
use drc_num::Frac;

/// The greatest length that a check or an operation takes.
const MOST_LENGTH: i64 = 1 << 24;

/// The value in units of the range. Out of range comes before off grid, where both are so.
pub fn in_range(value: &Frac, range: &Range) -> Result<i128, UnitFault>
    requires { range.now.scale ≤ 2 ^ 40 }
    ensures { IsMeasure value.now range.now result }
{
    if !is_above(value, range) || !is_below(value, range) {
        return Err(UnitFault::ValueRange);
    }
    match value.times(range.scale) {
        Some(units) => Ok(units),
        None => Err(not_whole(range.is_count)),
    }
}

/// What a place takes at a precision.
pub fn range_of(place: ValuePlace, precision: u32) -> Range
    requires { precision ≤ 1000000 }
    ensures range { result ≡ range_of place precision }
    ensures scale { result.scale ≤ 2 ^ 40 }
{
    let scale = u64::from(precision);
    match place {
        ValuePlace::LayerNumber => count(0, 65535),
        ValuePlace::Precision => count(1, 1_000_000),
        ValuePlace::MaximumResults => count(0, 1_000_000_000),
        ValuePlace::Abut => count(90, 90),
        ValuePlace::Size => range(scale, -MOST_LENGTH, Some(MOST_LENGTH)),
        ValuePlace::TurnedSize => range(scale, 0, Some(MOST_LENGTH)),
        ValuePlace::Distance => range(scale, 1, Some(MOST_LENGTH)),
        ValuePlace::Length => range(scale, 0, None),
        ValuePlace::Area => range(scale * scale, 0, None),
    }
}

fn range(scale: u64, low: i64, high: Option<i64>) -> Range
    ensures { result ≡ range scale low high }
{
    Range {
        scale,
        low,
        high,
        is_count: false,
    }
}

fn count(low: i64, high: i64) -> Range
    ensures { result ≡ count low high }
{
    Range {
        scale: 1,
        low,
        high: Some(high),
        is_count: true,
    }
}

fn not_whole(is_count: bool) -> UnitFault
    ensures { result ≡ (if is_count then UnitFault.ValueRange else UnitFault.OffGrid) }
{
    if is_count {
        UnitFault::ValueRange
    } else {
        UnitFault::OffGrid
    }
}

fn is_above(value: &Frac, range: &Range) -> bool
    ensures { IsTrue result ↔ ((range.now.low *ℤ pos value.now.den) ≤ℤ (value.now.num *ℤ pos range.now.scale)) }
{
    is_at_most(
        times(range.low, value.den()),
        times(value.num(), range.scale),
    )
}

fn is_below(value: &Frac, range: &Range) -> bool
    ensures { IsTrue result ↔ IfSome range.now.high (λ high. (value.now.num *ℤ pos range.now.scale) ≤ℤ (high *ℤ pos value.now.den)) }
{
    match range.high {
        None => true,
        Some(high) => is_at_most(times(value.num(), range.scale), times(high, value.den())),
    }
}

fn times(number: i64, count: u64) -> i128
    ensures { result ≡ number *ℤ pos count }
{
    i128::from(number) * i128::from(count)
}

fn is_at_most(number: i128, bound: i128) -> bool
    ensures { IsTrue result ↔ (number ≤ℤ bound) }
{
    number <= bound
}
