//! The sweep over all lines.

ghost use Rattle.std.specs.Prelude.{◌≡◌, ℤ, int_lt, false, IfOk};
ghost use Rattle.std.specs.List.{position_or_len};
ghost use Rattle.region_form.specs.Flips.{squares};
ghost use Rattle.region_sweep.specs.Counts.{times, times_up_to, AreWide, Rise};
ghost use Rattle.region_sweep.specs.Working.Lines.{lower_line};

use crate::evaluator::Evaluator;
use crate::line::Sweeping;
use region_form::{Flip, Region};
use row_state::Value;
use std::alloc::{AllocError, Global};

/// The squares whose columns, changed by the flips of both lists at or below their rows, have a value that counts as
/// inside. Each list rises, and above all lines no column is inside. Only want of memory is an error.
pub fn sweep<V: Value, E: Evaluator<V>>(
    alloc: Global,
    first: &[Flip],
    second: &[Flip],
    evaluator: &E,
) -> Result<Region, AllocError>
    requires first_rises { Rise first.now }
    requires second_rises { Rise second.now }
    requires first_wide { AreWide first.now }
    requires second_wide { AreWide second.now }
    requires closed { (x : ℤ)
        → E.inside evaluator.now (E.counted evaluator.now (times first.now x) (times second.now x)) ≡ false }
    ensures { IfOk result (λ region. (x y : ℤ) → squares region x y
        ≡ E.inside evaluator.now (E.counted evaluator.now (times_up_to first.now x y) (times_up_to second.now x y))) }
{
    let mut sweeping = Sweeping::new(alloc);
    let mut first_left = first;
    let mut second_left = second;
    while let Some(line) = next_line(first_left, second_left) {
        let (first_now, first_later) = first_left.split_at(count_up_to(line, first_left));
        let (second_now, second_later) = second_left.split_at(count_up_to(line, second_left));
        sweeping.pass(line, first_now, second_now, evaluator)?;
        first_left = first_later;
        second_left = second_later;
    }
    let mut region = Region::new(alloc);
    region.replace_end(0, &sweeping.flips)?;
    Ok(region)
}

// The lowest line of a flip that is left.
fn next_line(first: &[Flip], second: &[Flip]) -> Option<i64>
    ensures { result ≡ lower_line first.now second.now }
{
    match (first, second) {
        ([], []) => None,
        ([a, ..], []) => Some(a.y),
        ([], [b, ..]) => Some(b.y),
        ([a, ..], [b, ..]) => Some(if a.y <= b.y { a.y } else { b.y }),
    }
}

// How many flips stand before the first that lies above the line.
fn count_up_to(line: i64, flips: &[Flip]) -> usize
    ensures { result ≡ position_or_len (λ f. int_lt line f.y) flips.now }
{
    flips
        .iter()
        .position(|flip| line < flip.y)
        .unwrap_or(flips.len())
}
