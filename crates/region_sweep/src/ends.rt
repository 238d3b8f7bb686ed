//! The ends of one line, at which the squares begin or end to change, and the flips that they make.

ghost use Rattle.std.specs.Prelude.{◌≡◌, ℤ, not, int_le, ◌≤ℤ◌, [], ◌++◌, OnOk};
ghost use Rattle.std.specs.List.{AllByRecursion};
ghost use Rattle.list_facts.specs.EitherOr.{exactly_one};
ghost use Rattle.region_sweep.specs.Working.Ends.{AscendStrictly, AscendWeakly, DoesNotEndWith, EndsWith, flips_of, is_odd_number, odd_ends};
ghost use Rattle.std.specs.Bool.{MatchBool};

use region_form::Flip;
use std::alloc::AllocError;

/// Adds an end, or takes away the last where it is the same.
pub(crate) fn turn(ends: &mut Vec<i64>, end: i64) -> Result<(), AllocError>
    ensures odd { OnOk result ((x : ℤ) → odd_ends ends.new.items x
        ≡ exactly_one (odd_ends ends.old.items x) (int_le end x)) }
    ensures number { OnOk result (is_odd_number ends.new.items ≡ not (is_odd_number ends.old.items)) }
    ensures ascend { OnOk result (AscendStrictly ends.old.items → AllByRecursion (λ e. e ≤ℤ end) ends.old.items
        → AscendStrictly ends.new.items × AllByRecursion (λ e. e ≤ℤ end) ends.new.items) }
{
    if is_last(ends, end) {
        ends.pop();
        return Ok(());
    }
    ends.push(end)?;
    Ok(())
}

fn is_last(ends: &[i64], end: i64) -> bool
    ensures { MatchBool result (EndsWith end ends.now) (DoesNotEndWith end ends.now) }
{
    match ends {
        [] => false,
        [.., last] => is_equal(*last, end),
    }
}

fn is_equal(a: i64, b: i64) -> bool
    ensures { MatchBool result (a ≡ b) (a ≡ b → ⊥) }
{
    a == b
}

/// Puts ends in order, without those that cancel.
pub(crate) fn cancel(kept: &mut Vec<i64>, ends: &mut Vec<i64>) -> Result<(), AllocError>
    ensures odd { OnOk result ((x : ℤ) → odd_ends kept.new.items x ≡ odd_ends ends.old.items x) }
    ensures number { OnOk result (is_odd_number kept.new.items ≡ is_odd_number ends.old.items) }
    ensures ascend { OnOk result (AscendStrictly kept.new.items) }
{
    ends.sort_unstable();
    kept.clear();
    turn_all(kept, ends)?;
    Ok(())
}

// Turns at each end. They are in order.
fn turn_all(kept: &mut Vec<i64>, ends: &[i64]) -> Result<(), AllocError>
    requires order { AscendWeakly ends.now }
    requires none { kept.old.items ≡ [] }
    ensures odd { OnOk result ((x : ℤ) → odd_ends kept.new.items x ≡ odd_ends ends.now x) }
    ensures number { OnOk result (is_odd_number kept.new.items ≡ is_odd_number ends.now) }
    ensures ascend { OnOk result (AscendStrictly kept.new.items) }
{
    for end in ends {
        turn(kept, *end)?;
    }
    Ok(())
}

/// Adds the flips of a line from one end to the next.
#[tactic(auto, using(crate::proofs::EndFlips::two_more, crate::proofs::EndFlips::too_few))]
pub(crate) fn push_flips(flips: &mut Vec<Flip>, line: i64, ends: &[i64]) -> Result<(), AllocError>
    ensures { OnOk result (flips.new.items ≡ flips.old.items ++ flips_of line ends.now) }
{
    let mut left = ends;
    while let [x0, x1, behind @ ..] = left {
        flips.push(Flip {
            y: line,
            x0: *x0,
            x1: *x1,
        })?;
        left = behind;
    }
    Ok(())
}
