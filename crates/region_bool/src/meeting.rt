//! Two flips that stand first in their lists.
//!
//! ```text
//!    first     +-------------+
//!    second        +-------------+
//!    passed    +---+                       all else lies behind it
//!    left                    +---+         of the second; between them the two cancel
//! ```

ghost use Rattle.std.specs.Prelude.{◌≡◌, ◌<ℤ◌, ◌≤ℤ◌, true, false};
ghost use Rattle.region_form.specs.Flips.{StandsBefore};
ghost use Rattle.region_bool.specs.Working.Meetings.{IsMeeting, stretch, stretch_between};

use region_form::Flip;

/// What two flips come to: what stands before all else is passed, and what is left of each.
#[derive(Clone, Copy, Debug)]
pub(crate) struct Meeting {
    pub(crate) passed: Option<Flip>,
    pub(crate) first: Option<Flip>,
    pub(crate) second: Option<Flip>,
}

/// What the first flips of two lists come to.
pub(crate) fn meet(first: Flip, second: Flip) -> Meeting
    requires first_wide { first.x0 <ℤ first.x1 }
    requires second_wide { second.x0 <ℤ second.x1 }
    ensures { IsMeeting first second result }
{
    if stands_before(first, second) {
        Meeting {
            passed: Some(first),
            first: None,
            second: Some(second),
        }
    } else if stands_before(second, first) {
        Meeting {
            passed: Some(second),
            first: Some(first),
            second: None,
        }
    } else {
        meet_on_line(first, second)
    }
}

// What two flips of one line come to that overlap or touch.
fn meet_on_line(first: Flip, second: Flip) -> Meeting
    requires first_wide { first.x0 <ℤ first.x1 }
    requires second_wide { second.x0 <ℤ second.x1 }
    requires line { first.y ≡ second.y }
    requires first_reaches { second.x0 ≤ℤ first.x1 }
    requires second_reaches { first.x0 ≤ℤ second.x1 }
    ensures { IsMeeting first second result }
{
    if first.x1 == second.x0 {
        Meeting {
            passed: None,
            first: None,
            second: stretch(first.y, first.x0, second.x1),
        }
    } else if second.x1 == first.x0 {
        Meeting {
            passed: None,
            first: stretch(first.y, second.x0, first.x1),
            second: None,
        }
    } else {
        Meeting {
            passed: stretch_between(first.y, first.x0, second.x0),
            first: stretch(first.y, second.x1, first.x1),
            second: stretch(first.y, first.x1, second.x1),
        }
    }
}

// The columns between two ends, whichever is the lower.
fn stretch_between(y: i64, a: i64, b: i64) -> Option<Flip>
    ensures { result ≡ stretch_between y a b }
{
    if a < b {
        stretch(y, a, b)
    } else {
        stretch(y, b, a)
    }
}

fn stretch(y: i64, x0: i64, x1: i64) -> Option<Flip>
    ensures { result ≡ stretch y x0 x1 }
{
    if x0 < x1 {
        Some(Flip { y, x0, x1 })
    } else {
        None
    }
}

// Whether a flip lies on a lower line, or on the same line and ends before the place where the other begins.
fn stands_before(a: Flip, b: Flip) -> bool
    ensures yes { result ≡ true → StandsBefore a b }
    ensures no { result ≡ false → StandsBefore a b → ⊥ }
{
    a.y < b.y || (a.y == b.y && a.x1 < b.x0)
}
