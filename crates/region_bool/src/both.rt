//! One walk over the flips of two regions, in which those that both have cancel.

ghost use Rattle.std.specs.Prelude.{◌≡◌, ◌++◌, [], None, IfOk, OnOk};
ghost use Rattle.region_form.specs.Flips.{AreSorted};
ghost use Rattle.region_bool.specs.Working.Meetings.{AreOfOne, listed};

use crate::meeting::meet;
use region_form::Flip;
use std::alloc::{AllocError, Global};

/// The flips of exactly one list, by line and then column, where those of each list are so. Only want of memory is an
/// error.
pub(crate) fn flips_of_one(
    alloc: Global,
    first: &[Flip],
    second: &[Flip],
) -> Result<Vec<Flip>, AllocError>
    requires first_sorted { AreSorted first.now }
    requires second_sorted { AreSorted second.now }
    ensures { IfOk result (λ flips. AreOfOne first.now second.now flips.items) }
{
    let mut passed = Vec::new(alloc);
    let (mut a, mut first_left) = front(None, first);
    let (mut b, mut second_left) = front(None, second);
    while let (Some(one), Some(other)) = (a, b) {
        let met = meet(one, other);
        if let Some(flip) = met.passed {
            passed.push(flip)?;
        }
        (a, first_left) = front(met.first, first_left);
        (b, second_left) = front(met.second, second_left);
    }
    push_left(&mut passed, a, first_left)?;
    push_left(&mut passed, b, second_left)?;
    Ok(passed)
}

// The first flip of a list, which is what is left of one and the flips behind it, and the others.
fn front(left: Option<Flip>, behind: &[Flip]) -> (Option<Flip>, &[Flip])
    ensures same { listed result.0 ++ result.1.now ≡ listed left ++ behind.now }
    ensures none { result.0 ≡ None → result.1.now ≡ [] }
{
    match (left, behind) {
        (None, [next, others @ ..]) => (Some(*next), others),
        _ => (left, behind),
    }
}

fn push_left(passed: &mut Vec<Flip>, left: Option<Flip>, behind: &[Flip]) -> Result<(), AllocError>
    ensures { OnOk result (passed.new.items ≡ passed.old.items ++ (listed left ++ behind.now)) }
{
    if let Some(flip) = left {
        passed.push(flip)?;
    }
    passed.extend_from_slice(behind)
}
