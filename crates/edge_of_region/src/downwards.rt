//! The sweep down over all flips.

ghost use Rattle.std.specs.Prelude.{◌≡◌, ◌++◌, IfOk, OnOk};
ghost use Rattle.std.specs.List.{AllByRecursion};
ghost use Rattle.drc_geom.specs.Runs.{IsMaximalRun, units_of};
ghost use Rattle.drc_geom.specs.Units.{AreSameUnits, boundary};
ghost use Rattle.region_form.specs.Flips.{IsRegion, squares};
ghost use Rattle.chunked_list.specs.Stretches.{last};
ghost use Rattle.edge_of_region.specs.Working.Flips.{back_of, front_of, over_of, right_of};
ghost use Rattle.edge_of_region.specs.Working.Orders.{Descend};
ghost use Rattle.edge_of_region.specs.Working.Walks.{below_all, sides_all};

use crate::upright::{LeftOf, UpTo, Upright};
use crate::walk::walk;
use chunked_list::ChunkedList;
use drc_geom::Run;
use region_form::Flip;
use std::alloc::{AllocError, Global};

/// The maximal runs of the boundary of the squares of flips, in falling run order. Only want of memory is an error.
pub(crate) fn sides(alloc: Global, flips: &[Flip]) -> Result<Vec<Run>, AllocError>
    requires { IsRegion flips.now }
    ensures maximal { IfOk result (λ runs. AllByRecursion (IsMaximalRun (boundary (squares flips.now))) runs.items) }
    ensures units { IfOk result (λ runs. AreSameUnits (units_of runs.items) (boundary (squares flips.now))) }
{
    let mut all = ChunkedList::new(alloc);
    let mut above = Vec::new(alloc);
    let mut below = Vec::new(alloc);
    let mut runs = Vec::with_capacity(alloc, flips.len())?;
    let mut left = flips;
    while let [lower @ .., flip] = left {
        pass(*flip, &mut all, &mut above, &mut below, &mut runs)?;
        left = lower;
    }
    Ok(runs)
}

// Passes a flip.
fn pass(
    flip: Flip,
    all: &mut ChunkedList<Upright>,
    above: &mut Vec<Upright>,
    below: &mut Vec<Upright>,
    runs: &mut Vec<Run>,
) -> Result<(), AllocError>
    requires { Descend all.old }
    ensures all { OnOk result (all.new ≡ front_of flip all.old
        ++ (below_all flip (right_of (last (front_of flip all.old))) (over_of flip all.old) ++ back_of flip all.old)) }
    ensures runs { OnOk result (runs.new.items ≡ runs.old.items
        ++ sides_all flip (right_of (last (front_of flip all.old))) (over_of flip all.old)) }
{
    above.clear();
    below.clear();
    let behind = all.read(&UpTo(flip.x1), &LeftOf(flip.x0), above)?;
    walk(flip, is_east(behind), above, below, runs)?;
    all.replace(&UpTo(flip.x1), above.len(), below)?;
    Ok(())
}

// Whether a side is the E side of its squares; where there is none, there is no square either.
fn is_east(upright: Option<Upright>) -> bool
    ensures { result ≡ right_of upright }
{
    match upright {
        Some(upright) => upright.east,
        None => false,
    }
}
