//! The level steps of an outline, by their direction.

ghost use Rattle.std.specs.Prelude.{◌≡◌, ◌<◌, ◌^◌, [], ◌∷◌, length, IfOk, OnOk, MatchOption};
ghost use Rattle.std.specs.List.Sorted.{IsPermutation};
ghost use Rattle.region_sweep.specs.Counts.{Rise};
ghost use Rattle.gds_polygon.specs.Working.Steps.{step, steps_of};

use drc_geom::Pt;
use region_form::Flip;
use std::alloc::{AllocError, Global};

/// The steps that go east, or else those that go west, each on its line.
pub(crate) fn level_steps(alloc: Global, points: &[Pt], east: bool) -> Result<Vec<Flip>, AllocError>
    ensures steps { IfOk result (λ steps. steps.items ≡ steps_of east points.now) }
    ensures bound { OnOk result (length points.now < 2 ^ 64) }
{
    let mut steps = Vec::with_capacity(alloc, points.len() / 2)?;
    let [first, more @ ..] = points else {
        return Ok(steps);
    };
    let mut a = *first;
    for b in more {
        if let Some(flip) = step(a, *b, east) {
            steps.push(flip)?;
        }
        a = *b;
    }
    Ok(steps)
}

fn step(a: Pt, b: Pt, east: bool) -> Option<Flip>
    ensures { MatchOption result (step east a b ≡ []) (λ flip. step east a b ≡ flip ∷ []) }
{
    let (x0, x1) = if east { (a.x, b.x) } else { (b.x, a.x) };
    if x0 < x1 {
        Some(Flip { y: a.y, x0, x1 })
    } else {
        None
    }
}

/// The same steps, by line and then column.
pub(crate) fn in_order(mut steps: Vec<Flip>) -> Vec<Flip>
    ensures steps { IsPermutation steps.items result.items }
    ensures rise { Rise result.items }
{
    steps.sort_unstable_by_key(|step| (step.y, step.x0));
    steps
}
