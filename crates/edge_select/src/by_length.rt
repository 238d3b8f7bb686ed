//! LENGTH.

ghost use Rattle.std.specs.Prelude.{◌≡◌, IfOk, unsigned_abs, ◌-ℤ◌};
ghost use Rattle.drc_geom.specs.Runs.{length_of, units_of};
ghost use Rattle.drc_geom.specs.Lengths.{IsLength};
ghost use Rattle.edge_form.specs.Edges.{IsEdgeSet};
ghost use Rattle.edge_select.specs.LengthLimits.{meets_length};
ghost use Rattle.edge_select.specs.Working.Whole.{whole_runs};

use drc_geom::Run;
use edge_form::EdgeSet;
use layer_model::Limits;
use std::alloc::{AllocError, Global};

/// The units of a set whose run has a length that meets the limits, in database units. Errs only where memory runs out.
pub fn length(alloc: Global, edges: &EdgeSet, limits: &Limits) -> Result<EdgeSet, AllocError>
    ensures { IfOk result (λ kept. IsLength (units_of edges.now) (meets_length limits.now) (units_of kept)) }
{
    kept_runs(alloc, edges.runs(), limits)
}

fn kept_runs(alloc: Global, runs: &[Run], limits: &Limits) -> Result<EdgeSet, AllocError>
    requires { IsEdgeSet runs.now }
    ensures { IfOk result (λ kept. kept ≡ whole_runs limits.now runs.now) }
{
    let mut kept = EdgeSet::new(alloc);
    for run in runs {
        if is_kept(run, limits) {
            kept.push_run(*run)?;
        }
    }
    Ok(kept)
}

fn is_kept(run: &Run, limits: &Limits) -> bool
    ensures { result ≡ meets_length limits.now (length_of run.now) }
{
    limits.meet(u128::from(run.hi.abs_diff(run.lo)))
}
