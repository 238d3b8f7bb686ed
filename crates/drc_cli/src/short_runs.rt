//! The short runs of the boundary of rectangles.

ghost use Rattle.std.specs.Prelude.{◌≡◌, IfOk};
ghost use Rattle.std.specs.List.{AllByRecursion};
ghost use Rattle.list_facts.specs.InOrder.{ListsInOrder};
ghost use Rattle.drc_geom.specs.Squares.{IsRect, covered};
ghost use Rattle.drc_geom.specs.Runs.{length_of, run_order};
ghost use Rattle.drc_cli.specs.ShortRuns.{IsShortRun, is_shorter};
ghost use Rattle.drc_cli.specs.Working.ShortRuns.{short_of};

use drc_geom::{Rect, Run};
use edge_of_region::boundary;
use region_merge::merge;
use std::alloc::{AllocError, Global};

/// The runs of the boundary of what the rectangles cover together that are shorter than the bound, in run order. The
/// bound is in database units. Errs only where memory runs out.
pub fn short_runs(alloc: Global, rects: Vec<Rect>, bound: u32) -> Result<Vec<Run>, AllocError>
    requires proper { AllByRecursion IsRect rects.items }
    ensures { IfOk result (λ runs. ListsInOrder run_order (IsShortRun (covered rects.items) bound) runs.items) }
{
    let region = merge(alloc, &rects)?;
    // a large layer's rectangles are needed no more
    drop(rects);
    let edges = boundary(alloc, &region)?;
    shorter_than(alloc, edges.runs(), bound)
}

fn shorter_than(alloc: Global, runs: &[Run], bound: u32) -> Result<Vec<Run>, AllocError>
    ensures { IfOk result (λ short. short.items ≡ short_of bound runs.now) }
{
    let mut short = Vec::new(alloc);
    for run in runs {
        if is_short(run, bound) {
            short.push(*run)?;
        }
    }
    Ok(short)
}

fn is_short(run: &Run, bound: u32) -> bool
    ensures { result ≡ is_shorter bound (length_of run.now) }
{
    // a length beyond the type is as far above each bound, or below it, as the type's last value
    run.hi.saturating_sub(run.lo) < i64::from(bound)
}

#[cfg(test)]
mod tests {
    use super::*;
    use drc_geom::Side;
    use std::test::Fail;

    fn run(side: Side, line: i64, lo: i64, hi: i64) -> Run {
        Run { side, line, lo, hi }
    }

    #[test]
    fn shorter_than_the_bound(rt: HostRuntime) -> Result<(), Fail> {
        let bar = [Rect {
            x0: 0,
            y0: 0,
            x1: 100,
            y1: 300,
        }];
        let ends = [run(Side::S, 0, 0, 100), run(Side::N, 300, 0, 100)];
        let rows: [(u32, &[Run]); 3] = [(100, &ends[..0]), (101, &ends), (300, &ends)];
        for (bound, want) in rows {
            let rects = Vec::from_slice(rt.alloc(), &bar)?;
            let runs = short_runs(rt.alloc(), rects, bound)?;
            assert_eq!(rt; runs.as_slice(), want, "at {bound}");
        }
        Ok(())
    }
}
