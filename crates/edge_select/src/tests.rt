ghost use Rattle.std.specs.Prelude.{◌≡◌, ℤ};
ghost use Rattle.std.specs.List.{AllByRecursion};
ghost use Rattle.drc_geom.specs.Runs.{IsRun};

use crate::length;
use drc_geom::{Run, Side};
use edge_form::EdgeSet;
use layer_model::{Bound, Limits};
use std::alloc::Global;
use std::test::Fail;

fn run(side: Side, line: i64, lo: i64, hi: i64) -> Run
    ensures { result ≡ record { side = side; line = line; lo = lo; hi = hi } }
{
    Run { side, line, lo, hi }
}

const ANY: Limits = Limits {
    low: None,
    high: None,
    equal: None,
    other: None,
};

#[test]
fn sides_of_a_bar_by_length(rt: HostRuntime) -> Result<(), Fail> {
    // a bar of 100 by 300, with runs in run order
    let sides = [
        run(Side::S, 0, 0, 100),
        run(Side::E, 100, 0, 300),
        run(Side::W, 0, 0, 300),
        run(Side::N, 300, 0, 100),
    ];
    let edges = EdgeSet::gather(Vec::from_slice(rt.alloc(), &sides)?);
    let at = |inclusive| Bound {
        value: 100,
        inclusive,
    };
    let rows: [(Limits, usize); 6] = [
        (ANY, 4),
        (
            Limits {
                high: Some(at(false)),
                ..ANY
            },
            0,
        ),
        (
            Limits {
                high: Some(at(true)),
                ..ANY
            },
            2,
        ),
        (
            Limits {
                low: Some(at(false)),
                ..ANY
            },
            2,
        ),
        (
            Limits {
                equal: Some(300),
                ..ANY
            },
            2,
        ),
        (
            Limits {
                other: Some(300),
                high: Some(at(true)),
                ..ANY
            },
            2,
        ),
    ];
    for (limits, want) in &rows {
        let kept = length(rt.alloc(), &edges, limits)?;
        assert_eq!(rt; kept.runs().len(), *want);
    }
    Ok(())
}
