ghost use Rattle.std.specs.Prelude.{◌≡◌, refl};
ghost use Rattle.std.specs.Ordering.{as_partial_cmp, int_cmp, nat_cmp, ordering_then};
ghost use Rattle.drc_geom.specs.Runs.{end_x, end_y, run_order, side_rank};
ghost use Rattle.drc_geom.specs.RunOrder.{run_order_matches_eq, run_order_partial, run_order_total};

use crate::unit::Side;
use std::cmp::Ordering;

/// A stretch of adjacent units with one side on one line, in the columns lo to hi - 1.
#[derive(Clone, Copy, Debug, PartialEq, Eq)]
pub struct Run {
    pub side: Side,
    pub line: i64,
    pub lo: i64,
    pub hi: i64,
}

impl Run {
    /// The x of the lower or left end.
    pub fn end_x(&self) -> i64
        ensures { result ≡ end_x self.now.side self.now.line self.now.lo }
    {
        match self.side {
            Side::N | Side::S => self.lo,
            Side::E | Side::W => self.line,
        }
    }

    /// The y of the lower or left end.
    pub fn end_y(&self) -> i64
        ensures { result ≡ end_y self.now.side self.now.line self.now.lo }
    {
        match self.side {
            Side::N | Side::S => self.line,
            Side::E | Side::W => self.lo,
        }
    }
}

impl Ord for Run {
    ghost cmp = { run_order };

    ghost total = { run_order_total };

    ghost matches_partial_cmp = { λ a b. refl };

    ghost matches_eq = { run_order_matches_eq };

    fn cmp(&self, other: &Run) -> Ordering {
        run_cmp(self, other)
    }
}

impl PartialOrd for Run {
    ghost partial_cmp = { as_partial_cmp run_order };

    ghost laws = { run_order_partial };

    fn partial_cmp(&self, other: &Run) -> Option<Ordering> {
        Some(run_cmp(self, other))
    }
}

/// Run order: the lower end first, then the one further left, then the side (horizontal before vertical, then in the
/// order N, E, S, W), then the shorter run.
pub fn run_cmp(a: &Run, b: &Run) -> Ordering
    ensures { result ≡ run_order a.now b.now }
{
    match a.end_y().cmp(&b.end_y()) {
        Ordering::Equal => cmp_from_end_x(a, b),
        lower => lower,
    }
}

// Run order of runs whose lower ends lie on one line.
fn cmp_from_end_x(a: &Run, b: &Run) -> Ordering
    ensures { result ≡ ordering_then (int_cmp (end_x a.now.side a.now.line a.now.lo) (end_x b.now.side b.now.line b.now.lo))
        (ordering_then (nat_cmp (side_rank a.now.side) (side_rank b.now.side)) (int_cmp a.now.hi b.now.hi)) }
{
    match a.end_x().cmp(&b.end_x()) {
        // where all but the lengths agree, the shorter run is the one with the lower hi
        Ordering::Equal => a.side.rank().cmp(&b.side.rank()).then(a.hi.cmp(&b.hi)),
        further_left => further_left,
    }
}
