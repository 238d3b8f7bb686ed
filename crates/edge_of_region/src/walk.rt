//! A walk over a flip, from right to left: it draws the sides that end or lie on the line, and finds those that stand
//! below it.

ghost use Rattle.std.specs.Prelude.{◌≡◌, ◌++◌, ◌∷◌, [], not as isnt, List, OnOk, IfOk};
ghost use Rattle.edge_of_region.specs.declared.upright.Upright.{Upright};
ghost use Rattle.edge_of_region.specs.Working.Walks.{below_all, below_from, level_run, sides_all, sides_from, upright_run};

use crate::upright::Upright;
use drc_geom::{Run, Side};
use region_form::Flip;
use std::alloc::AllocError;

/// Where a walk stands: on this line of x, and whether the column on its left has a square above the line.
#[derive(Clone, Copy)]
pub(crate) struct Pen {
    pub(crate) at: i64,
    pub(crate) inside: bool,
}

/// Walks over a flip: `right` tells whether the column behind it has a square above the line, and `above` are the sides
/// that stand above the flip, from right to left.
pub(crate) fn walk(
    flip: Flip,
    right: bool,
    above: &[Upright],
    below: &mut Vec<Upright>,
    sides: &mut Vec<Run>,
) -> Result<(), AllocError>
    ensures below { OnOk result (below.new.items ≡ below.old.items ++ below_all flip right above.now) }
    ensures sides { OnOk result (sides.new.items ≡ sides.old.items ++ sides_all flip right above.now) }
{
    match above {
        [] => from_right(flip, right, above, below, sides),
        [first, rest @ ..] => {
            if first.line == flip.x1 {
                to_right(flip, *first, rest, below, sides)
            } else {
                from_right(flip, right, above, below, sides)
            }
        }
    }
}

// No side stands above the flip's right end: one begins there.
fn from_right(
    flip: Flip,
    right: bool,
    above: &[Upright],
    below: &mut Vec<Upright>,
    sides: &mut Vec<Run>,
) -> Result<(), AllocError>
    ensures below { OnOk result (below.new.items ≡ below.old.items
        ++ record { line = flip.x1; top = flip.y; east = isnt right } ∷ below_from flip flip.x1 right above.now) }
    ensures sides { OnOk result (sides.new.items ≡ sides.old.items ++ sides_from flip flip.x1 right above.now) }
{
    below.push(Upright {
        line: flip.x1,
        top: flip.y,
        east: !right,
    })?;
    let pen = Pen {
        at: flip.x1,
        inside: right,
    };
    walk_from(flip, pen, above, below, sides)
}

// A side stands above the flip's right end: it ends there.
fn to_right(
    flip: Flip,
    first: Upright,
    rest: &[Upright],
    below: &mut Vec<Upright>,
    sides: &mut Vec<Run>,
) -> Result<(), AllocError>
    ensures below { OnOk result (below.new.items ≡ below.old.items ++ below_from flip flip.x1 first.east rest.now) }
    ensures sides { OnOk result (sides.new.items ≡ sides.old.items
        ++ upright_run flip.y first ∷ sides_from flip flip.x1 first.east rest.now) }
{
    sides.push(upright_run(flip.y, first))?;
    let pen = Pen {
        at: flip.x1,
        inside: first.east,
    };
    walk_from(flip, pen, rest, below, sides)
}

fn walk_from(
    flip: Flip,
    start: Pen,
    above: &[Upright],
    below: &mut Vec<Upright>,
    sides: &mut Vec<Run>,
) -> Result<(), AllocError>
    ensures below { OnOk result (below.new.items ≡ below.old.items ++ below_from flip start.at start.inside above.now) }
    ensures sides { OnOk result (sides.new.items ≡ sides.old.items ++ sides_from flip start.at start.inside above.now) }
{
    let mut pen = start;
    for upright in above {
        pen = step(flip, pen, *upright, below, sides)?;
    }
    finish(flip, pen, below, sides)
}

// Goes to an upright side: it ends on the line, and unless it stands at the flip's left end it begins anew.
fn step(
    flip: Flip,
    pen: Pen,
    upright: Upright,
    below: &mut Vec<Upright>,
    sides: &mut Vec<Run>,
) -> Result<Pen, AllocError>
    ensures below { IfOk result (λ next. (rest : List Upright)
        → below.new.items ++ below_from flip next.at next.inside rest
        ≡ below.old.items ++ below_from flip pen.at pen.inside (upright ∷ rest)) }
    ensures sides { IfOk result (λ next. (rest : List Upright)
        → sides.new.items ++ sides_from flip next.at next.inside rest
        ≡ sides.old.items ++ sides_from flip pen.at pen.inside (upright ∷ rest)) }
{
    let upright_side = upright_run(flip.y, upright);
    let level_side = level_run(flip.y, upright.line, pen.at, pen.inside);
    sides.extend_from_slice(&[upright_side, level_side])?;
    let next = Pen {
        at: upright.line,
        inside: upright.east,
    };
    if upright.line <= flip.x0 {
        return Ok(next);
    }
    below.push(Upright {
        line: upright.line,
        top: flip.y,
        east: !upright.east,
    })?;
    Ok(next)
}

// Goes to the left end of the flip, where a side begins if none has ended there.
fn finish(
    flip: Flip,
    pen: Pen,
    below: &mut Vec<Upright>,
    sides: &mut Vec<Run>,
) -> Result<(), AllocError>
    ensures below { OnOk result (below.new.items ≡ below.old.items ++ below_from flip pen.at pen.inside []) }
    ensures sides { OnOk result (sides.new.items ≡ sides.old.items ++ sides_from flip pen.at pen.inside []) }
{
    if flip.x0 < pen.at {
        sides.push(level_run(flip.y, flip.x0, pen.at, pen.inside))?;
        below.push(Upright {
            line: flip.x0,
            top: flip.y,
            east: pen.inside,
        })?;
    }
    Ok(())
}

fn upright_run(line: i64, upright: Upright) -> Run
    ensures { result ≡ upright_run line upright }
{
    Run {
        side: if upright.east { Side::E } else { Side::W },
        line: upright.line,
        lo: line,
        hi: upright.top,
    }
}

fn level_run(line: i64, lo: i64, hi: i64, inside: bool) -> Run
    ensures { result ≡ level_run line lo hi inside }
{
    Run {
        side: if inside { Side::S } else { Side::N },
        line,
        lo,
        hi,
    }
}
