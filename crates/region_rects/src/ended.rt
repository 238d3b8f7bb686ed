//! The rectangles, in one sweep to the right.

ghost use Rattle.std.specs.Prelude.{◌≡◌, ◌++◌, ◌∷◌, [], ℤ, List, IfOk, OnOk};
ghost use Rattle.std.specs.List.{AllByRecursion};
ghost use Rattle.std.specs.List.Sorted.{IsPermutation, IsSorted};
ghost use Rattle.list_facts.specs.InOrder.{ListsInOrder};
ghost use Rattle.drc_geom.specs.Squares.{IsRect, covered};
ghost use Rattle.region_form.specs.Flips.{squares};
ghost use Rattle.row_state.specs.declared.piece.Piece.{Piece};
ghost use Rattle.region_rects.specs.declared.stretch.Stretch.{Stretch};
ghost use Rattle.region_rects.specs.Canonical.{IsCanonical, rect_order};
ghost use Rattle.region_rects.specs.Disjoint.{AreDisjoint};
ghost use Rattle.region_rects.specs.Working.Joins.{joined, joined_from};
ghost use Rattle.region_rects.specs.Working.Stretches.{ended};

use crate::pass::Pass;
use crate::stretch::Stretch;
use drc_geom::Rect;
use region_form::Region;
use region_turn::turn_over;
use row_state::{Piece, RowState, Value};
use std::alloc::{AllocError, Global};

/// The canonical rectangles of the region, by their lowest rows and then their first columns. They don't overlap, and
/// cover exactly the squares of the region. Only want of memory is an error.
pub fn rectangles(alloc: Global, region: &Region) -> Result<Vec<Rect>, AllocError>
    ensures listed { IfOk result (λ rects. ListsInOrder rect_order (IsCanonical (squares region.now)) rects.items) }
    ensures rects { IfOk result (λ rects. AllByRecursion IsRect rects.items) }
    ensures disjoint { IfOk result (λ rects. AreDisjoint rects.items) }
    ensures covered { IfOk result (λ rects. (x y : ℤ) → covered rects.items x y ≡ squares region.now x y) }
{
    let ended = all_ended(alloc, region)?;
    let rects = in_order(ended);
    Ok(rects)
}

// The same rectangles, by line of x and then row, as their stretches end.
fn all_ended(alloc: Global, region: &Region) -> Result<Vec<Rect>, AllocError>
    ensures canonical { IfOk result (λ rects. AllByRecursion (IsCanonical (squares region.now)) rects.items) }
    ensures rects { IfOk result (λ rects. AllByRecursion IsRect rects.items) }
    ensures disjoint { IfOk result (λ rects. AreDisjoint rects.items) }
    ensures covered { IfOk result (λ rects. (x y : ℤ) → covered rects.items x y ≡ squares region.now x y) }
{
    let turned = turn_over(alloc, region)?;
    let mut row = RowState::new(alloc);
    let mut pieces = Vec::new(alloc);
    let flips = turned.as_slice();
    let mut rects = Vec::with_capacity(alloc, flips.len())?;
    for flip in flips {
        row.change(flip.x0, flip.x1, &Pass { line: flip.y }, &mut pieces)?;
        push_ended(&mut rects, flip.y, &pieces)?;
    }
    Ok(rects)
}

fn in_order(mut rects: Vec<Rect>) -> Vec<Rect>
    ensures rects { IsPermutation rects.items result.items }
    ensures sorted { IsSorted rect_order result.items }
{
    rects.sort_unstable_by_key(|rect| (rect.y0, rect.x0));
    rects
}

// Adds the rectangles of the stretches that end on a line of x.
fn push_ended(rects: &mut Vec<Rect>, line: i64, pieces: &[Piece<Stretch>]) -> Result<(), AllocError>
    ensures { OnOk result (rects.new.items ≡ rects.old.items ++ ended line (joined pieces.now)) }
{
    match pieces {
        [] => Ok(()),
        [first, behind @ ..] => push_from(rects, line, *first, behind),
    }
}

// The same of a piece that has begun and those behind it.
fn push_from(
    rects: &mut Vec<Rect>,
    line: i64,
    mut begun: Piece<Stretch>,
    behind: &[Piece<Stretch>],
) -> Result<(), AllocError>
    ensures { OnOk result (rects.new.items ≡ rects.old.items ++ ended line (joined_from begun behind.now)) }
{
    for piece in behind {
        begun = join_or_end(rects, line, begun, *piece)?;
    }
    push_ended_of(rects, line, begun)
}

// An equal piece is joined to the one that has begun, and another ends it.
fn join_or_end(
    rects: &mut Vec<Rect>,
    line: i64,
    begun: Piece<Stretch>,
    next: Piece<Stretch>,
) -> Result<Piece<Stretch>, AllocError>
    ensures { IfOk result (λ now. (rest : List (Piece Stretch))
        → rects.new.items ++ ended line (joined_from now rest)
        ≡ rects.old.items ++ ended line (joined_from begun (next ∷ rest))) }
{
    if begun.old.is_same(&next.old) {
        return Ok(Piece {
            x1: next.x1,
            ..begun
        });
    }
    push_ended_of(rects, line, begun)?;
    Ok(next)
}

fn push_ended_of(rects: &mut Vec<Rect>, line: i64, piece: Piece<Stretch>) -> Result<(), AllocError>
    ensures { OnOk result (rects.new.items ≡ rects.old.items ++ ended line (piece ∷ [])) }
{
    match piece.old {
        Stretch::None => Ok(()),
        Stretch::From(x0) => {
            if x0 < line {
                rects.push(Rect {
                    x0,
                    y0: piece.x0,
                    x1: line,
                    y1: piece.x1,
                })?;
            }
            Ok(())
        }
    }
}
