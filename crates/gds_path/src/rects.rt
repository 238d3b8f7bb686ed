//! The rectangles of a path, in one pass over its points.

ghost use Rattle.std.specs.Prelude.{◌≡◌, ◌++◌, ◌∷◌, ◌||◌, ℤ, All, IfErr, IfOk, List, OnErr, OnOk, length, take, true};
ghost use Rattle.std.specs.List.{AllByRecursion, list_all};
ghost use Rattle.std.specs.Option.{option_to_list};
ghost use Rattle.drc_geom.specs.declared.point.Pt.{Pt};
ghost use Rattle.drc_geom.specs.declared.rect.Rect.{Rect};
ghost use Rattle.drc_geom.specs.Squares.{IsRect, covered};
ghost use Rattle.gds_path.specs.Paths.{IsDrawable, IsFault, IsMeasuredPoint, is_within, path_squares, rects_of};
ghost use Rattle.gds_path.specs.Working.Pens.{IsSteady, ahead, all_drawn, drawn};

use crate::along::is_within;
use crate::pen::Pen;
use crate::{PathFault, Stroke};
use drc_geom::{Pt, Rect};
use std::alloc::AllocError;

/// Adds the rectangles of a path, segment by segment; together they cover its squares. Each two neighbours among its
/// points lie on one line. Where a side of a rectangle lies outside -2^30 to 2^30 the path is refused, and after an
/// error the list is as before.
#[tactic(auto, using(crate::proofs::Paths::all_drawn_is, crate::proofs::Areas::areas_of))]
pub fn path_rects(points: &[Pt], stroke: &Stroke, out: &mut Vec<Rect>) -> Result<(), PathFault>
    requires points { All IsMeasuredPoint points.now }
    requires stroke { IsDrawable stroke.now }
    ensures rects { OnOk result (out.new.items ≡ out.old.items ++ rects_of stroke.now points.now) }
    ensures covered { OnOk result ((x y : ℤ)
        → covered out.new.items x y ≡ (covered out.old.items x y || path_squares stroke.now points.now x y)) }
    ensures areas { AllByRecursion IsRect (rects_of stroke.now points.now) }
    ensures within { OnOk result (list_all is_within (rects_of stroke.now points.now) ≡ true) }
    ensures refused { IfErr result (λ fault. IsFault fault (rects_of stroke.now points.now)) }
    ensures kept { OnErr result (out.new.items ≡ out.old.items) }
{
    let before = out.len();
    let drawn = draw_within(points, stroke, out);
    if drawn.is_err() {
        out.truncate(before);
    }
    drawn
}

// The same, but for what an error leaves: some of the rectangles.
fn draw_within(points: &[Pt], stroke: &Stroke, out: &mut Vec<Rect>) -> Result<(), PathFault>
    requires points { All IsMeasuredPoint points.now }
    requires stroke { IsDrawable stroke.now }
    ensures rects { OnOk result (out.new.items ≡ out.old.items ++ all_drawn stroke.now points.now) }
    ensures within { OnOk result (list_all is_within (all_drawn stroke.now points.now) ≡ true) }
    ensures refused { IfErr result (λ fault. IsFault fault (all_drawn stroke.now points.now)) }
    ensures kept { take (length out.old.items) out.new.items ≡ out.old.items }
{
    let before = out.len();
    draw_all(points, stroke, out)?;
    if are_within(&out[before..]) {
        Ok(())
    } else {
        Err(PathFault::OutOfRange)
    }
}

fn are_within(rects: &[Rect]) -> bool
    ensures { result ≡ list_all is_within rects.now }
{
    rects.iter().all(|rect| is_within(rect))
}

fn draw_all(points: &[Pt], stroke: &Stroke, out: &mut Vec<Rect>) -> Result<(), AllocError>
    requires points { All IsMeasuredPoint points.now }
    requires stroke { IsDrawable stroke.now }
    ensures rects { OnOk result (out.new.items ≡ out.old.items ++ all_drawn stroke.now points.now) }
    ensures kept { take (length out.old.items) out.new.items ≡ out.old.items }
{
    let [first, more @ ..] = points else {
        return Ok(());
    };
    let pen = Pen::start(*first, stroke.before_first());
    draw(pen, more, stroke, out)
}

// Adds the rectangles that are ahead of a pen.
fn draw(mut pen: Pen, points: &[Pt], stroke: &Stroke, out: &mut Vec<Rect>) -> Result<(), AllocError>
    requires pen { IsSteady pen }
    requires points { All IsMeasuredPoint points.now }
    requires stroke { IsDrawable stroke.now }
    ensures rects { OnOk result (out.new.items ≡ out.old.items ++ ahead stroke.now pen points.now) }
    ensures kept { take (length out.old.items) out.new.items ≡ out.old.items }
{
    for point in points {
        pen = step(&pen, *point, stroke, out)?;
    }
    push(pen.drawn_to(stroke, stroke.behind_last()), out)?;
    Ok(())
}

// The pen when it has gone there. Where it goes round a corner, the segment up to there is drawn.
fn step(pen: &Pen, to: Pt, stroke: &Stroke, out: &mut Vec<Rect>) -> Result<Pen, AllocError>
    requires pen { IsSteady pen.now }
    requires to { IsMeasuredPoint to }
    requires stroke { IsDrawable stroke.now }
    ensures steady { IfOk result IsSteady }
    ensures rects { IfOk result (λ now. (rest : List Pt)
        → out.new.items ++ ahead stroke.now now rest ≡ out.old.items ++ ahead stroke.now pen.now (to ∷ rest)) }
    ensures kept { (old : List Rect) → take (length old) out.old.items ≡ old → take (length old) out.new.items ≡ old }
{
    draw_corner(pen, to, stroke, out)?;
    Ok(pen.moved(to, stroke))
}

fn draw_corner(pen: &Pen, to: Pt, stroke: &Stroke, out: &mut Vec<Rect>) -> Result<(), AllocError>
    requires pen { IsSteady pen.now }
    requires stroke { IsDrawable stroke.now }
    ensures rects { OnOk result (out.new.items ≡ out.old.items ++ drawn stroke.now.half_width pen.now to) }
    ensures kept { (old : List Rect) → take (length old) out.old.items ≡ old → take (length old) out.new.items ≡ old }
{
    if pen.turns(to) {
        push(pen.drawn_to(stroke, stroke.beyond_corner()), out)
    } else {
        Ok(())
    }
}

#[tactic(auto, using(crate::proofs::Kept::kept_before))]
fn push(rect: Option<Rect>, out: &mut Vec<Rect>) -> Result<(), AllocError>
    ensures rects { OnOk result (out.new.items ≡ out.old.items ++ option_to_list rect) }
    ensures kept { (old : List Rect) → take (length old) out.old.items ≡ old → take (length old) out.new.items ≡ old }
{
    if let Some(rect) = rect {
        out.push(rect)?;
    }
    Ok(())
}
