//! For which fact of its own a reference is refused.

ghost use Rattle.std.specs.Prelude.{◌≡◌, ◌*◌, ◌≤◌, ◌&&◌, ◌++◌, [], not, false, IfOk, IfErr, OnOk, Some, nat_le, slice_get};
ghost use Rattle.std.specs.Option.{option_map_or, option_to_list};
ghost use Rattle.gds_placing.specs.Places.{MayStand, is_reached, place_of};
ghost use Rattle.gds_placing.specs.Copies.{AreNear, MayBeDrawn, copies_of, origin_of, said_magnification};
ghost use Rattle.gds_placing.specs.Facts.{angle_facts, are_multiples, are_reached, fact_if, facts_of, flag_facts, is_multiple, magnification_facts, pitch_facts};

use crate::copies::copies_of;
use crate::said::{ABSOLUTE, columns, displacement, has_flag, magnification, quarters, rows};
use crate::{Copies, Placement};
use drc_geom::Pt;
use gds_library::{Instance, Point};
use gds_records::{LayoutKind, LayoutRefusal};

/// The greatest magnification of what is drawn, and how far from (0, 0) it may be.
const MOST_TIMES: u64 = 65_536;

const REACH: u64 = 1 << 30;

/// The copies of a reference, where it stands in a structure that is drawn at the outer place: or the first fact of its
/// own for which it is refused. Its points are those of its XY.
pub fn copies_in(
    outer: &Placement,
    instance: &Instance,
    points: &[Point],
) -> Result<Copies, LayoutRefusal>
    requires { MayStand outer.now }
    ensures copies { IfOk result (λ copies. copies ≡ copies_of instance.now points.now) }
    ensures fine { OnOk result (facts_of outer.now instance.now points.now ≡ []) }
    ensures allowed { IfOk result (λ copies. MayBeDrawn outer.now copies) }
    ensures refused { IfErr result (λ refusal.
        slice_get (facts_of outer.now instance.now points.now) 0 ≡ Some refusal) }
{
    let copies = copies_of(instance, points);
    match fact_of(outer, instance, points, &copies) {
        Some(refusal) => Err(refusal),
        None => Ok(copies),
    }
}

// The first fact of a reference that has these copies.
fn fact_of(
    outer: &Placement,
    instance: &Instance,
    points: &[Point],
    copies: &Copies,
) -> Option<LayoutRefusal>
    requires outer { MayStand outer.now }
    requires copies { copies.now ≡ copies_of instance.now points.now }
    requires near { AreNear copies.now }
    requires some { (1 ≤ copies.now.columns) × (1 ≤ copies.now.rows) }
    ensures { result ≡ slice_get (facts_of outer.now instance.now points.now) 0 }
{
    let range = range_fact(outer, copies, instance.points_at);
    let pitch = first_of(pitch_fact(instance, points), range);
    let angle = first_of(angle_fact(instance), pitch);
    let magnification = first_of(magnification_fact(outer, instance), angle);
    first_of(flag_fact(instance), magnification)
}

fn first_of(first: Option<LayoutRefusal>, rest: Option<LayoutRefusal>) -> Option<LayoutRefusal>
    ensures { result ≡ slice_get (option_to_list first ++ option_to_list rest) 0 }
{
    match first {
        Some(refusal) => Some(refusal),
        None => rest,
    }
}

fn fact_if(holds: bool, at: u64, kind: LayoutKind) -> Option<LayoutRefusal>
    ensures { option_to_list result ≡ fact_if holds at kind }
{
    if holds {
        Some(LayoutRefusal { at, kind })
    } else {
        None
    }
}

fn flag_fact(instance: &Instance) -> Option<LayoutRefusal>
    ensures { option_to_list result ≡ flag_facts instance.now }
{
    match instance.transform {
        Some(given) => fact_if(
            has_flag(instance, ABSOLUTE),
            given.at,
            LayoutKind::AbsoluteFlag,
        ),
        None => None,
    }
}

fn magnification_fact(outer: &Placement, instance: &Instance) -> Option<LayoutRefusal>
    requires { outer.now.magnification ≤ 65536 }
    ensures { option_to_list result ≡ magnification_facts outer.now instance.now }
{
    match instance.magnification {
        Some(given) => fact_if(
            !is_magnified(outer, instance),
            given.at,
            LayoutKind::Magnification,
        ),
        None => None,
    }
}

// Whether MAG says a magnification that is allowed here.
fn is_magnified(outer: &Placement, instance: &Instance) -> bool
    requires { outer.now.magnification ≤ 65536 }
    ensures { result ≡ option_map_or (λ times. nat_le (times * outer.now.magnification) 65536)
        (said_magnification instance.now) false }
{
    match magnification(instance) {
        Some(times) => u64::from(times) * u64::from(outer.magnification) <= MOST_TIMES,
        None => false,
    }
}

fn angle_fact(instance: &Instance) -> Option<LayoutRefusal>
    ensures { option_to_list result ≡ angle_facts instance.now }
{
    match instance.angle {
        Some(given) => fact_if(
            quarters(instance).is_none(),
            given.at,
            LayoutKind::AngleNotRight,
        ),
        None => None,
    }
}

fn pitch_fact(instance: &Instance, points: &[Point]) -> Option<LayoutRefusal>
    ensures { option_to_list result ≡ pitch_facts instance.now points.now }
{
    match instance.counts {
        Some(_) => fact_if(
            !are_multiples(instance, points),
            instance.points_at,
            LayoutKind::ArrayPitch,
        ),
        None => None,
    }
}

fn are_multiples(instance: &Instance, points: &[Point]) -> bool
    ensures { result ≡ are_multiples instance.now points.now }
{
    is_multiple(displacement(points, 1), columns(instance))
        && is_multiple(displacement(points, 2), rows(instance))
}

fn is_multiple(p: Pt, of: u32) -> bool
    requires { 1 ≤ of }
    ensures { result ≡ is_multiple p of }
{
    p.x.unsigned_abs() % u64::from(of) == 0 && p.y.unsigned_abs() % u64::from(of) == 0
}

fn range_fact(outer: &Placement, copies: &Copies, at: u64) -> Option<LayoutRefusal>
    requires outer { MayStand outer.now }
    requires near { AreNear copies.now }
    requires some { (1 ≤ copies.now.columns) × (1 ≤ copies.now.rows) }
    ensures { option_to_list result ≡ fact_if (not (are_reached outer.now copies.now)) at LayoutKind.CoordinateRange }
{
    let reached = are_corners_reached(outer, copies);
    fact_if(!reached, at, LayoutKind::CoordinateRange)
}

// All copies are drawn within reach where those at the four corners of the array are.
fn are_corners_reached(outer: &Placement, copies: &Copies) -> bool
    requires outer { MayStand outer.now }
    requires near { AreNear copies.now }
    requires some { (1 ≤ copies.now.columns) × (1 ≤ copies.now.rows) }
    ensures { result ≡ are_reached outer.now copies.now }
{
    let last_column = copies.columns - 1;
    let last_row = copies.rows - 1;
    let first = is_origin_reached(outer, copies, 0, 0);
    let second = is_origin_reached(outer, copies, last_column, 0);
    let third = is_origin_reached(outer, copies, 0, last_row);
    let fourth = is_origin_reached(outer, copies, last_column, last_row);
    all_of(first, second, third, fourth)
}

fn all_of(first: bool, second: bool, third: bool, fourth: bool) -> bool
    ensures { result ≡ (first && (second && (third && fourth))) }
{
    first && second && third && fourth
}

fn is_origin_reached(outer: &Placement, copies: &Copies, column: u32, row: u32) -> bool
    requires outer { MayStand outer.now }
    requires near { AreNear copies.now }
    requires column { column ≤ copies.now.columns }
    requires row { row ≤ copies.now.rows }
    ensures { result ≡ is_reached (place_of outer.now (origin_of copies.now column row)) }
{
    is_reached(outer.apply(copies.origin_at(column, row)))
}

fn is_reached(p: Pt) -> bool
    ensures { result ≡ is_reached p }
{
    p.x.unsigned_abs() <= REACH && p.y.unsigned_abs() <= REACH
}
