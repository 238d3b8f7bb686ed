//! The copies of a reference.

ghost use Rattle.std.specs.Prelude.{◌≡◌, ◌<◌, ◌≤◌, ◌^◌, ◌+ℤ◌, ◌*ℤ◌, int_div, pos, unsigned_abs, unwrap_or};
ghost use Rattle.drc_geom.specs.Turns.{IsCoordinate, IsPlaced};
ghost use Rattle.gds_placing.specs.Places.{IsNear, MayStand, magnified, then_of};
ghost use Rattle.gds_placing.specs.Copies.{AreNear, MayBeDrawn, copies_of, divided, has_flag, origin_of, reflection, said_quarters, step_of};

use crate::Placement;
use crate::said::{
    REFLECTION, columns, displacement, has_flag, magnification_of, point_at, quarter_of, rows,
};
use drc_geom::{Pt, Turn};
use gds_library::{Instance, Point};

/// The copies of a reference: how all of them are reflected, magnified and turned, how many columns and rows of them
/// there are, where the first has its origin, and how far it is from there to the next column and to the next row.
/// A reference that is no array has one column and one row.
#[derive(Clone, Copy, Debug, PartialEq, Eq)]
pub struct Copies {
    pub turn: Turn,
    pub magnification: u32,
    pub origin: Pt,
    pub columns: u32,
    pub rows: u32,
    pub column_pitch: Pt,
    pub row_pitch: Pt,
}

impl Copies {
    /// Where a copy is drawn, where the reference stands in a structure that is drawn at the outer place.
    pub fn place(&self, outer: &Placement, column: u32, row: u32) -> Placement
        requires outer { MayStand outer.now }
        requires copies { MayBeDrawn outer.now self.now }
        requires column { column < self.now.columns }
        requires row { row < self.now.rows }
        ensures value { result ≡ then_of (step_of self.now column row) outer.now }
        ensures allowed { MayStand result }
    {
        let origin = self.origin_at(column, row);
        let step = Placement {
            turn: self.turn,
            magnification: self.magnification,
            origin,
        };
        step.then(outer)
    }

    /// Where the origin of a copy is in the structure in which the reference stands.
    pub(crate) fn origin_at(&self, column: u32, row: u32) -> Pt
        requires near { AreNear self.now }
        requires column { column ≤ self.now.columns }
        requires row { row ≤ self.now.rows }
        ensures value { result ≡ origin_of self.now column row }
        ensures placed { IsPlaced result }
    {
        let across = multiple(self.column_pitch, column, self.columns);
        let up = multiple(self.row_pitch, row, self.rows);
        Pt {
            x: sum(self.origin.x, across.x, up.x),
            y: sum(self.origin.y, across.y, up.y),
        }
    }
}

fn sum(origin: i64, across: i64, up: i64) -> i64
    requires origin { unsigned_abs origin ≤ 2 ^ 31 }
    requires across { unsigned_abs across ≤ 2 ^ 32 }
    requires up { unsigned_abs up ≤ 2 ^ 32 }
    ensures value { result ≡ origin +ℤ (across +ℤ up) }
    ensures placed { IsCoordinate result }
{
    origin + (across + up)
}

// So many pitches, where the greatest number of them is near.
fn multiple(pitch: Pt, times: u32, most: u32) -> Pt
    requires few { times ≤ most }
    requires near { IsNear (2 ^ 32) (magnified most pitch) }
    ensures value { result ≡ magnified times pitch }
    ensures near { IsNear (2 ^ 32) result }
{
    Pt {
        x: product(times, pitch.x, most),
        y: product(times, pitch.y, most),
    }
}

fn product(times: u32, z: i64, most: u32) -> i64
    requires few { times ≤ most }
    requires near { unsigned_abs (pos most *ℤ z) ≤ 2 ^ 32 }
    ensures value { result ≡ pos times *ℤ z }
    ensures near { unsigned_abs result ≤ 2 ^ 32 }
{
    i64::from(times) * z
}

/// What a reference says of its copies.
pub(crate) fn copies_of(instance: &Instance, points: &[Point]) -> Copies
    ensures value { result ≡ copies_of instance.now points.now }
    ensures near { AreNear result }
    ensures turned { result.turn.quarter < 4 }
    ensures drawn { 1 ≤ result.magnification }
    ensures some { (1 ≤ result.columns) × (1 ≤ result.rows) }
{
    let columns = columns(instance);
    let rows = rows(instance);
    let across = displacement(points, 1);
    let up = displacement(points, 2);
    let turn = turn_of(instance);
    let magnification = magnification_of(instance);
    let origin = point_at(points, 0);
    let column_pitch = divided(across, columns);
    let row_pitch = divided(up, rows);
    Copies {
        turn,
        magnification,
        origin,
        columns,
        rows,
        column_pitch,
        row_pitch,
    }
}

fn turn_of(instance: &Instance) -> Turn
    ensures value { result ≡ record {
      mirror = has_flag reflection instance.now;
      quarter = unwrap_or (said_quarters instance.now) 0;
    } }
    ensures turned { result.quarter < 4 }
{
    let mirror = has_flag(instance, REFLECTION);
    let quarter = quarter_of(instance);
    Turn { mirror, quarter }
}

// The part of a displacement that goes so many times into it.
fn divided(p: Pt, by: u32) -> Pt
    requires some { 1 ≤ by }
    requires near { IsNear (2 ^ 32) p }
    ensures value { result ≡ divided p by }
    ensures near { IsNear (2 ^ 32) (magnified by result) }
{
    Pt {
        x: quotient(p.x, by),
        y: quotient(p.y, by),
    }
}

fn quotient(z: i64, by: u32) -> i64
    requires some { 1 ≤ by }
    requires near { unsigned_abs z ≤ 2 ^ 32 }
    ensures value { result ≡ int_div z (pos by) }
    ensures near { unsigned_abs (pos by *ℤ result) ≤ 2 ^ 32 }
{
    z / i64::from(by)
}
