//! What the records of a reference say.

ghost use Rattle.std.specs.Prelude.{◌≡◌, ◌<◌, ◌≤◌, ◌^◌, unsigned_abs, unwrap_or, IfSome};
ghost use Rattle.gds_placing.specs.Copies.{has_flag, whole_of, times_of, quarters_of, said_magnification, said_quarters, at_least_one, columns_of, rows_of, point_at, displacement, turns};
ghost use Rattle.gds_placing.specs.Places.{IsNear};
ghost use Rattle.std.specs.Option.{option_and_then};

use drc_geom::Pt;
use gds_library::{Instance, Point};
use gds_records::Real8;

/// The bit of STRANS that reflects, and the two that are refused.
pub(crate) const REFLECTION: u16 = 0x8000;

pub(crate) const ABSOLUTE: u16 = 0x0006;

const MOST_TIMES: i64 = 65_536;

const MOST_DEGREES: u64 = 36_000;

/// Whether some of these bits of STRANS are set.
pub(crate) fn has_flag(instance: &Instance, bits: u16) -> bool
    ensures { result ≡ has_flag bits instance.now }
{
    match instance.transform {
        Some(given) => given.value.cast_unsigned() & bits != 0,
        None => false,
    }
}

/// What MAG says, where it is allowed.
pub(crate) fn magnification(instance: &Instance) -> Option<u32>
    ensures said { result ≡ said_magnification instance.now }
    ensures allowed { IfSome result (λ times. (1 ≤ times) × (times ≤ 65536)) }
{
    match instance.magnification {
        Some(given) => times_of(given.value),
        None => Some(1),
    }
}

fn times_of(real: Real8) -> Option<u32>
    ensures said { result ≡ option_and_then times_of (whole_of real) }
    ensures allowed { IfSome result (λ times. (1 ≤ times) × (times ≤ 65536)) }
{
    match real.whole() {
        Some(whole) => times(whole),
        None => None,
    }
}

fn times(whole: i64) -> Option<u32>
    ensures said { result ≡ times_of whole }
    ensures allowed { IfSome result (λ times. (1 ≤ times) × (times ≤ 65536)) }
{
    if 1 <= whole && whole <= MOST_TIMES {
        Some(whole as u32)
    } else {
        None
    }
}

/// How many quarters ANGLE says, counterclockwise, where it is allowed.
pub(crate) fn quarters(instance: &Instance) -> Option<u8>
    ensures said { result ≡ said_quarters instance.now }
    ensures allowed { IfSome result (λ quarters. quarters < 4) }
{
    match instance.angle {
        Some(given) => quarters_of(given.value),
        None => Some(0),
    }
}

fn quarters_of(real: Real8) -> Option<u8>
    ensures said { result ≡ option_and_then quarters_of (whole_of real) }
    ensures allowed { IfSome result (λ quarters. quarters < 4) }
{
    let degrees = real.whole()?;
    let size = degrees.unsigned_abs();
    if size % 90 == 0 && size <= MOST_DEGREES {
        Some(turns(degrees))
    } else {
        None
    }
}

fn turns(degrees: i64) -> u8
    requires { unsigned_abs degrees ≤ 2 ^ 40 }
    ensures said { result ≡ turns degrees }
    ensures allowed { result < 4 }
{
    let quarters = degrees.unsigned_abs() / 90;
    if degrees < 0 {
        (3 * quarters % 4) as u8
    } else {
        (quarters % 4) as u8
    }
}

/// The magnification of a reference: 1 where MAG is left out, or isn't allowed.
pub(crate) fn magnification_of(instance: &Instance) -> u32
    ensures said { result ≡ unwrap_or (said_magnification instance.now) 1 }
    ensures allowed { (1 ≤ result) × (result ≤ 65536) }
{
    magnification(instance).unwrap_or(1)
}

/// The quarters of a reference: 0 where ANGLE is left out, or isn't allowed.
pub(crate) fn quarter_of(instance: &Instance) -> u8
    ensures said { result ≡ unwrap_or (said_quarters instance.now) 0 }
    ensures allowed { result < 4 }
{
    quarters(instance).unwrap_or(0)
}

/// How many columns COLROW says.
pub(crate) fn columns(instance: &Instance) -> u32
    ensures said { result ≡ columns_of instance.now }
    ensures some { (1 ≤ result) × (result < 2 ^ 15) }
{
    match instance.counts {
        Some(given) => at_least_one(given.value.columns),
        None => 1,
    }
}

/// How many rows COLROW says.
pub(crate) fn rows(instance: &Instance) -> u32
    ensures said { result ≡ rows_of instance.now }
    ensures some { (1 ≤ result) × (result < 2 ^ 15) }
{
    match instance.counts {
        Some(given) => at_least_one(given.value.rows),
        None => 1,
    }
}

fn at_least_one(count: i16) -> u32
    ensures said { result ≡ at_least_one count }
    ensures some { (1 ≤ result) × (result < 2 ^ 15) }
{
    if count < 1 { 1 } else { count as u32 }
}

/// The point at an index of XY, (0, 0) where there is none.
pub(crate) fn point_at(points: &[Point], index: usize) -> Pt
    ensures said { result ≡ point_at points.now index }
    ensures near { IsNear (2 ^ 31) result }
{
    match points.get(index) {
        Some(point) => Pt {
            x: i64::from(point.x),
            y: i64::from(point.y),
        },
        None => Pt { x: 0, y: 0 },
    }
}

/// How far the point at an index of XY is from the origin.
pub(crate) fn displacement(points: &[Point], index: usize) -> Pt
    ensures said { result ≡ displacement points.now index }
    ensures near { IsNear (2 ^ 32) result }
{
    let point = point_at(points, index);
    let origin = point_at(points, 0);
    Pt {
        x: point.x - origin.x,
        y: point.y - origin.y,
    }
}
