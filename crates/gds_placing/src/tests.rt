//! References as rows: what they say, and where their copies are drawn.

ghost use Rattle.std.specs.Prelude.{IfSome};
ghost use Rattle.drc_geom.specs.Turns.{IsPlaced};
ghost use Rattle.gds_placing.specs.Places.{MayStand};

use crate::{Placement, copies_in};
use drc_geom::{Name, Pt};
use gds_library::{Counts, Given, Instance, Point};
use gds_records::{LayoutKind, LayoutRefusal, Real8};
use std::alloc::Global;
use std::test::Fail;

const HALF: [u8; 8] = [0x40, 0x80, 0, 0, 0, 0, 0, 0];

const TWO: [u8; 8] = [0x41, 0x20, 0, 0, 0, 0, 0, 0];

const THREE: [u8; 8] = [0x41, 0x30, 0, 0, 0, 0, 0, 0];

const QUARTER: [u8; 8] = [0x42, 0x5A, 0, 0, 0, 0, 0, 0];

const BACK: [u8; 8] = [0xC2, 0x5A, 0, 0, 0, 0, 0, 0];

const MOST: [u8; 8] = [0x45, 0x10, 0, 0, 0, 0, 0, 0];

// A reference with an offset for each of its records: 1 for STRANS, 2 for MAG, 3 for ANGLE, 4 for COLROW, 5 for XY.
fn reference(
    alloc: Global,
    transform: Option<i16>,
    magnification: Option<[u8; 8]>,
    angle: Option<[u8; 8]>,
    counts: Option<(i16, i16)>,
) -> Result<Instance, Fail> {
    Ok(Instance {
        at: 0,
        name: Name::new(alloc, b"CELL")?,
        name_at: 0,
        transform: given(1, transform),
        magnification: real(2, magnification),
        angle: real(3, angle),
        counts: counts_of(counts),
        points_at: 5,
    })
}

fn given(at: u64, value: Option<i16>) -> Option<Given<i16>> {
    let value = value?;
    Some(Given { at, value })
}

fn real(at: u64, bytes: Option<[u8; 8]>) -> Option<Given<Real8>> {
    let bytes = bytes?;
    Some(Given {
        at,
        value: Real8 { bytes },
    })
}

fn counts_of(counts: Option<(i16, i16)>) -> Option<Given<Counts>> {
    let (columns, rows) = counts?;
    Some(Given {
        at: 4,
        value: Counts { columns, rows },
    })
}

fn point(x: i32, y: i32) -> Point {
    Point { x, y }
}

// Where a copy is drawn; None where the reference is refused or has no such copy.
fn copy_of(
    outer: &Placement,
    instance: &Instance,
    points: &[Point],
    column: u32,
    row: u32,
) -> Option<Placement>
    requires { MayStand outer.now }
    ensures { IfSome result MayStand }
{
    let Ok(copies) = copies_in(outer, instance, points) else {
        return None;
    };
    if column < copies.columns && row < copies.rows {
        Some(copies.place(outer, column, row))
    } else {
        None
    }
}

// Where a point is drawn, which is near enough.
fn drawn(place: Option<Placement>, x: i32, y: i32) -> Option<(i64, i64)>
    requires { IfSome place MayStand }
{
    let p = place?.apply(Pt {
        x: i64::from(x),
        y: i64::from(y),
    });
    Some((p.x, p.y))
}

fn refusal_of(instance: &Instance, points: &[Point]) -> Option<LayoutRefusal> {
    copies_in(&Placement::unmoved(), instance, points).err()
}

#[test]
fn a_reference_reflects_and_then_turns(rt: HostRuntime) -> Result<(), Fail> {
    let instance = reference(rt.alloc(), Some(-0x8000), None, Some(QUARTER), None)?;
    let place = copy_of(&Placement::unmoved(), &instance, &[point(100, 0)], 0, 0);
    let table = [
        (0, 0, 100, 0),
        (20, 0, 100, 20),
        (20, 10, 110, 20),
        (10, 10, 110, 10),
        (10, 30, 130, 10),
        (0, 30, 130, 0),
    ];
    for (x, y, drawn_x, drawn_y) in table {
        assert_eq!(rt; drawn(place, x, y), Some((drawn_x, drawn_y)), "({x}, {y})");
    }
    Ok(())
}

#[test]
fn columns_stand_inside_rows(rt: HostRuntime) -> Result<(), Fail> {
    let alloc = rt.alloc();
    let top = Placement::unmoved();
    let row = reference(alloc, None, None, None, Some((2, 1)))?;
    let xy = [point(100, 0), point(160, 0), point(100, 40)];
    assert_eq!(rt; drawn(copy_of(&top, &row, &xy, 0, 0), 0, 0), Some((100, 0)));
    assert_eq!(rt; drawn(copy_of(&top, &row, &xy, 1, 0), 0, 0), Some((130, 0)));
    assert_eq!(rt; copy_of(&top, &row, &xy, 0, 1), None);
    // its own turn and magnification don't act on the pitches of an array
    let turned = reference(alloc, Some(0), Some(THREE), Some(BACK), Some((3, 2)))?;
    let xy = [point(5, 5), point(65, 5), point(5, -15)];
    assert_eq!(rt;
        drawn(copy_of(&top, &turned, &xy, 2, 1), 0, 0),
        Some((45, -5))
    );
    assert_eq!(rt;
        drawn(copy_of(&top, &turned, &xy, 2, 1), 1, 0),
        Some((45, -8))
    );
    Ok(())
}

#[test]
fn one_reference_in_another(rt: HostRuntime) -> Result<(), Fail> {
    let alloc = rt.alloc();
    let outer = reference(alloc, Some(-0x8000), Some(TWO), Some(QUARTER), None)?;
    let inner = reference(alloc, Some(-0x8000), Some(THREE), Some(BACK), Some((2, 1)))?;
    let xy = [point(10, 20), point(14, 20), point(10, 20)];
    let Some(place) = copy_of(&Placement::unmoved(), &outer, &[point(1000, 0)], 0, 0) else {
        return Err("refused".into());
    };
    // the copy of column 1 has its origin at (12, 20), which is drawn at (1000 + 2 * 20, 2 * 12)
    let copy = copy_of(&place, &inner, &xy, 1, 0);
    assert_eq!(rt; drawn(copy, 0, 0), Some((1040, 24)));
    // (1, 2) goes by (1, -2) and (3, -6) to (-6, -3), and then by (-6, 3) and (-12, 6) to (-6, -12)
    assert_eq!(rt; drawn(copy, 1, 2), Some((1034, 12)));
    Ok(())
}

#[test]
fn facts_of_references(rt: HostRuntime) -> Result<(), Fail> {
    let alloc = rt.alloc();
    let sref = [point(0, 0)];
    let aref = [point(0, 0), point(100, 0), point(0, 40)];
    let good = reference(
        alloc,
        Some(1),
        Some(MOST),
        Some([0x80, 0, 0, 0, 0, 0, 0, 0]),
        None,
    )?;
    assert_eq!(rt; refusal_of(&good, &sref), None);
    let flag = reference(alloc, Some(4), Some(HALF), None, None)?;
    assert_eq!(rt;
        refusal_of(&flag, &sref),
        refused(1, LayoutKind::AbsoluteFlag)
    );
    let half = reference(alloc, Some(0), Some(HALF), Some(HALF), None)?;
    assert_eq!(rt;
        refusal_of(&half, &sref),
        refused(2, LayoutKind::Magnification)
    );
    let angle = reference(alloc, Some(0), None, Some(TWO), Some((3, 2)))?;
    assert_eq!(rt;
        refusal_of(&angle, &aref),
        refused(3, LayoutKind::AngleNotRight)
    );
    let pitch = reference(alloc, None, None, None, Some((3, 2)))?;
    assert_eq!(rt;
        refusal_of(&pitch, &aref),
        refused(5, LayoutKind::ArrayPitch)
    );
    let range = [
        point(1, 1 << 30),
        point(1, 1 << 30),
        point(1, (1 << 30) + 8),
    ];
    let near = reference(alloc, None, None, None, Some((1, 1)))?;
    assert_eq!(rt; refusal_of(&near, &range), None);
    let far = reference(alloc, None, None, None, Some((1, 2)))?;
    assert_eq!(rt;
        refusal_of(&far, &range),
        refused(5, LayoutKind::CoordinateRange)
    );
    Ok(())
}

fn refused(at: u64, kind: LayoutKind) -> Option<LayoutRefusal> {
    Some(LayoutRefusal { at, kind })
}
