use super::*;
use drc_geom::Pt;
use std::alloc::{AllocError, Global};
use std::process::Abort;
use std::test::Fail;

type Outline = &'static [(i64, i64)];

fn points_of(alloc: Global, outline: Outline) -> Result<Vec<Pt>, AllocError> {
    let mut points = Vec::new(alloc);
    for (x, y) in outline {
        points.push(Pt { x: *x, y: *y })?;
    }
    Ok(points)
}

// The squares of three rows from the highest down, five columns each, are covered where a # stands.
fn check(
    rt: &impl Abort,
    alloc: Global,
    outline: Outline,
    wanted: Option<&'static [u8; 15]>,
) -> Result<(), AllocError> {
    let points = points_of(alloc, outline)?;
    if !is_closed(&points) || !is_right_angled(&points) {
        assert!(rt; wanted.is_none(), "{outline:?}");
        return Ok(());
    }
    let region = wound_region(alloc, &points)?;
    let Some(wanted) = wanted else {
        panic!(rt; "{outline:?} is an outline");
    };
    for (place, square) in wanted.iter().enumerate() {
        let x = (place % 5) as i64;
        let y = 2 - (place / 5) as i64;
        assert!(rt;
            region.covers(x, y) == (*square == b'#'),
            "{outline:?} {x} {y}"
        );
    }
    Ok(())
}

#[test]
fn outlines(rt: HostRuntime) -> Result<(), Fail> {
    let rows: [(Outline, Option<&'static [u8; 15]>); 8] = [
        // A rectangle, and the other way round.
        (
            &[(1, 0), (3, 0), (3, 2), (1, 2), (1, 0)],
            Some(b"......##...##.."),
        ),
        (
            &[(1, 0), (1, 2), (3, 2), (3, 0), (1, 0)],
            Some(b"......##...##.."),
        ),
        // The middle is wound round twice.
        (
            &[
                (0, 0),
                (4, 0),
                (4, 2),
                (1, 2),
                (1, 1),
                (3, 1),
                (3, 3),
                (0, 3),
                (0, 0),
            ],
            Some(b"###..####.####."),
        ),
        // The middle is wound round once either way, so not at all.
        (
            &[
                (0, 0),
                (3, 0),
                (3, 2),
                (0, 2),
                (0, 0),
                (2, 0),
                (2, 3),
                (5, 3),
                (5, 1),
                (0, 1),
                (0, 0),
            ],
            Some(b"..#####.#####.."),
        ),
        // No area.
        (
            &[(0, 0), (4, 0), (4, 2), (4, 0), (0, 0)],
            Some(b"..............."),
        ),
        (&[(2, 1)], Some(b"...............")),
        // Not closed, and askew.
        (&[(0, 0), (4, 0), (4, 2)], None),
        (&[(0, 0), (4, 0), (2, 2), (0, 0)], None),
    ];
    for (outline, wanted) in rows {
        check(&rt, rt.alloc(), outline, wanted)?;
    }
    Ok(())
}
