use crate::{and, not, or, xor};
use interval_row::{Row, Span};
use region_form::{Builder, Region};
use std::alloc::{AllocError, Global};
use std::process::Abort;
use std::test::Fail;

/// The four calls.
#[derive(Clone, Copy)]
enum Boolean {
    And,
    Or,
    Not,
    Xor,
}

/// Two rectangles by x0, y0, x1 and y1, and the flips that are wanted of them, by y, x0 and x1.
type Case<'a> = ([i64; 4], [i64; 4], &'a [[i64; 3]]);

// The rows y0 to y1 - 1, which have the places of a span.
fn bar(alloc: Global, span: Span, y0: i64, y1: i64) -> Result<Region, AllocError> {
    if y0 >= y1 {
        return Ok(Region::new(alloc));
    }
    let mut builder = Builder::new(alloc);
    builder.rise(y0, Row::gather(alloc, &[span])?)?;
    builder.rise(y1, Row::new(alloc))?;
    Ok(builder.finish())
}

fn rectangle(alloc: Global, sides: [i64; 4]) -> Result<Region, AllocError> {
    let [x0, y0, x1, y1] = sides;
    bar(alloc, Span { lo: x0, hi: x1 }, y0, y1)
}

fn call(boolean: Boolean, first: &Region, second: &Region) -> Result<Region, AllocError> {
    match boolean {
        Boolean::And => and(first, second),
        Boolean::Or => or(first, second),
        Boolean::Not => not(first, second),
        Boolean::Xor => xor(first, second),
    }
}

fn compare(rt: &impl Abort, region: &Region, want: &[[i64; 3]]) {
    assert_eq!(rt; region.flips().len(), want.len());
    for (flip, want) in region.flips().iter().zip(want) {
        assert_eq!(rt; [flip.y, flip.x0, flip.x1], *want);
    }
}

fn check(rt: &impl Abort, alloc: Global, boolean: Boolean, case: Case) -> Result<(), AllocError> {
    let first = rectangle(alloc, case.0)?;
    let second = rectangle(alloc, case.1)?;
    let region = call(boolean, &first, &second)?;
    compare(rt, &region, case.2);
    Ok(())
}

// The cases of each test: two that overlap, equal ones, two apart, two that touch at a corner, one inside the other, and
// a bar across a post.

#[test]
fn squares_of_both(rt: HostRuntime) -> Result<(), Fail> {
    let cases: [Case; 6] = [
        ([0, 0, 4, 4], [2, 2, 6, 6], &[[2, 2, 4], [4, 2, 4]]),
        ([0, 0, 4, 4], [0, 0, 4, 4], &[[0, 0, 4], [4, 0, 4]]),
        ([0, 0, 2, 2], [4, 1, 6, 3], &[]),
        ([0, 0, 2, 2], [2, 2, 4, 4], &[]),
        ([0, 0, 6, 6], [2, 2, 4, 4], &[[2, 2, 4], [4, 2, 4]]),
        ([0, 0, 6, 2], [2, -2, 4, 2], &[[0, 2, 4], [2, 2, 4]]),
    ];
    for case in cases {
        check(&rt, rt.alloc(), Boolean::And, case)?;
    }
    Ok(())
}

#[test]
fn squares_of_either(rt: HostRuntime) -> Result<(), Fail> {
    let cases: [Case; 6] = [
        (
            [0, 0, 4, 4],
            [2, 2, 6, 6],
            &[[0, 0, 4], [2, 4, 6], [4, 0, 2], [6, 2, 6]],
        ),
        ([0, 0, 4, 4], [0, 0, 4, 4], &[[0, 0, 4], [4, 0, 4]]),
        (
            [0, 0, 2, 2],
            [4, 1, 6, 3],
            &[[0, 0, 2], [1, 4, 6], [2, 0, 2], [3, 4, 6]],
        ),
        (
            [0, 0, 2, 2],
            [2, 2, 4, 4],
            &[[0, 0, 2], [2, 0, 4], [4, 2, 4]],
        ),
        ([0, 0, 6, 6], [2, 2, 4, 4], &[[0, 0, 6], [6, 0, 6]]),
        (
            [0, 0, 6, 2],
            [2, -2, 4, 2],
            &[[-2, 2, 4], [0, 0, 2], [0, 4, 6], [2, 0, 6]],
        ),
    ];
    for case in cases {
        check(&rt, rt.alloc(), Boolean::Or, case)?;
    }
    Ok(())
}

#[test]
fn squares_of_the_first_alone(rt: HostRuntime) -> Result<(), Fail> {
    let cases: [Case; 6] = [
        (
            [0, 0, 4, 4],
            [2, 2, 6, 6],
            &[[0, 0, 4], [2, 2, 4], [4, 0, 2]],
        ),
        ([0, 0, 4, 4], [0, 0, 4, 4], &[]),
        ([0, 0, 2, 2], [4, 1, 6, 3], &[[0, 0, 2], [2, 0, 2]]),
        ([0, 0, 2, 2], [2, 2, 4, 4], &[[0, 0, 2], [2, 0, 2]]),
        (
            [0, 0, 6, 6],
            [2, 2, 4, 4],
            &[[0, 0, 6], [2, 2, 4], [4, 2, 4], [6, 0, 6]],
        ),
        (
            [0, 0, 6, 2],
            [2, -2, 4, 2],
            &[[0, 0, 2], [0, 4, 6], [2, 0, 2], [2, 4, 6]],
        ),
    ];
    for case in cases {
        check(&rt, rt.alloc(), Boolean::Not, case)?;
    }
    Ok(())
}

#[test]
fn squares_of_one_alone(rt: HostRuntime) -> Result<(), Fail> {
    let cases: [Case; 6] = [
        (
            [0, 0, 4, 4],
            [2, 2, 6, 6],
            &[[0, 0, 4], [2, 2, 6], [4, 0, 4], [6, 2, 6]],
        ),
        ([0, 0, 4, 4], [0, 0, 4, 4], &[]),
        (
            [0, 0, 2, 2],
            [4, 1, 6, 3],
            &[[0, 0, 2], [1, 4, 6], [2, 0, 2], [3, 4, 6]],
        ),
        (
            [0, 0, 2, 2],
            [2, 2, 4, 4],
            &[[0, 0, 2], [2, 0, 4], [4, 2, 4]],
        ),
        (
            [0, 0, 6, 6],
            [2, 2, 4, 4],
            &[[0, 0, 6], [2, 2, 4], [4, 2, 4], [6, 0, 6]],
        ),
        (
            [0, 0, 6, 2],
            [2, -2, 4, 2],
            &[[-2, 2, 4], [0, 0, 6], [2, 0, 2], [2, 4, 6]],
        ),
    ];
    for case in cases {
        check(&rt, rt.alloc(), Boolean::Xor, case)?;
    }
    Ok(())
}
