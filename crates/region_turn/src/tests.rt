use crate::turn_over;
use interval_row::{Row, Span};
use region_form::{Builder, Flip};
use std::process::Abort;
use std::test::Fail;

fn flip(y: i64, x0: i64, x1: i64) -> Flip {
    Flip { y, x0, x1 }
}

// Two squares in row 0, and one on the first in row 1: the angle is its own, turned over.
#[test]
fn an_angle(rt: HostRuntime) -> Result<(), Fail> {
    let alloc = rt.alloc();
    let mut builder = Builder::new(alloc);
    builder.rise(0, Row::gather(alloc, &[Span { lo: 0, hi: 2 }])?)?;
    builder.rise(1, Row::gather(alloc, &[Span { lo: 0, hi: 1 }])?)?;
    builder.rise(2, Row::new(alloc))?;
    let turned = turn_over(alloc, &builder.finish())?;
    let expected = [flip(0, 0, 2), flip(1, 1, 2), flip(2, 0, 1)];
    assert_eq!(rt; turned.as_slice(), expected.as_slice());
    Ok(())
}

// A wide rectangle becomes a high one.
#[test]
fn a_rectangle(rt: HostRuntime) -> Result<(), Fail> {
    let alloc = rt.alloc();
    let mut builder = Builder::new(alloc);
    builder.rise(-1, Row::gather(alloc, &[Span { lo: 3, hi: 9 }])?)?;
    builder.rise(4, Row::new(alloc))?;
    let turned = turn_over(alloc, &builder.finish())?;
    let expected = [flip(3, -1, 4), flip(9, -1, 4)];
    assert_eq!(rt; turned.as_slice(), expected.as_slice());
    Ok(())
}
