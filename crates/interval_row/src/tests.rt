use crate::{Row, Span};
use std::alloc::{AllocError, Global};
use std::process::Abort;
use std::test::Fail;

fn span(lo: i64, hi: i64) -> Span {
    Span { lo, hi }
}

/// Two rows, and what the four operations keep of them.
#[derive(Clone, Copy)]
struct Pair<'a> {
    first: &'a [Span],
    second: &'a [Span],
    and: &'a [Span],
    or: &'a [Span],
    not: &'a [Span],
    xor: &'a [Span],
}

fn check(rt: &impl Abort, alloc: Global, pair: Pair) -> Result<(), AllocError> {
    let first = Row::gather(alloc, pair.first)?;
    let second = Row::gather(alloc, pair.second)?;
    assert_eq!(rt; first.list(), pair.first);
    assert_eq!(rt; second.list(), pair.second);
    let both = first.and(&second)?;
    assert_eq!(rt; both.list(), pair.and);
    let either = first.or(&second)?;
    assert_eq!(rt; either.list(), pair.or);
    let first_alone = first.not(&second)?;
    assert_eq!(rt; first_alone.list(), pair.not);
    let one_alone = first.xor(&second)?;
    assert_eq!(rt; one_alone.list(), pair.xor);
    Ok(())
}

#[test]
fn pairs_of_rows(rt: HostRuntime) -> Result<(), Fail> {
    let touching = Pair {
        first: &[span(0, 3)],
        second: &[span(3, 5)],
        and: &[],
        or: &[span(0, 5)],
        not: &[span(0, 3)],
        xor: &[span(0, 5)],
    };
    check(&rt, rt.alloc(), touching)?;
    let equal = Pair {
        first: &[span(1, 4), span(6, 9)],
        second: &[span(1, 4), span(6, 9)],
        and: &[span(1, 4), span(6, 9)],
        or: &[span(1, 4), span(6, 9)],
        not: &[],
        xor: &[],
    };
    check(&rt, rt.alloc(), equal)?;
    let one_inside = Pair {
        first: &[span(0, 10)],
        second: &[span(2, 4)],
        and: &[span(2, 4)],
        or: &[span(0, 10)],
        not: &[span(0, 2), span(4, 10)],
        xor: &[span(0, 2), span(4, 10)],
    };
    check(&rt, rt.alloc(), one_inside)?;
    Ok(())
}

#[test]
fn more_pairs_of_rows(rt: HostRuntime) -> Result<(), Fail> {
    let disjoint = Pair {
        first: &[span(0, 1)],
        second: &[span(5, 6)],
        and: &[],
        or: &[span(0, 1), span(5, 6)],
        not: &[span(0, 1)],
        xor: &[span(0, 1), span(5, 6)],
    };
    check(&rt, rt.alloc(), disjoint)?;
    let negative = Pair {
        first: &[span(-5, -1), span(2, 4)],
        second: &[span(-3, 3)],
        and: &[span(-3, -1), span(2, 3)],
        or: &[span(-5, 4)],
        not: &[span(-5, -3), span(3, 4)],
        xor: &[span(-5, -3), span(-1, 2), span(3, 4)],
    };
    check(&rt, rt.alloc(), negative)?;
    let empty = Pair {
        first: &[],
        second: &[span(1, 2)],
        and: &[],
        or: &[span(1, 2)],
        not: &[],
        xor: &[span(1, 2)],
    };
    check(&rt, rt.alloc(), empty)?;
    Ok(())
}

#[test]
fn places_at_both_ends_of_spans(rt: HostRuntime) -> Result<(), Fail> {
    let row = Row::gather(rt.alloc(), &[span(1, 3), span(5, 8)])?;
    let table = [
        (0, false),
        (1, true),
        (2, true),
        (3, false),
        (4, false),
        (5, true),
        (7, true),
        (8, false),
    ];
    for (x, is_in) in table {
        assert_eq!(rt; row.covers(x), is_in, "at {x}");
    }
    assert!(rt; !Row::new(rt.alloc()).covers(0));
    Ok(())
}
