//! Each call once on numbers that a deck may have, and at the ends of what fits.
ghost use Rattle.std.specs.Prelude.{◌<◌, ◌≤◌, ◌^◌, unsigned_abs};

use crate::Frac;
use std::process::Abort;

const MOST: i128 = 1 << 62;

fn frac<A: Abort>(rt: &A, num: i128, den: u128) -> Frac
    requires size { unsigned_abs num < 2 ^ 126 }
    requires some { 0 < den }
    requires den { den < 2 ^ 126 }
{
    Frac::new(num, den).expect(rt, "a number that fits")
}

fn parts(answer: Option<Frac>) -> Option<(i64, u64)> {
    answer.map(|f| (f.num(), f.den()))
}

#[test]
fn lowest_terms(rt: HostRuntime) {
    assert_eq!(rt; parts(Frac::new(6, 4)), Some((3, 2)));
    assert_eq!(rt; parts(Frac::new(-250, 1000)), Some((-1, 4)));
    assert_eq!(rt; parts(Frac::new(0, 7)), Some((0, 1)));
    assert_eq!(rt; parts(Frac::new(MOST, 1)), Some((1 << 62, 1)));
    assert_eq!(rt; parts(Frac::new(-MOST, 3)), Some((-(1 << 62), 3)));
    assert_eq!(rt; parts(Frac::new(MOST + 1, 1)), None);
    assert_eq!(rt; parts(Frac::new(1, 1 << 62)), Some((1, 1 << 62)));
    assert_eq!(rt; parts(Frac::new(1, (1 << 62) + 1)), None);
    assert_eq!(rt; parts(Frac::new(MOST * 4, 8)), Some((1 << 61, 1)));
}

#[test]
fn arithmetic(rt: HostRuntime) {
    let tenth = frac(&rt, 1, 10);
    let fifth = frac(&rt, 1, 5);
    let minus = frac(&rt, -7, 1);
    let two = frac(&rt, 2, 1);
    let zero = frac(&rt, 0, 1);
    assert_eq!(rt; parts(tenth.add(&fifth)), Some((3, 10)));
    assert_eq!(rt; parts(tenth.sub(&fifth)), Some((-1, 10)));
    assert_eq!(rt; parts(tenth.mul(&fifth)), Some((1, 50)));
    assert_eq!(rt; parts(tenth.div(&minus)), Some((-1, 70)));
    assert_eq!(rt; parts(minus.div(&zero)), None);
    assert_eq!(rt; parts(minus.rem(&two)), Some((-1, 1)));
    assert_eq!(rt; parts(two.rem(&minus)), Some((2, 1)));
    assert_eq!(rt; parts(minus.rem(&zero)), None);
    assert_eq!(rt; parts(frac(&rt, 1, 2).rem(&frac(&rt, 1, 3))), Some((1, 6)));
}

#[test]
fn powers(rt: HostRuntime) {
    let rows: [(i128, u32, Option<(i64, u64)>); 7] = [
        (2, 62, Some((1 << 62, 1))),
        (2, 63, None),
        (-2, 3, Some((-8, 1))),
        (-2, 62, Some((1 << 62, 1))),
        (0, 0, Some((1, 1))),
        (0, 255, Some((0, 1))),
        (-1, 255, Some((-1, 1))),
    ];
    for (base, n, want) in rows {
        let base = Frac::new(base % 4, 1).expect(&rt, "a small number");
        assert_eq!(rt; parts(base.pow(n % 256)), want, "to the power {n}");
    }
    assert_eq!(rt; parts(frac(&rt, 2, 3).pow(4)), Some((16, 81)));
}

#[test]
fn whole_numbers(rt: HostRuntime) {
    assert_eq!(rt; frac(&rt, 12, 4).whole(), Some(3));
    assert_eq!(rt; frac(&rt, 1, 2).whole(), None);
    assert_eq!(rt; frac(&rt, 1, 2000).times(1000), None);
    assert_eq!(rt; frac(&rt, -1, 20).times(1000), Some(-50));
    assert_eq!(rt; frac(&rt, MOST, 1).times(1 << 40), Some(1 << 102));
}
