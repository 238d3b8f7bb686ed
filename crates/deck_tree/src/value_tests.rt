//! What values come to: numbers, signs, names and the first of several faults.
use crate::*;
use drc_geom::Name;
use drc_num::Frac;
use sqlite_items::Items;
use std::alloc::{AllocError, Global};
use std::test::Fail;

fn number(alloc: Global, at: u64, whole: &str, fraction: &str) -> Result<Atom, AllocError> {
    Ok(Atom::Number(
        None,
        Number {
            at,
            whole: Items::from_slice(alloc, whole.as_bytes())?,
            fraction: Items::from_slice(alloc, fraction.as_bytes())?,
        },
    ))
}

fn alone(base: Atom) -> Power {
    Power {
        base,
        exponent: None,
    }
}

fn product(
    alloc: Global,
    left: Power,
    sign: ProductSign,
    at: u64,
    right: Power,
) -> Result<Product, AllocError> {
    let factor = Factor {
        at,
        sign,
        power: right,
    };
    Ok(Product {
        first: left,
        more: Items::from_vec(vec![in alloc; factor]?),
    })
}

fn one(alloc: Global, first: Product) -> Value {
    Value {
        first,
        more: Items::new(alloc),
    }
}

fn parts(answer: Result<Frac, Option<ValueFault>>) -> Result<(i64, u64), Option<ValueFault>> {
    answer.map(|q| (q.num(), q.den()))
}

/// `7.5 / N`, with the signs at 4.
fn quotient(alloc: Global, whole: &str, fraction: &str) -> Result<Value, AllocError> {
    let left = alone(number(alloc, 0, "7", "5")?);
    let right = alone(number(alloc, 6, whole, fraction)?);
    Ok(one(alloc, product(alloc, left, ProductSign::Over, 4, right)?))
}

#[test]
fn quotients(rt: HostRuntime) -> Result<(), Fail> {
    let table = [
        ("2", "", Ok((15, 4))),
        ("0", "25", Ok((30, 1))),
        ("0", "", Err(Some(ValueFault::DivideByZero(4)))),
        ("123456789012345678", "", Ok((5, 82304526008230452))),
        (
            "1234567890123456789",
            "",
            Err(Some(ValueFault::ValueRange(6))),
        ),
        (
            "0",
            "0000000000000000001",
            Err(Some(ValueFault::ValueRange(6))),
        ),
    ];
    for (whole, fraction, want) in table {
        let value = quotient(rt.alloc(), whole, fraction)?;
        let vars = Vars::new(rt.alloc());
        assert_eq!(rt;
            parts(evaluate(&value, &vars)),
            want,
            "{whole} and {fraction}"
        );
    }
    Ok(())
}
