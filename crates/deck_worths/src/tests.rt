//! What variables of small decks are worth.

use crate::{evaluate_at, worths_of};
use deck_graph::{Graph, graph_of};
use deck_names::Scope;
use deck_tree::{
    AddSign, Addend, Atom, Deck, Factor, NameAt, Number, Power, Product, ProductSign, Statement,
    Value, ValueFault,
};
use drc_geom::Name;
use drc_num::Frac;
use sqlite_items::{Boxed, Items};
use std::alloc::{AllocError, Global};
use std::test::Fail;

fn name(alloc: Global, text: &[u8]) -> Result<NameAt, AllocError> {
    Ok(NameAt {
        at: 0,
        name: Name::new(alloc, text)?,
    })
}

fn number(alloc: Global, digits: &str) -> Result<Number, AllocError> {
    Ok(Number {
        at: 0,
        whole: Items::from_slice(alloc, digits.as_bytes())?,
        fraction: Items::new(alloc),
    })
}

fn alone(base: Atom) -> Power {
    Power {
        base,
        exponent: None,
    }
}

fn product(alloc: Global, base: Atom) -> Product {
    Product {
        first: alone(base),
        more: Items::new(alloc),
    }
}

// A number.
fn plain(alloc: Global, digits: &str) -> Result<Value, AllocError> {
    Ok(Value {
        first: product(alloc, Atom::Number(None, number(alloc, digits)?)),
        more: Items::new(alloc),
    })
}

// `X + 1`
fn one_more(alloc: Global, text: &[u8]) -> Result<Value, AllocError> {
    let mut more = Items::new(alloc);
    more.push(Addend {
        at: 0,
        sign: AddSign::Plus,
        product: product(alloc, Atom::Number(None, number(alloc, "1")?)),
    })?;
    Ok(Value {
        first: product(alloc, Atom::Name(None, name(alloc, text)?)),
        more,
    })
}

// `1 / X`, with the sign at an offset
fn part(alloc: Global, at: u64, text: &[u8]) -> Result<Value, AllocError> {
    let mut more = Items::new(alloc);
    more.push(Factor {
        at,
        sign: ProductSign::Over,
        power: alone(Atom::Name(None, name(alloc, text)?)),
    })?;
    let first = Product {
        first: alone(Atom::Number(None, number(alloc, "1")?)),
        more,
    };
    Ok(Value {
        first,
        more: Items::new(alloc),
    })
}

fn variable(alloc: Global, text: &[u8], value: Value) -> Result<Statement, AllocError> {
    Ok(Statement::Variable(0, name(alloc, text)?, Boxed::new(alloc, value)?))
}

fn layer(alloc: Global, text: &[u8]) -> Result<Statement, AllocError> {
    let mut numbers = Items::new(alloc);
    numbers.push(number(alloc, "1")?)?;
    Ok(Statement::Layer(0, name(alloc, text)?, numbers))
}

// `A B + 1   B 2   C C + 1   D 1 / Z   Z 0   E D + 1   F M1 + 1   M1   B 7   H U + 1`
fn deck(alloc: Global) -> Result<Deck, AllocError> {
    let mut statements = Items::new(alloc);
    statements.push(variable(alloc, b"A", one_more(alloc, b"B")?)?)?;
    statements.push(variable(alloc, b"B", plain(alloc, "2")?)?)?;
    statements.push(variable(alloc, b"C", one_more(alloc, b"C")?)?)?;
    statements.push(variable(alloc, b"D", part(alloc, 40, b"Z")?)?)?;
    statements.push(variable(alloc, b"Z", plain(alloc, "0")?)?)?;
    statements.push(variable(alloc, b"E", one_more(alloc, b"D")?)?)?;
    statements.push(variable(alloc, b"F", one_more(alloc, b"M1")?)?)?;
    statements.push(layer(alloc, b"M1")?)?;
    statements.push(variable(alloc, b"B", plain(alloc, "7")?)?)?;
    statements.push(variable(alloc, b"H", one_more(alloc, b"U")?)?)?;
    Ok(Deck {
        statements,
        length: 0,
    })
}

fn worths(alloc: Global, deck: &Deck) -> Result<Vec<Option<Frac>>, AllocError> {
    let graph = graph_of(alloc, deck)?;
    worths_of(alloc, &graph)
}

// What is worth a whole number, as that number.
fn whole(worth: &Option<Frac>) -> Option<i64> {
    match worth {
        Some(number) if number.den() == 1 => Some(number.num()),
        _ => None,
    }
}

#[test]
fn variables_that_use_each_other(rt: HostRuntime) -> Result<(), Fail> {
    let deck = deck(rt.alloc())?;
    let found = worths(rt.alloc(), &deck)?;
    let wanted = [
        Some(3),
        Some(2),
        None,
        None,
        Some(0),
        None,
        None,
        None,
        Some(7),
        None,
    ];
    assert_eq!(rt; found.len(), wanted.len());
    for (worth, want) in found.iter().zip(wanted) {
        assert_eq!(rt; whole(worth), want);
    }
    Ok(())
}

// To what a value comes outside checks.
fn outside(
    alloc: Global,
    deck: &Deck,
    value: &Value,
) -> Result<Result<i64, Option<ValueFault>>, AllocError> {
    let graph = graph_of(alloc, deck)?;
    let worths = worths_of(alloc, &graph)?;
    let answer = evaluate_at(alloc, &graph, &worths, Scope::Everywhere, value)?;
    Ok(answer.map(|number| number.num()))
}

#[test]
fn values_have_the_faults_of_their_own_parts(rt: HostRuntime) -> Result<(), Fail> {
    let alloc = rt.alloc();
    let deck = deck(alloc)?;
    assert_eq!(rt; outside(alloc, &deck, &one_more(alloc, b"A")?)?, Ok(4));
    assert_eq!(rt; outside(alloc, &deck, &one_more(alloc, b"D")?)?, Err(None));
    assert_eq!(rt; outside(alloc, &deck, &one_more(alloc, b"M1")?)?, Err(None));
    assert_eq!(rt;
        outside(alloc, &deck, &part(alloc, 9, b"Z")?)?,
        Err(Some(ValueFault::DivideByZero(9)))
    );
    Ok(())
}

// The name of a variable of a chain.
fn link(number: u32) -> [u8; 3] {
    let letter = |digit: u32| b'a' + (digit % 16) as u8;
    [letter(number / 256), letter(number / 16), letter(number)]
}

// Variables of which each is one more than the next, and the last is 0.
fn chain(alloc: Global, length: u32) -> Result<Deck, AllocError> {
    let mut statements = Items::new(alloc);
    for number in 0..length {
        let value = if number + 1 < length {
            one_more(alloc, &link(number + 1))?
        } else {
            plain(alloc, "0")?
        };
        statements.push(variable(alloc, &link(number), value)?)?;
    }
    Ok(Deck {
        statements,
        length: 0,
    })
}

#[test]
fn a_chain_of_four_thousand(rt: HostRuntime) -> Result<(), Fail> {
    let deck = chain(rt.alloc(), 4_000)?;
    let found = worths(rt.alloc(), &deck)?;
    assert_eq!(rt; found.first().and_then(whole), Some(3_999));
    assert_eq!(rt; found.last().and_then(whole), Some(0));
    Ok(())
}
