//! A deck made by hand.

use crate::first_deck;
use deck_tree::{
    Atom, Below, Bound, Deck, Item, Layer, Limits, NameAt, Number, Power, Prefix, Primary, Product,
    Statement, Term, Value,
};
use drc_geom::Name;
use sqlite_items::{Boxed, Items};
use std::alloc::{AllocError, Global};
use std::test::Fail;

fn name(alloc: Global, text: &str) -> Result<NameAt, AllocError> {
    Ok(NameAt {
        at: 7,
        name: Name::new(alloc, text.as_bytes())?,
    })
}

fn number(alloc: Global, whole: &str, fraction: &str) -> Result<Number, AllocError> {
    Ok(Number {
        at: 7,
        whole: Items::from_slice(alloc, whole.as_bytes())?,
        fraction: Items::from_slice(alloc, fraction.as_bytes())?,
    })
}

// `LENGTH M2` with the sign and 0.2
fn length(alloc: Global, sign: Below) -> Result<Layer, AllocError> {
    let power = Power {
        base: Atom::Number(None, number(alloc, "0", "2")?),
        exponent: None,
    };
    let value = Value {
        first: Product {
            first: power,
            more: Items::new(alloc),
        },
        more: Items::new(alloc),
    };
    let limits = Limits::Below(Bound { sign, value });
    let length = Prefix::Length(Term::Name(name(alloc, "M2")?), limits);
    Ok(Layer {
        first: Primary::Prefix(7, Boxed::new(alloc, length)?),
        more: Items::new(alloc),
    })
}

fn layer(alloc: Global, text: &str, digits: &str) -> Result<Statement, AllocError> {
    let mut numbers = Items::new(alloc);
    numbers.push(number(alloc, digits, "")?)?;
    Ok(Statement::Layer(7, name(alloc, text)?, numbers))
}

fn check(alloc: Global, sign: Below) -> Result<Statement, AllocError> {
    let mut items = Items::new(alloc);
    items.push(Item::Note(Name::new(alloc, b"short edge")?))?;
    items.push(Item::Output(Boxed::new(alloc, length(alloc, sign)?)?))?;
    Ok(Statement::Check(name(alloc, "SHORT")?, items))
}

fn deck(alloc: Global, sign: Below) -> Result<Deck, AllocError> {
    let mut statements = Items::new(alloc);
    statements.push(Statement::LayoutSystem(7))?;
    statements.push(Statement::LayoutPath(7, name(alloc, "chip.gds")?))?;
    statements.push(Statement::LayoutPrimary(7, name(alloc, "TOP")?))?;
    statements.push(Statement::ResultsDatabase(7, name(alloc, "chip.db")?))?;
    statements.push(layer(alloc, "M1", "1")?)?;
    statements.push(layer(alloc, "M2", "65535")?)?;
    statements.push(check(alloc, sign)?)?;
    Ok(Deck {
        statements,
        length: 200,
    })
}

#[test]
fn reads_a_deck(rt: HostRuntime) -> Result<(), Fail> {
    let deck = deck(rt.alloc(), Below::Less)?;
    let found = first_deck(&deck, b"chip.svrf").ok_or("the deck is of the first form")?;
    assert_eq!(rt; found.layout, b"chip.gds".as_slice());
    assert_eq!(rt; found.primary, b"TOP".as_slice());
    assert_eq!(rt; found.results, b"chip.db".as_slice());
    assert_eq!(rt; found.check, b"SHORT".as_slice());
    assert_eq!(rt; found.note, b"short edge".as_slice());
    assert_eq!(rt; found.number, 65535);
    assert_eq!(rt; found.bound, 200);
    Ok(())
}

#[test]
fn tells_other_decks(rt: HostRuntime) -> Result<(), Fail> {
    let less = deck(rt.alloc(), Below::Less)?;
    let at_most = deck(rt.alloc(), Below::LessOrEqual)?;
    assert!(rt; first_deck(&less, b"chip.db").is_none());
    assert!(rt; first_deck(&at_most, b"chip.svrf").is_none());
    Ok(())
}
