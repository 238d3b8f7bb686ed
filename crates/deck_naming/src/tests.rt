//! Names of small decks. The offset of a name is told by the deck.

use super::*;
use deck_graph::graph_of;
use deck_tree::{
    Atom, Deck, DeckKind, DeckRefusal, Item, Layer, NameAt, Power, Primary, Product, Statement,
    Term, Value,
};
use drc_geom::Name;
use sqlite_items::{Boxed, Items};
use std::alloc::{AllocError, Global};

fn name(alloc: Global, at: u64, text: &[u8]) -> Result<NameAt, AllocError> {
    Ok(NameAt {
        at,
        name: Name::new(alloc, text)?,
    })
}

fn layer(alloc: Global, at: u64, text: &[u8]) -> Result<Boxed<Layer>, AllocError> {
    let first = Primary::Term(Term::Name(name(alloc, at, text)?));
    let more = Items::new(alloc);
    Ok(Boxed::new(alloc, Layer { first, more })?)
}

fn value(alloc: Global, at: u64, text: &[u8]) -> Result<Boxed<Value>, AllocError> {
    let power = Power {
        base: Atom::Name(None, name(alloc, at, text)?),
        exponent: None,
    };
    let product = Product {
        first: power,
        more: Items::new(alloc),
    };
    let more = Items::new(alloc);
    Ok(Boxed::new(
        alloc,
        Value {
            first: product,
            more,
        },
    )?)
}

// A check with `Z = X` and the output `Z`, of which the X and the second Z stand at the offset.
fn check(alloc: Global, at: u64) -> Result<Statement, AllocError> {
    let mut items = Items::new(alloc);
    items.push(Item::Definition(name(alloc, 0, b"Z")?, layer(alloc, at, b"X")?))?;
    items.push(Item::Note(Name::new(alloc, b"note")?))?;
    items.push(Item::Output(layer(alloc, at, b"Z")?))?;
    Ok(Statement::Check(name(alloc, 0, b"A")?, items))
}

// A check with the output `Z`
fn other_check(alloc: Global, at: u64) -> Result<Statement, AllocError> {
    let mut items = Items::new(alloc);
    items.push(Item::Output(layer(alloc, at, b"Z")?))?;
    Ok(Statement::Check(name(alloc, 0, b"B")?, items))
}

fn variable(alloc: Global, at: u64) -> Result<Statement, AllocError> {
    let value = value(alloc, at, b"V")?;
    Ok(Statement::Variable(0, name(alloc, 0, b"W")?, value))
}

// `X = Y  Y = M2  A { Z = X  Z }  B { Z }  PRECISION P  VARIABLE W V  DRC MAXIMUM RESULTS W`
fn deck(alloc: Global) -> Result<Deck, AllocError> {
    let mut statements = Items::new(alloc);
    statements.push(Statement::Definition(name(alloc, 0, b"X")?, layer(alloc, 10, b"Y")?))?;
    statements.push(Statement::Definition(name(alloc, 0, b"Y")?, layer(alloc, 20, b"M2")?))?;
    statements.push(check(alloc, 30)?)?;
    statements.push(other_check(alloc, 40)?)?;
    statements.push(Statement::Precision(0, value(alloc, 50, b"P")?))?;
    statements.push(variable(alloc, 60)?)?;
    statements.push(Statement::MaximumResults(0, Some(value(alloc, 70, b"W")?)))?;
    statements.push(Statement::MaximumResults(0, None))?;
    Ok(Deck {
        statements,
        length: 80,
    })
}

fn undefined(alloc: Global, deck: &Deck) -> Result<Vec<DeckRefusal>, AllocError> {
    let graph = graph_of(alloc, deck)?;
    undefined_names(alloc, &graph, deck)
}

#[test]
fn names_that_no_definition_gives(rt: HostRuntime) -> Result<(), AllocError> {
    let alloc = rt.alloc();
    let deck = deck(alloc)?;
    let facts = undefined(alloc, &deck)?;
    // M2 and V, which definitions use; Z, which is seen in the other check; and P
    let wanted: [u64; 4] = [20, 60, 40, 50];
    assert_eq!(rt; facts.len(), wanted.len());
    for (fact, at) in facts.iter().zip(wanted) {
        assert_eq!(rt; fact.at, at);
        assert_eq!(rt; fact.kind, DeckKind::UndefinedName);
    }
    Ok(())
}

#[test]
fn an_empty_deck(rt: HostRuntime) -> Result<(), AllocError> {
    let alloc = rt.alloc();
    let deck = Deck {
        statements: Items::new(alloc),
        length: 0,
    };
    let facts = undefined(alloc, &deck)?;
    assert_eq!(rt; facts.len(), 0);
    Ok(())
}
