//! Repetitions and circles of small decks.

use super::*;
use deck_graph::graph_of;
use deck_tree::{
    Deck, DeckKind, DeckRefusal, Infix, Item, Layer, NameAt, Operation, Primary, Statement, Term,
};
use drc_geom::Name;
use sqlite_items::{Boxed, Items};
use std::alloc::{AllocError, Global};

fn name(alloc: Global, at: u64, text: &[u8]) -> Result<NameAt, AllocError> {
    Ok(NameAt {
        at,
        name: Name::new(alloc, text)?,
    })
}

fn primary(alloc: Global, text: &[u8]) -> Result<Primary, AllocError> {
    Ok(Primary::Term(Term::Name(name(alloc, 0, text)?)))
}

// The layer that both names give together by AND.
fn layer(alloc: Global, first: &[u8], second: &[u8]) -> Result<Boxed<Layer>, AllocError> {
    let mut more = Items::new(alloc);
    more.push(Operation {
        at: 0,
        operator: Infix::And,
        right: primary(alloc, second)?,
    })?;
    let first = primary(alloc, first)?;
    Ok(Boxed::new(alloc, Layer { first, more })?)
}

fn defined(
    alloc: Global,
    at: u64,
    text: &[u8],
    first: &[u8],
    second: &[u8],
) -> Result<Statement, AllocError> {
    let layer = layer(alloc, first, second)?;
    Ok(Statement::Definition(name(alloc, at, text)?, layer))
}

// A check of one definition.
fn check(alloc: Global, at: u64, text: &[u8], first: &[u8]) -> Result<Statement, AllocError> {
    let mut items = Items::new(alloc);
    items.push(Item::Definition(name(alloc, at, text)?, layer(alloc, first, first)?))?;
    Ok(Statement::Check(name(alloc, 0, b"A")?, items))
}

// `Z = X AND U` at 0, a check with `X = V AND V` at 10, `V = X AND X` at 20, which the outer X, `X = Y AND Z` at the offset,
// leads to or not, and `Y = M AND X` or `Y = M AND M` at 40.
fn deck(alloc: Global, at: u64, last: &[u8]) -> Result<Deck, AllocError> {
    let mut statements = Items::new(alloc);
    statements.push(defined(alloc, 0, b"Z", b"X", b"U")?)?;
    statements.push(check(alloc, 10, b"X", b"V")?)?;
    statements.push(defined(alloc, 20, b"V", b"X", b"X")?)?;
    statements.push(defined(alloc, at, b"X", b"Y", b"M")?)?;
    statements.push(defined(alloc, 40, b"Y", b"M", last)?)?;
    Ok(Deck {
        statements,
        length: 50,
    })
}

fn first(alloc: Global, deck: &Deck) -> Result<Option<DeckRefusal>, AllocError> {
    let graph = graph_of(alloc, deck)?;
    first_circle(alloc, &graph)
}

fn duplicate(alloc: Global, deck: &Deck) -> Result<Option<DeckRefusal>, AllocError> {
    let graph = graph_of(alloc, deck)?;
    Ok(first_duplicate(&graph))
}

fn circle(at: u64) -> Option<DeckRefusal> {
    Some(DeckRefusal {
        at,
        kind: DeckKind::LayerCycle,
    })
}

#[test]
fn two_that_use_each_other(rt: HostRuntime) -> Result<(), AllocError> {
    let alloc = rt.alloc();
    // neither Z, which leads to the circle, nor V and the inner X have a fact
    assert_eq!(rt; first(alloc, &deck(alloc, 30, b"X")?)?, circle(30));
    // the one of the lesser offset, wherever it stands in the list
    assert_eq!(rt; first(alloc, &deck(alloc, 45, b"X")?)?, circle(40));
    // one that uses itself at once
    assert_eq!(rt; first(alloc, &deck(alloc, 30, b"Y")?)?, circle(40));
    assert_eq!(rt; first(alloc, &deck(alloc, 30, b"M")?)?, None);
    Ok(())
}

// `B { X = V AND V }`, with the name at 5, and a definition behind it
fn behind_a_check(alloc: Global, text: &[u8]) -> Result<Deck, AllocError> {
    let mut statements = Items::new(alloc);
    statements.push(check(alloc, 5, b"X", b"V")?)?;
    statements.push(defined(alloc, 20, text, b"M", b"M")?)?;
    Ok(Deck {
        statements,
        length: 50,
    })
}

fn repeated(at: u64) -> Option<DeckRefusal> {
    Some(DeckRefusal {
        at,
        kind: DeckKind::DuplicateName,
    })
}

#[test]
fn the_later_of_two_is_repeated(rt: HostRuntime) -> Result<(), AllocError> {
    let alloc = rt.alloc();
    // the outer one is the later, and both are seen in the check
    assert_eq!(rt;
        duplicate(alloc, &behind_a_check(alloc, b"X")?)?,
        repeated(20)
    );
    assert_eq!(rt; duplicate(alloc, &behind_a_check(alloc, b"Y")?)?, None);
    // the X of the check stands before the outer one
    assert_eq!(rt; duplicate(alloc, &deck(alloc, 30, b"M")?)?, repeated(30));
    Ok(())
}

// Two checks that define one name.
fn two_checks(alloc: Global) -> Result<Deck, AllocError> {
    let mut statements = Items::new(alloc);
    statements.push(check(alloc, 5, b"X", b"V")?)?;
    statements.push(check(alloc, 15, b"X", b"V")?)?;
    Ok(Deck {
        statements,
        length: 50,
    })
}

#[test]
fn two_checks_may_define_one_name(rt: HostRuntime) -> Result<(), AllocError> {
    let alloc = rt.alloc();
    assert_eq!(rt; duplicate(alloc, &two_checks(alloc)?)?, None);
    Ok(())
}
