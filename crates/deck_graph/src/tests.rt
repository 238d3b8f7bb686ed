use super::*;
use deck_names::Scope;
use deck_order::{are_within, order};
use deck_tree::{Deck, Infix, Item, Layer, NameAt, Number, Operation, Primary, Statement, Term};
use drc_geom::Name;
use sqlite_items::{Boxed, Items};
use std::alloc::{AllocError, Global};

fn name(alloc: Global, text: &str) -> Result<NameAt, AllocError> {
    Ok(NameAt {
        at: 0,
        name: Name::new(alloc, text.as_bytes())?,
    })
}

fn primary(alloc: Global, text: &str) -> Result<Primary, AllocError> {
    Ok(Primary::Term(Term::Name(name(alloc, text)?)))
}

// The layer that both names give together by AND, or the first alone.
fn layer(alloc: Global, first: &str, second: Option<&str>) -> Result<Boxed<Layer>, AllocError> {
    let mut more = Items::new(alloc);
    if let Some(text) = second {
        more.push(Operation {
            at: 0,
            operator: Infix::And,
            right: primary(alloc, text)?,
        })?;
    }
    let first = primary(alloc, first)?;
    Ok(Boxed::new(alloc, Layer { first, more })?)
}

fn defined(
    alloc: Global,
    text: &str,
    first: &str,
    second: Option<&str>,
) -> Result<Statement, AllocError> {
    Ok(Statement::Definition(name(alloc, text)?, layer(alloc, first, second)?))
}

fn drawn(alloc: Global, text: &str) -> Result<Statement, AllocError> {
    let mut numbers = Items::new(alloc);
    numbers.push(Number {
        at: 0,
        whole: Items::from_slice(alloc, b"1")?,
        fraction: Items::new(alloc),
    })?;
    Ok(Statement::Layer(0, name(alloc, text)?, numbers))
}

// A check of one definition.
fn check(
    alloc: Global,
    text: &str,
    inside: &str,
    first: &str,
    second: &str,
) -> Result<Statement, AllocError> {
    let mut items = Items::new(alloc);
    items.push(Item::Definition(name(alloc, inside)?, layer(alloc, first, Some(second))?))?;
    Ok(Statement::Check(name(alloc, text)?, items))
}

// `X = Y AND M1  Y = X  LAYER M1 1  B { Z = X AND U }  A { M1 = Z AND M1 }  Z = M1`
fn deck(alloc: Global) -> Result<Deck, AllocError> {
    let mut statements = Items::new(alloc);
    statements.push(defined(alloc, "X", "Y", Some("M1"))?)?;
    statements.push(defined(alloc, "Y", "X", None)?)?;
    statements.push(drawn(alloc, "M1")?)?;
    statements.push(check(alloc, "B", "Z", "X", "U")?)?;
    statements.push(check(alloc, "A", "M1", "Z", "M1")?)?;
    statements.push(defined(alloc, "Z", "M1", None)?)?;
    Ok(Deck {
        statements,
        length: 0,
    })
}

#[test]
fn names_stand_for_the_first_that_is_seen(rt: HostRuntime) {
    let Ok(deck) = deck(rt.alloc()) else {
        return;
    };
    let Ok(graph) = graph_of(rt.alloc(), &deck) else {
        return;
    };
    let wanted: [&[u32]; 6] = [&[1, 2], &[0], &[], &[0], &[5, 2], &[2]];
    assert_eq!(rt; graph.uses().len(), wanted.len());
    for (uses, those) in graph.uses().iter().zip(wanted) {
        assert!(rt; uses.as_slice() == those);
    }
    assert_eq!(rt; graph.definitions().len(), 6);
    // both M1 are seen in A, and both Z in B
    assert!(rt; graph.repeated() == [false, false, false, false, true, true].as_slice());
}

#[test]
fn names_are_found_from_where_they_are_seen(rt: HostRuntime) {
    let Ok(deck) = deck(rt.alloc()) else {
        return;
    };
    let Ok(graph) = graph_of(rt.alloc(), &deck) else {
        return;
    };
    assert_eq!(rt; graph.find(Scope::Everywhere, b"M1"), Some(2));
    assert_eq!(rt; graph.find(Scope::Everywhere, b"Z"), Some(5));
    assert_eq!(rt; graph.find(Scope::Everywhere, b"U"), None);
}

// Which definitions lead back to themselves, where each use is of one of them.
fn cyclic(alloc: Global, uses: &[Vec<u32>]) -> Option<Vec<bool>> {
    if uses.len() > 1_000 {
        return None;
    }
    if !are_within(uses) {
        return None;
    }
    match order(alloc, uses) {
        Ok(ordered) => Some(ordered.cyclic),
        Err(_) => None,
    }
}

#[test]
fn two_that_use_each_other_lead_back(rt: HostRuntime) {
    let Ok(deck) = deck(rt.alloc()) else {
        return;
    };
    let Ok(graph) = graph_of(rt.alloc(), &deck) else {
        return;
    };
    match cyclic(rt.alloc(), graph.uses()) {
        Some(flags) => assert!(rt;
            flags.as_slice() == [true, true, false, false, false, false].as_slice()
        ),
        None => assert!(rt; false),
    }
}
