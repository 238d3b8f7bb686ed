//! Which checks of small decks are selected.

use super::*;
use deck_tree::{Deck, DeckKind, DeckRefusal, Item, NameAt, Statement};
use drc_geom::Name;
use sqlite_items::Items;
use std::alloc::{AllocError, Global};

fn name(alloc: Global, at: u64, text: &str) -> Result<NameAt, AllocError> {
    Ok(NameAt {
        at,
        name: Name::new(alloc, text.as_bytes())?,
    })
}

// Names at one offset.
fn names(alloc: Global, at: u64, texts: &[&str]) -> Result<Items<NameAt>, AllocError> {
    let mut names = Items::new(alloc);
    for text in texts {
        names.push(name(alloc, at, text)?)?;
    }
    Ok(names)
}

// A check of one note, which has the check's name.
fn check(alloc: Global, at: u64, text: &str) -> Result<Statement, AllocError> {
    let mut items = Items::new(alloc);
    items.push(Item::Note(Name::new(alloc, text.as_bytes())?))?;
    Ok(Statement::Check(name(alloc, at, text)?, items))
}

// A deck of the checks A, B, C and a second A, with a SELECT at either end, where there are names for it, and an UNSELECT
// in the middle.
fn deck(
    alloc: Global,
    first: &[&str],
    unselected: &[&str],
    last: &[&str],
) -> Result<Deck, AllocError> {
    let mut statements = Items::new(alloc);
    if !first.is_empty() {
        statements.push(Statement::SelectCheck(0, names(alloc, 10, first)?))?;
    }
    statements.push(check(alloc, 20, "A")?)?;
    statements.push(check(alloc, 30, "B")?)?;
    if !unselected.is_empty() {
        statements.push(Statement::UnselectCheck(0, names(alloc, 40, unselected)?))?;
    }
    statements.push(check(alloc, 50, "C")?)?;
    statements.push(check(alloc, 60, "A")?)?;
    if !last.is_empty() {
        statements.push(Statement::SelectCheck(0, names(alloc, 70, last)?))?;
    }
    Ok(Deck {
        statements,
        length: 0,
    })
}

// The numbers of the selected checks, each of which has its own one note.
fn selected(
    alloc: Global,
    first: &[&str],
    unselected: &[&str],
    last: &[&str],
) -> Result<Vec<u32>, AllocError> {
    let deck = deck(alloc, first, unselected, last)?;
    let found = selected_checks(alloc, &deck)?;
    let mut numbers = Vec::new(alloc);
    for check in &found {
        let is_whole = match check.items.first() {
            Some(Item::Note(note)) => note.bytes() == check.name.name.bytes(),
            _ => false,
        };
        numbers.push(if is_whole { check.number } else { 99 })?;
    }
    Ok(numbers)
}

#[test]
fn selected_by_name(rt: HostRuntime) -> Result<(), AllocError> {
    let alloc = rt.alloc();
    assert!(rt; selected(alloc, &[], &[], &[])?.as_slice() == [0, 1, 2, 3].as_slice());
    assert!(rt; selected(alloc, &["A"], &[], &[])?.as_slice() == [0, 3].as_slice());
    assert!(rt; selected(alloc, &["A"], &[], &["C", "B"])?.as_slice() == [0, 1, 2, 3].as_slice());
    assert!(rt; selected(alloc, &[], &["B", "C"], &[])?.as_slice() == [0, 3].as_slice());
    assert!(rt; selected(alloc, &["A", "C"], &["A"], &[])?.as_slice() == [2].as_slice());
    assert!(rt; selected(alloc, &["AB"], &[], &[])?.is_empty());
    assert!(rt; selected(alloc, &[], &["a", "D"], &["B"])?.as_slice() == [1].as_slice());
    Ok(())
}

// The facts of the names of checks.
fn facts(
    alloc: Global,
    first: &[&str],
    unselected: &[&str],
    last: &[&str],
) -> Result<Vec<DeckRefusal>, AllocError> {
    let deck = deck(alloc, first, unselected, last)?;
    check_name_facts(alloc, &deck)
}

#[test]
fn names_of_two_checks_and_of_none(rt: HostRuntime) -> Result<(), AllocError> {
    let alloc = rt.alloc();
    let twice = DeckRefusal {
        at: 60,
        kind: DeckKind::DuplicateName,
    };
    let unknown = |at| DeckRefusal {
        at,
        kind: DeckKind::UndefinedName,
    };
    assert!(rt; facts(alloc, &["C", "A"], &["B"], &[])?.as_slice() == [twice].as_slice());
    assert!(rt;
        facts(alloc, &["D"], &["A", "a"], &["B", "AB"])?.as_slice()
            == [twice, unknown(10), unknown(40), unknown(70)].as_slice()
    );
    Ok(())
}
