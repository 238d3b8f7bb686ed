//! The names of small decks.

use crate::{Names, Scope};
use std::alloc::Global;
use std::test::Fail;

/// Opens a check, where there are few.
fn opened(names: &mut Names<'_>) -> Result<u32, Fail> {
    if names.checks() > 1_000 {
        return Err("too many checks".into());
    }
    Ok(names.open_check()?)
}

/// Defines a name at a place of the deck.
fn defined<'d>(names: &mut Names<'d>, name: &'d [u8], place: Scope) -> Result<bool, Fail> {
    if names.definitions().len() > 1_000 || !names.is_place(place) {
        return Err("no place".into());
    }
    Ok(names.define(name, place)?)
}

/// The number of the definition for which a name stands at a place of the deck.
fn found(names: &Names<'_>, from: Scope, name: &[u8]) -> Result<Option<u32>, Fail> {
    if !names.is_place(from) {
        return Err("no place".into());
    }
    Ok(names.find(from, name))
}

#[test]
fn a_name_stands_for_the_first_that_is_seen(rt: HostRuntime) -> Result<(), Fail> {
    let mut names = Names::new(rt.alloc());
    assert_eq!(rt; defined(&mut names, b"X", Scope::Everywhere)?, false);
    let first = opened(&mut names)?;
    let second = opened(&mut names)?;
    assert_eq!(rt; defined(&mut names, b"Y", Scope::Check(first))?, false);
    assert_eq!(rt; defined(&mut names, b"Y", Scope::Check(first))?, true);
    // another check may define the same name
    assert_eq!(rt; defined(&mut names, b"Y", Scope::Check(second))?, false);
    // the outer one is seen in both
    assert_eq!(rt; defined(&mut names, b"Y", Scope::Everywhere)?, true);
    assert_eq!(rt; defined(&mut names, b"X", Scope::Check(second))?, true);
    assert_eq!(rt; found(&names, Scope::Check(first), b"Y")?, Some(1));
    assert_eq!(rt; found(&names, Scope::Check(second), b"Y")?, Some(3));
    assert_eq!(rt; found(&names, Scope::Everywhere, b"Y")?, Some(4));
    assert_eq!(rt; found(&names, Scope::Check(second), b"X")?, Some(0));
    assert_eq!(rt; found(&names, Scope::Check(first), b"Z")?, None);
    assert_eq!(rt; names.definitions().len(), 6);
    Ok(())
}

#[test]
fn letters_are_told_apart(rt: HostRuntime) -> Result<(), Fail> {
    let mut names = Names::new(rt.alloc());
    assert_eq!(rt; defined(&mut names, b"Metal", Scope::Everywhere)?, false);
    assert_eq!(rt; defined(&mut names, b"METAL", Scope::Everywhere)?, false);
    assert_eq!(rt; defined(&mut names, b"Meta", Scope::Everywhere)?, false);
    assert_eq!(rt; found(&names, Scope::Everywhere, b"Meta")?, Some(2));
    assert_eq!(rt; found(&names, Scope::Everywhere, b"METAL")?, Some(1));
    assert_eq!(rt; names.is_place(Scope::Check(0)), false);
    Ok(())
}
