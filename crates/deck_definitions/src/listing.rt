//! The list of definitions.

ghost use Rattle.std.specs.Prelude.{◌≡◌, ◌+◌, ◌<◌, ◌≤◌, ◌^◌, ◌++◌, ◌∷◌, [], length, IfOk, OnOk};
ghost use Rattle.std.specs.List.{flat_map};
ghost use Rattle.deck_definitions.specs.Definitions.{shown, entry_of, item_entries, statement_entries, checks_behind, entries_from, definitions_of};

use crate::defined::{Body, Defined};
use deck_names::Scope;
use deck_tree::{Deck, Item, Statement};
use std::alloc::{AllocError, Global};

/// The definitions of the deck, of layers and of variables, in the order of its text. Only want of memory is an error,
/// for which a deck of 2^32 statements counts.
pub fn definitions<'d>(alloc: Global, deck: &'d Deck) -> Result<Vec<Defined<'d>>, AllocError>
    ensures { IfOk result (λ found. shown found.items ≡ definitions_of deck.entry.now) }
{
    let mut found = Vec::new(alloc);
    let statements = deck.statements.as_slice();
    if statements.len() > u32::MAX as usize {
        return Err(AllocError);
    }
    push_statements(&mut found, statements)?;
    Ok(found)
}

fn push_statements<'d>(
    found: &mut Vec<Defined<'d>>,
    statements: &'d [Statement],
) -> Result<(), AllocError>
    requires few { length statements.now < 2 ^ 32 }
    ensures { OnOk result (shown found.new.items ≡ shown found.old.items ++ entries_from 0 statements.entry.now) }
{
    let mut check = 0;
    for statement in statements {
        push_statement(found, check, statement)?;
        check = behind(check, statement);
    }
    Ok(())
}

// The number of the next check behind a statement.
fn behind(check: u32, statement: &Statement) -> u32
    requires few { check + 1 < 2 ^ 32 }
    ensures number { result ≡ checks_behind check statement.now }
    ensures few { result ≤ check + 1 }
{
    match statement {
        Statement::Check(_, _) => check + 1,
        _ => check,
    }
}

fn push_statement<'d>(
    found: &mut Vec<Defined<'d>>,
    check: u32,
    statement: &'d Statement,
) -> Result<(), AllocError>
    ensures { OnOk result (shown found.new.items ≡ shown found.old.items ++ statement_entries check statement.entry.now) }
{
    let (name, body) = match statement {
        Statement::Layer(_, name, numbers) => (name, Body::Drawn(numbers.as_slice())),
        Statement::Variable(_, name, value) => (name, Body::Variable(value.get())),
        Statement::Definition(name, layer) => (name, Body::Derived(layer.get())),
        Statement::Check(_, items) => return push_items(found, check, items.as_slice()),
        _ => return Ok(()),
    };
    let scope = Scope::Everywhere;
    push(found, Defined { name, scope, body })
}

fn push_items<'d>(
    found: &mut Vec<Defined<'d>>,
    check: u32,
    items: &'d [Item],
) -> Result<(), AllocError>
    ensures { OnOk result (shown found.new.items ≡ shown found.old.items ++ flat_map (item_entries check) items.entry.now) }
{
    for item in items {
        push_item(found, check, item)?;
    }
    Ok(())
}

fn push_item<'d>(found: &mut Vec<Defined<'d>>, check: u32, item: &'d Item) -> Result<(), AllocError>
    ensures { OnOk result (shown found.new.items ≡ shown found.old.items ++ item_entries check item.entry.now) }
{
    match item {
        Item::Note(_) | Item::Output(_) => Ok(()),
        Item::Definition(name, layer) => {
            let body = Body::Derived(layer.get());
            let scope = Scope::Check(check);
            push(found, Defined { name, scope, body })
        }
    }
}

#[tactic(auto, using(crate::proofs::Shown::one_more))]
fn push<'d>(found: &mut Vec<Defined<'d>>, one: Defined<'d>) -> Result<(), AllocError>
    ensures { OnOk result (shown found.new.items ≡ shown found.old.items ++ entry_of one.entry ∷ []) }
{
    found.push(one)?;
    Ok(())
}
