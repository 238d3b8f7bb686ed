//! The list of values.

ghost use Rattle.std.specs.Prelude.{◌≡◌, ◌+◌, ◌<◌, ◌≤◌, ◌^◌, ◌++◌, length, IfOk, OnOk};
ghost use Rattle.std.specs.List.{flat_map};
ghost use Rattle.deck_definitions.specs.Definitions.{checks_behind};
ghost use Rattle.deck_values.specs.Values.{shown, seen_from, item_wants, statement_wants, statement_scope, values_from, values_of};

use crate::bounds::push_maybe;
use crate::layer::push_layer;
use crate::placed::{PlacedValue, Wanted};
use crate::push::push;
use deck_names::Scope;
use deck_tree::{Deck, Item, Statement};
use deck_units::ValuePlace;
use std::alloc::{AllocError, Global};

/// The values of the deck, wherever they stand, in the order of its text. Only want of memory is an error, for which a
/// deck of 2^32 statements counts.
pub fn values<'d>(alloc: Global, deck: &'d Deck) -> Result<Vec<PlacedValue<'d>>, AllocError>
    ensures { IfOk result (λ found. shown found.items ≡ values_of deck.entry.now) }
{
    let mut found = Vec::new(alloc);
    let statements = deck.statements.as_slice();
    if statements.len() > u32::MAX as usize {
        return Err(AllocError);
    }
    push_statements(&mut found, statements)?;
    Ok(found)
}

fn push_statements<'d>(
    found: &mut Vec<PlacedValue<'d>>,
    statements: &'d [Statement],
) -> Result<(), AllocError>
    requires few { length statements.now < 2 ^ 32 }
    ensures { OnOk result (shown found.new.items ≡ shown found.old.items ++ values_from 0 statements.entry.now) }
{
    let mut check = 0;
    for statement in statements {
        push_statement(found, scope_of(check, statement), statement)?;
        check = behind(check, statement);
    }
    Ok(())
}

// From where the names in a statement are seen, by the number of the next check.
fn scope_of(check: u32, statement: &Statement) -> Scope
    ensures { result ≡ statement_scope check statement.now }
{
    match statement {
        Statement::Check(_, _) => Scope::Check(check),
        _ => Scope::Everywhere,
    }
}

// The number of the next check behind a statement.
fn behind(check: u32, statement: &Statement) -> u32
    requires few { check + 1 < 2 ^ 32 }
    ensures number { result ≡ checks_behind check statement.now }
    ensures few { result ≤ check + 1 }
{
    match statement {
        Statement::Check(_, _) => check + 1,
        _ => check,
    }
}

fn push_statement<'d>(
    found: &mut Vec<PlacedValue<'d>>,
    scope: Scope,
    statement: &'d Statement,
) -> Result<(), AllocError>
    ensures { OnOk result (shown found.new.items ≡ shown found.old.items ++ seen_from scope (statement_wants statement.entry.now)) }
{
    match statement {
        Statement::MaximumResults(_, most) => {
            push_maybe(
                found,
                scope,
                Wanted::Range(ValuePlace::MaximumResults),
                most,
            )
        }
        Statement::Precision(_, value) => {
            push(
                found,
                scope,
                Wanted::Range(ValuePlace::Precision),
                value.get(),
            )
        }
        Statement::Variable(_, _, value) => push(found, scope, Wanted::Anything, value.get()),
        Statement::Definition(_, layer) => push_layer(found, scope, layer.get()),
        Statement::Check(_, items) => push_items(found, scope, items.as_slice()),
        _ => Ok(()),
    }
}

fn push_items<'d>(
    found: &mut Vec<PlacedValue<'d>>,
    scope: Scope,
    items: &'d [Item],
) -> Result<(), AllocError>
    ensures { OnOk result (shown found.new.items ≡ shown found.old.items ++ seen_from scope (flat_map item_wants items.entry.now)) }
{
    for item in items {
        push_item(found, scope, item)?;
    }
    Ok(())
}

fn push_item<'d>(
    found: &mut Vec<PlacedValue<'d>>,
    scope: Scope,
    item: &'d Item,
) -> Result<(), AllocError>
    ensures { OnOk result (shown found.new.items ≡ shown found.old.items ++ seen_from scope (item_wants item.entry.now)) }
{
    match item {
        Item::Note(_) => Ok(()),
        Item::Definition(_, layer) => push_layer(found, scope, layer.get()),
        Item::Output(layer) => push_layer(found, scope, layer.get()),
    }
}
