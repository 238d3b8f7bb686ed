//! The operations of a deck.

ghost use Rattle.std.specs.Prelude.{◌≡◌, ◌++◌, ◌∷◌, [], IfOk, OnOk};
ghost use Rattle.std.specs.List.{flat_map};
ghost use Rattle.deck_counts.specs.Operations.{prefix_operations, primary_operations, term_operations, layer_operations, operation_operations, item_operations, statement_operations, operations_of};

use deck_tree::{Deck, Item, Layer, Operation, Prefix, Primary, Statement, Term};
use std::alloc::{AllocError, Global};

/// The offsets of the first keywords of the deck's operations, in its order: each LAYER statement, and all operations
/// in layers but COPY. Only want of memory is an error.
pub fn operations(alloc: Global, deck: &Deck) -> Result<Vec<u64>, AllocError>
    ensures { IfOk result (λ places. places.items ≡ operations_of deck.now) }
{
    let mut places = Vec::new(alloc);
    push_statements(&mut places, deck.statements.as_slice())?;
    Ok(places)
}

fn push_statements(places: &mut Vec<u64>, statements: &[Statement]) -> Result<(), AllocError>
    ensures { OnOk result (places.new.items ≡ places.old.items ++ flat_map statement_operations statements.now) }
{
    for statement in statements {
        push_statement(places, statement)?;
    }
    Ok(())
}

fn push_statement(places: &mut Vec<u64>, statement: &Statement) -> Result<(), AllocError>
    ensures { OnOk result (places.new.items ≡ places.old.items ++ statement_operations statement.now) }
{
    match statement {
        Statement::LayoutSystem(_)
        | Statement::LayoutPath(_, _)
        | Statement::LayoutPrimary(_, _)
        | Statement::ResultsDatabase(_, _)
        | Statement::SummaryReport(_, _)
        | Statement::MaximumResults(_, _)
        | Statement::SelectCheck(_, _)
        | Statement::UnselectCheck(_, _)
        | Statement::Precision(_, _)
        | Statement::Title(_, _)
        | Statement::Variable(_, _, _)
        | Statement::LayerMap(_, _) => Ok(()),
        Statement::Layer(at, _, _) => push(places, *at),
        Statement::Definition(_, layer) => push_layer(places, layer.get()),
        Statement::Check(_, items) => push_items(places, items.as_slice()),
    }
}

fn push_items(places: &mut Vec<u64>, items: &[Item]) -> Result<(), AllocError>
    ensures { OnOk result (places.new.items ≡ places.old.items ++ flat_map item_operations items.now) }
{
    for item in items {
        push_item(places, item)?;
    }
    Ok(())
}

fn push_item(places: &mut Vec<u64>, item: &Item) -> Result<(), AllocError>
    ensures { OnOk result (places.new.items ≡ places.old.items ++ item_operations item.now) }
{
    match item {
        Item::Note(_) => Ok(()),
        Item::Definition(_, layer) => push_layer(places, layer.get()),
        Item::Output(layer) => push_layer(places, layer.get()),
    }
}

#[cycle(layers)]
fn push_layer(places: &mut Vec<u64>, layer: &Layer) -> Result<(), AllocError>
    ensures { OnOk result (places.new.items ≡ places.old.items ++ layer_operations layer.now) }
{
    push_primary(places, &layer.first)?;
    for operation in layer.more.as_slice() {
        push_operation(places, operation)?;
    }
    Ok(())
}

#[cycle(layers)]
fn push_operation(places: &mut Vec<u64>, operation: &Operation) -> Result<(), AllocError>
    ensures { OnOk result (places.new.items ≡ places.old.items ++ operation_operations operation.now) }
{
    push(places, operation.at)?;
    push_primary(places, &operation.right)
}

#[cycle(layers)]
fn push_primary(places: &mut Vec<u64>, primary: &Primary) -> Result<(), AllocError>
    ensures { OnOk result (places.new.items ≡ places.old.items ++ primary_operations primary.now) }
{
    match primary {
        Primary::Term(term) => push_term(places, term),
        Primary::Prefix(at, prefix) => push_prefix(places, *at, prefix.get()),
        Primary::Distance(at, _) => push(places, *at),
    }
}

#[cycle(layers)]
fn push_prefix(places: &mut Vec<u64>, at: u64, prefix: &Prefix) -> Result<(), AllocError>
    ensures { OnOk result (places.new.items ≡ places.old.items ++ prefix_operations prefix.now at) }
{
    match prefix {
        Prefix::Copy(term) => push_term(places, term),
        Prefix::Rectangle(term) => push_with(places, at, term),
        Prefix::Area(term, _) => push_with(places, at, term),
        Prefix::Length(term, _) => push_with(places, at, term),
        Prefix::Size(term, _, _) => push_with(places, at, term),
        Prefix::Angle(term, _) => push_with(places, at, term),
        Prefix::Expand(term, _, _) => push_with(places, at, term),
    }
}

#[cycle(layers)]
fn push_with(places: &mut Vec<u64>, at: u64, term: &Term) -> Result<(), AllocError>
    ensures { OnOk result (places.new.items ≡ places.old.items ++ at ∷ term_operations term.now) }
{
    push(places, at)?;
    push_term(places, term)
}

#[cycle(layers)]
fn push_term(places: &mut Vec<u64>, term: &Term) -> Result<(), AllocError>
    ensures { OnOk result (places.new.items ≡ places.old.items ++ term_operations term.now) }
{
    match term {
        Term::Name(_) => Ok(()),
        Term::Bracketed(_, layer) => push_layer(places, layer.get()),
    }
}

/// Adds a place.
pub(crate) fn push(places: &mut Vec<u64>, at: u64) -> Result<(), AllocError>
    ensures { OnOk result (places.new.items ≡ places.old.items ++ at ∷ []) }
{
    places.push(at)?;
    Ok(())
}
