//! The outputs of a deck's checks.

ghost use Rattle.std.specs.Prelude.{◌≡◌, ◌++◌, IfOk, OnOk};
ghost use Rattle.std.specs.List.{flat_map};
ghost use Rattle.deck_counts.specs.Outputs.{layer_start, item_outputs, statement_outputs, outputs_of};

use crate::operation_places::push;
use deck_tree::{Deck, Item, Layer, Primary, Statement, Term};
use std::alloc::{AllocError, Global};

/// The offsets of the first tokens of the outputs of the deck's checks, in its order. Only want of memory is an error.
pub fn outputs(alloc: Global, deck: &Deck) -> Result<Vec<u64>, AllocError>
    ensures { IfOk result (λ places. places.items ≡ outputs_of deck.now) }
{
    let mut places = Vec::new(alloc);
    push_statements(&mut places, deck.statements.as_slice())?;
    Ok(places)
}

fn push_statements(places: &mut Vec<u64>, statements: &[Statement]) -> Result<(), AllocError>
    ensures { OnOk result (places.new.items ≡ places.old.items ++ flat_map statement_outputs statements.now) }
{
    for statement in statements {
        push_statement(places, statement)?;
    }
    Ok(())
}

fn push_statement(places: &mut Vec<u64>, statement: &Statement) -> Result<(), AllocError>
    ensures { OnOk result (places.new.items ≡ places.old.items ++ statement_outputs statement.now) }
{
    match statement {
        Statement::LayoutSystem(_)
        | Statement::LayoutPath(_, _)
        | Statement::LayoutPrimary(_, _)
        | Statement::ResultsDatabase(_, _)
        | Statement::SummaryReport(_, _)
        | Statement::MaximumResults(_, _)
        | Statement::SelectCheck(_, _)
        | Statement::UnselectCheck(_, _)
        | Statement::Precision(_, _)
        | Statement::Title(_, _)
        | Statement::Variable(_, _, _)
        | Statement::Layer(_, _, _)
        | Statement::LayerMap(_, _)
        | Statement::Definition(_, _) => Ok(()),
        Statement::Check(_, items) => push_items(places, items.as_slice()),
    }
}

fn push_items(places: &mut Vec<u64>, items: &[Item]) -> Result<(), AllocError>
    ensures { OnOk result (places.new.items ≡ places.old.items ++ flat_map item_outputs items.now) }
{
    for item in items {
        push_item(places, item)?;
    }
    Ok(())
}

fn push_item(places: &mut Vec<u64>, item: &Item) -> Result<(), AllocError>
    ensures { OnOk result (places.new.items ≡ places.old.items ++ item_outputs item.now) }
{
    match item {
        Item::Note(_) | Item::Definition(_, _) => Ok(()),
        Item::Output(layer) => push(places, start_of(layer.get())),
    }
}

// The offset of the first token.
fn start_of(layer: &Layer) -> u64
    ensures { result ≡ layer_start layer.now }
{
    match &layer.first {
        Primary::Term(Term::Name(name)) => name.at,
        Primary::Term(Term::Bracketed(at, _)) => *at,
        Primary::Prefix(at, _) => *at,
        Primary::Distance(at, _) => *at,
    }
}
