//! The checks of a deck.

ghost use Rattle.std.specs.Prelude.{◌≡◌, ◌++◌, IfOk, OnOk};
ghost use Rattle.std.specs.List.{flat_map};
ghost use Rattle.deck_counts.specs.Outputs.{statement_checks, checks_of};

use crate::operation_places::push;
use deck_tree::{Deck, Statement};
use std::alloc::{AllocError, Global};

/// The offsets of the names of the deck's checks, in its order. Only want of memory is an error.
pub fn checks(alloc: Global, deck: &Deck) -> Result<Vec<u64>, AllocError>
    ensures { IfOk result (λ places. places.items ≡ checks_of deck.now) }
{
    let mut places = Vec::new(alloc);
    push_statements(&mut places, deck.statements.as_slice())?;
    Ok(places)
}

fn push_statements(places: &mut Vec<u64>, statements: &[Statement]) -> Result<(), AllocError>
    ensures { OnOk result (places.new.items ≡ places.old.items ++ flat_map statement_checks statements.now) }
{
    for statement in statements {
        push_statement(places, statement)?;
    }
    Ok(())
}

fn push_statement(places: &mut Vec<u64>, statement: &Statement) -> Result<(), AllocError>
    ensures { OnOk result (places.new.items ≡ places.old.items ++ statement_checks statement.now) }
{
    match statement {
        Statement::LayoutSystem(_)
        | Statement::LayoutPath(_, _)
        | Statement::LayoutPrimary(_, _)
        | Statement::ResultsDatabase(_, _)
        | Statement::SummaryReport(_, _)
        | Statement::MaximumResults(_, _)
        | Statement::SelectCheck(_, _)
        | Statement::UnselectCheck(_, _)
        | Statement::Precision(_, _)
        | Statement::Title(_, _)
        | Statement::Variable(_, _, _)
        | Statement::Layer(_, _, _)
        | Statement::LayerMap(_, _)
        | Statement::Definition(_, _) => Ok(()),
        Statement::Check(name, _) => push(places, name.at),
    }
}
