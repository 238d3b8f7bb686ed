//! What definitions are worth.

ghost use Rattle.std.specs.Prelude.{◌≡◌, IfOk};
ghost use Rattle.deck_definitions.specs.Definitions.{meaning_of, worth};
ghost use Rattle.deck_worths.specs.Worths.{AreWorths};
ghost use Rattle.deck_worths.specs.Working.SoFar.{answered, meaning_worth, IsOrderOf};

use crate::evaluation::evaluate_at;
use deck_definitions::{Body, Defined};
use deck_graph::Graph;
use deck_names::Scope;
use deck_order::order;
use deck_tree::{Value, ValueFault};
use drc_num::Frac;
use std::alloc::{AllocError, Global};

/// What each definition of a deck is worth, by its number: a variable the exact number to which its value comes; nothing
/// where that has a fault or rests on what is worth nothing, and where it leads back to itself. A layer is worth nothing.
/// Only want of memory is an error. It takes time in proportion to the deck, however long its definitions lead on.
pub fn worths_of(alloc: Global, graph: &Graph<'_>) -> Result<Vec<Option<Frac>>, AllocError>
    ensures { IfOk result (λ worths. AreWorths graph.now.definitions worths.items) }
{
    let ordered = order(alloc, graph.uses())?;
    worths_in_order(alloc, graph, &ordered.listed)
}

/// The worths, where each definition stands behind those that it uses and that don't lead back to it.
fn worths_in_order(
    alloc: Global,
    graph: &Graph<'_>,
    listed: &[u32],
) -> Result<Vec<Option<Frac>>, AllocError>
    requires { IsOrderOf graph.now.definitions listed.now }
    ensures { IfOk result (λ worths. AreWorths graph.now.definitions worths.items) }
{
    let definitions = graph.definitions();
    let mut worths = vec![in alloc; None; definitions.len()]?;
    for number in listed {
        let place = *number as usize;
        worths[place] = definition_worth(alloc, graph, &worths, &definitions[place])?;
    }
    Ok(worths)
}

/// What a definition is worth, by the worths of those before it.
fn definition_worth(
    alloc: Global,
    graph: &Graph<'_>,
    worths: &[Option<Frac>],
    one: &Defined<'_>,
) -> Result<Option<Frac>, AllocError>
    ensures { IfOk result (λ found.
        found ≡ meaning_worth graph.now.definitions worths.now one.now.scope (meaning_of one.now.body)) }
{
    match one.body {
        Body::Drawn(_) => Ok(None),
        Body::Derived(_) => Ok(None),
        Body::Variable(value) => variable_worth(alloc, graph, worths, one.scope, value),
    }
}

fn variable_worth(
    alloc: Global,
    graph: &Graph<'_>,
    worths: &[Option<Frac>],
    from: Scope,
    value: &Value,
) -> Result<Option<Frac>, AllocError>
    ensures { IfOk result (λ found. found ≡ meaning_worth graph.now.definitions worths.now from (worth value.now)) }
{
    match from {
        Scope::Check(_) => Ok(None),
        Scope::Everywhere => {
            let answer = evaluate_at(alloc, graph, worths, from, value)?;
            Ok(answered(answer))
        }
    }
}

fn answered(answer: Result<Frac, Option<ValueFault>>) -> Option<Frac>
    ensures { result ≡ answered answer }
{
    answer.ok()
}
