//! Names in the values of PRECISION and DRC MAXIMUM RESULTS.

ghost use Rattle.std.specs.Prelude.{◌≡◌, ◌++◌, OnOk};
ghost use Rattle.std.specs.List.{flat_map};
ghost use Rattle.deck_names.specs.declared.definition.Scope.TheVariants.{Everywhere};
ghost use Rattle.deck_uses.specs.UsedNames.{value_names};
ghost use Rattle.deck_naming.specs.Undefined.{undefined_in, of_statement};

use crate::undefined::push_undefined;
use deck_graph::Graph;
use deck_names::Scope;
use deck_tree::{DeckRefusal, Statement, Value};
use deck_uses::push_value_names;
use std::alloc::{AllocError, Global};

/// Adds the facts of values that stand outside checks and in no definition.
pub(crate) fn push_values(
    alloc: Global,
    facts: &mut Vec<DeckRefusal>,
    graph: &Graph<'_>,
    statements: &[Statement],
) -> Result<(), AllocError>
    ensures { OnOk result (facts.new.items
        ≡ facts.old.items ++ flat_map (of_statement graph.now.definitions) statements.now) }
{
    for statement in statements {
        push_statement(alloc, facts, graph, statement)?;
    }
    Ok(())
}

fn push_statement(
    alloc: Global,
    facts: &mut Vec<DeckRefusal>,
    graph: &Graph<'_>,
    statement: &Statement,
) -> Result<(), AllocError>
    ensures { OnOk result (facts.new.items ≡ facts.old.items ++ of_statement graph.now.definitions statement.now) }
{
    match statement {
        Statement::Precision(_, value) => push_value(alloc, facts, graph, value.get()),
        Statement::MaximumResults(_, Some(most)) => push_value(alloc, facts, graph, most.get()),
        _ => Ok(()),
    }
}

fn push_value(
    alloc: Global,
    facts: &mut Vec<DeckRefusal>,
    graph: &Graph<'_>,
    value: &Value,
) -> Result<(), AllocError>
    ensures { OnOk result (facts.new.items
        ≡ facts.old.items ++ undefined_in graph.now.definitions Everywhere (value_names value.now)) }
{
    let mut names = Vec::new(alloc);
    push_value_names(&mut names, value)?;
    push_undefined(facts, graph, Scope::Everywhere, &names)
}
