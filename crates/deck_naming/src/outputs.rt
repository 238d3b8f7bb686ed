//! Names in the outputs of checks.

ghost use Rattle.std.specs.Prelude.{◌≡◌, ◌++◌, length, IfOk, OnOk};
ghost use Rattle.std.specs.List.{flat_map};
ghost use Rattle.deck_names.specs.Definitions.{IsPlace};
ghost use Rattle.deck_uses.specs.UsedNames.{layer_names};
ghost use Rattle.deck_naming.specs.Undefined.{checked, of_checks, of_item, shown_items, undefined_in};

use crate::undefined::push_undefined;
use deck_graph::Graph;
use deck_names::Scope;
use deck_tree::{DeckRefusal, Item, Layer, Statement};
use deck_uses::push_layer_names;
use std::alloc::{AllocError, Global};

/// Adds the facts of the outputs of checks.
pub(crate) fn push_checks(
    alloc: Global,
    facts: &mut Vec<DeckRefusal>,
    graph: &Graph<'_>,
    statements: &[Statement],
) -> Result<(), AllocError>
    requires { graph.now.checks ≡ length (flat_map checked statements.now) }
    ensures { OnOk result (facts.new.items
        ≡ facts.old.items ++ of_checks graph.now.definitions 0 (flat_map checked statements.now)) }
{
    let checks = items_of_checks(alloc, statements)?;
    if checks.len() > u32::MAX as usize {
        return Err(AllocError);
    }
    for number in 0..checks.len() {
        push_outputs(
            alloc,
            facts,
            graph,
            Scope::Check(number as u32),
            checks[number],
        )?;
    }
    Ok(())
}

// The items of each check, in the order of the deck.
fn items_of_checks<'d>(
    alloc: Global,
    statements: &'d [Statement],
) -> Result<Vec<&'d [Item]>, AllocError>
    ensures { IfOk result (λ checks. shown_items checks.items ≡ flat_map checked statements.entry.now) }
{
    let mut checks = Vec::new(alloc);
    for statement in statements {
        if let Statement::Check(_, items) = statement {
            checks.push(items.as_slice())?;
        }
    }
    Ok(checks)
}

fn push_outputs(
    alloc: Global,
    facts: &mut Vec<DeckRefusal>,
    graph: &Graph<'_>,
    from: Scope,
    items: &[Item],
) -> Result<(), AllocError>
    requires { IsPlace graph.now.checks from }
    ensures { OnOk result (facts.new.items ≡ facts.old.items ++ flat_map (of_item graph.now.definitions from) items.now) }
{
    for item in items {
        push_item(alloc, facts, graph, from, item)?;
    }
    Ok(())
}

fn push_item(
    alloc: Global,
    facts: &mut Vec<DeckRefusal>,
    graph: &Graph<'_>,
    from: Scope,
    item: &Item,
) -> Result<(), AllocError>
    requires { IsPlace graph.now.checks from }
    ensures { OnOk result (facts.new.items ≡ facts.old.items ++ of_item graph.now.definitions from item.now) }
{
    match item {
        Item::Note(_) | Item::Definition(_, _) => Ok(()),
        Item::Output(layer) => push_layer(alloc, facts, graph, from, layer.get()),
    }
}

fn push_layer(
    alloc: Global,
    facts: &mut Vec<DeckRefusal>,
    graph: &Graph<'_>,
    from: Scope,
    layer: &Layer,
) -> Result<(), AllocError>
    requires { IsPlace graph.now.checks from }
    ensures { OnOk result (facts.new.items
        ≡ facts.old.items ++ undefined_in graph.now.definitions from (layer_names layer.now)) }
{
    let mut names = Vec::new(alloc);
    push_layer_names(&mut names, layer)?;
    push_undefined(facts, graph, from, &names)
}
