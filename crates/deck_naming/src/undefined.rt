//! Names that stand for nothing.

ghost use Rattle.std.specs.Prelude.{◌≡◌, ◌++◌, IfOk, OnOk};
ghost use Rattle.std.specs.List.{flat_map};
ghost use Rattle.deck_names.specs.Definitions.{IsPlace};
ghost use Rattle.deck_uses.specs.UsedNames.{shown as shown_names};
ghost use Rattle.deck_graph.specs.Graphs.{outline_of};
ghost use Rattle.deck_naming.specs.Undefined.{undefined, undefined_in, undefined_names, of_definition};

use crate::outputs::push_checks;
use crate::values::push_values;
use deck_graph::{Graph, names_in};
use deck_names::Scope;
use deck_tree::{Deck, DeckKind, DeckRefusal, NameAt};
use std::alloc::{AllocError, Global};

/// The facts that a name stands for nothing where it is used, each at the name: those of definitions, those of the
/// outputs of checks, and those of PRECISION and DRC MAXIMUM RESULTS. Only want of memory is an error, for which a deck of
/// 2^32 checks counts. It takes time in proportion to the deck.
pub fn undefined_names(
    alloc: Global,
    graph: &Graph<'_>,
    deck: &Deck,
) -> Result<Vec<DeckRefusal>, AllocError>
    requires { graph.now ≡ outline_of deck.now }
    ensures { IfOk result (λ facts. facts.items ≡ undefined_names deck.now) }
{
    let mut facts = Vec::new(alloc);
    push_definitions(alloc, &mut facts, graph)?;
    push_checks(alloc, &mut facts, graph, deck.statements.as_slice())?;
    push_values(alloc, &mut facts, graph, deck.statements.as_slice())?;
    Ok(facts)
}

fn push_definitions(
    alloc: Global,
    facts: &mut Vec<DeckRefusal>,
    graph: &Graph<'_>,
) -> Result<(), AllocError>
    ensures { OnOk result (facts.new.items
        ≡ facts.old.items ++ flat_map (of_definition graph.now.definitions) graph.now.definitions) }
{
    let definitions = graph.definitions();
    for one in definitions {
        let names = names_in(alloc, one.body)?;
        push_undefined(facts, graph, one.scope, &names)?;
    }
    Ok(())
}

/// Adds the facts of names that are used at a place.
pub(crate) fn push_undefined(
    facts: &mut Vec<DeckRefusal>,
    graph: &Graph<'_>,
    from: Scope,
    names: &[&NameAt],
) -> Result<(), AllocError>
    requires { IsPlace graph.now.checks from }
    ensures { OnOk result (facts.new.items
        ≡ facts.old.items ++ undefined_in graph.now.definitions from (shown_names names.now)) }
{
    for name in names {
        push_if_undefined(facts, graph, from, name)?;
    }
    Ok(())
}

fn push_if_undefined(
    facts: &mut Vec<DeckRefusal>,
    graph: &Graph<'_>,
    from: Scope,
    name: &NameAt,
) -> Result<(), AllocError>
    requires { IsPlace graph.now.checks from }
    ensures { OnOk result (facts.new.items ≡ facts.old.items ++ undefined graph.now.definitions from name.now) }
{
    if graph.find(from, name.name.bytes()).is_none() {
        facts.push(DeckRefusal {
            at: name.at,
            kind: DeckKind::UndefinedName,
        })?;
    }
    Ok(())
}
