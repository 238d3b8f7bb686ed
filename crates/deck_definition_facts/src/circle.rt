//! Definitions that lead back to themselves.

ghost use Rattle.std.specs.Prelude.{IfOk};
ghost use Rattle.deck_facts.specs.FirstFacts.{IsFirst};
ghost use Rattle.deck_definition_facts.specs.DefinitionFacts.{IsCircle};

use crate::flagged::first_flagged;
use deck_graph::Graph;
use deck_order::order;
use deck_tree::{DeckKind, DeckRefusal};
use std::alloc::{AllocError, Global};

/// The first of the facts that a definition leads back to itself, by itself or by others. Each stands at the name that the
/// definition gives. Only want of memory is an error. It takes time in proportion to the definitions and their uses,
/// however long they lead on.
pub fn first_circle(alloc: Global, graph: &Graph<'_>) -> Result<Option<DeckRefusal>, AllocError>
    ensures { IfOk result (IsFirst (IsCircle graph.now.definitions)) }
{
    let ordered = order(alloc, graph.uses())?;
    Ok(first_flagged(DeckKind::LayerCycle, graph.definitions(), &ordered.cyclic))
}
