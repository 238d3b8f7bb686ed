//! Definitions that repeat others.

ghost use Rattle.deck_facts.specs.FirstFacts.{IsFirst};
ghost use Rattle.deck_definition_facts.specs.DefinitionFacts.{IsDuplicate};

use crate::flagged::first_flagged;
use deck_graph::Graph;
use deck_tree::{DeckKind, DeckRefusal};

/// The first of the facts that a definition repeats an earlier one: both give one name, and both are seen from some
/// place. Each stands at the name that the later one gives, also where that is the outer one.
pub fn first_duplicate(graph: &Graph<'_>) -> Option<DeckRefusal>
    ensures { IsFirst (IsDuplicate graph.now.definitions) result }
{
    first_flagged(
        DeckKind::DuplicateName,
        graph.definitions(),
        graph.repeated(),
    )
}
