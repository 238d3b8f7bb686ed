//! Facts at definitions that have a flag.

ghost use Rattle.std.specs.Prelude.{◌≡◌, length, Some, None, if◌then◌else◌};
ghost use Rattle.deck_definitions.specs.Definitions.{shown, entry_of};
ghost use Rattle.deck_facts.specs.FirstFacts.{IsFirst};
ghost use Rattle.deck_definition_facts.specs.DefinitionFacts.{said_of};
ghost use Rattle.deck_definition_facts.specs.Working.Flags.{IsFlagged};

use deck_definitions::Defined;
use deck_facts::first_of;
use deck_tree::{DeckKind, DeckRefusal};

/// The first of the facts of a kind at the definitions that have a flag.
pub(crate) fn first_flagged(
    kind: DeckKind,
    definitions: &[Defined<'_>],
    flags: &[bool],
) -> Option<DeckRefusal>
    requires { length flags.now ≡ length definitions.now }
    ensures { IsFirst (IsFlagged kind (shown definitions.now) flags.now) result }
{
    let mut first = None;
    for number in 0..definitions.len() {
        first = first_of(first, fact_of(kind, &definitions[number], flags[number]));
    }
    first
}

// The fact at a definition, if it has a flag.
fn fact_of(kind: DeckKind, defined: &Defined<'_>, has_flag: bool) -> Option<DeckRefusal>
    ensures { result ≡ (if has_flag then Some (said_of kind (entry_of defined.now)) else None) }
{
    if has_flag {
        Some(DeckRefusal {
            at: defined.name.at,
            kind,
        })
    } else {
        None
    }
}
