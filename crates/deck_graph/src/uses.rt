//! What definitions use.

ghost use Rattle.std.specs.Prelude.{◌≡◌, map, IfOk};
ghost use Rattle.std.specs.List.{filter_map};
ghost use Rattle.deck_names.specs.Definitions.{IsPlace, stands_for};
ghost use Rattle.deck_uses.specs.UsedNames.{shown as shown_names};
ghost use Rattle.deck_definitions.specs.Definitions.{shown, entry_of, meaning_of};
ghost use Rattle.deck_graph.specs.Graphs.{used_names, numbers, StandAtPlaces};
ghost use Rattle.deck_graph.specs.Working.Finding.{uses_by};

use deck_definitions::{Body, Defined};
use deck_names::{Names, Scope};
use deck_tree::NameAt;
use deck_uses::{push_layer_names, push_value_names};
use std::alloc::{AllocError, Global};

/// The names that stand in what a name stands for, in the order of its text. Only want of memory is an error.
pub fn names_in<'d>(alloc: Global, body: Body<'d>) -> Result<Vec<&'d NameAt>, AllocError>
    ensures { IfOk result (λ names. shown_names names.items ≡ used_names (meaning_of body.entry)) }
{
    let mut names = Vec::new(alloc);
    match body {
        Body::Drawn(_) => {}
        Body::Derived(layer) => push_layer_names(&mut names, layer)?,
        Body::Variable(value) => push_value_names(&mut names, value)?,
    }
    Ok(names)
}

// The numbers of the definitions for which these names stand at a place; a name for which there is none is left out.
fn found(
    alloc: Global,
    names: &Names<'_>,
    from: Scope,
    used: &[&NameAt],
) -> Result<Vec<u32>, AllocError>
    requires { IsPlace names.now.checks from }
    ensures { IfOk result (λ uses. uses.items ≡ filter_map (λ name. stands_for names.now.definitions from name.name) (shown_names used.now)) }
{
    let mut uses = Vec::new(alloc);
    for name in used {
        if let Some(number) = names.find(from, name.name.bytes()) {
            uses.push(number)?;
        }
    }
    Ok(uses)
}

// The numbers of the definitions that this one uses.
fn uses_by(alloc: Global, names: &Names<'_>, one: &Defined<'_>) -> Result<Vec<u32>, AllocError>
    requires { IsPlace names.now.checks one.now.scope }
    ensures { IfOk result (λ uses. uses.items ≡ uses_by names.now.definitions (entry_of one.now)) }
{
    let used = names_in(alloc, one.body)?;
    found(alloc, names, one.scope, &used)
}

/// The numbers of the definitions that each of these uses.
pub fn all_uses(
    alloc: Global,
    names: &Names<'_>,
    definitions: &[Defined<'_>],
) -> Result<Vec<Vec<u32>>, AllocError>
    requires { StandAtPlaces names.now.checks (shown definitions.now) }
    ensures { IfOk result (λ uses. numbers uses.items ≡ map (uses_by names.now.definitions) (shown definitions.now)) }
{
    let mut uses = Vec::new(alloc);
    for one in definitions {
        uses.push(uses_by(alloc, names, one)?)?;
    }
    Ok(uses)
}
