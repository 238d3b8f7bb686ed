//! What is known of the names in a value.

ghost use Rattle.std.specs.Prelude.{◌≡◌, ◌≢◌, List, ℕ, IfOk, OnOk, Some, None};
ghost use Rattle.std.specs.List.{AllByRecursion};
ghost use Rattle.deck_tree.specs.KnownNames.{names_of};
ghost use Rattle.deck_tree.specs.declared.name_at.NameAt.{NameAt as NameAtValue};
ghost use Rattle.deck_names.specs.Definitions.{IsPlace};
ghost use Rattle.deck_uses.specs.UsedNames.{shown as shown_names};
ghost use Rattle.deck_graph.specs.Graphs.{number_for};
ghost use Rattle.deck_worths.specs.Worths.{names_at, worth_at};

use deck_graph::Graph;
use deck_names::Scope;
use deck_tree::{NameAt, Vars};
use drc_geom::Name;
use drc_num::Frac;
use std::alloc::{AllocError, Global};

/// What is known of names, by the worths of the definitions for which they stand at a place.
pub fn known(
    alloc: Global,
    graph: &Graph<'_>,
    worths: &[Option<Frac>],
    from: Scope,
    used: &[&NameAt],
) -> Result<Vars, AllocError>
    requires { IsPlace graph.now.checks from }
    ensures { IfOk result (λ vars.
        AllByRecursion (λ (x : NameAtValue). names_of vars x.name ≡ names_at graph.now.definitions worths.now from x.name)
        (shown_names used.now)) }
{
    let mut vars = Vars::new(alloc);
    for name in used {
        let worth = name_worth(graph, worths, from, name.name.bytes());
        tell(&mut vars, &name.name, worth)?;
    }
    Ok(vars)
}

/// The worth of the definition for which a name stands at a place, if it stands for one and that has one.
fn name_worth(graph: &Graph<'_>, worths: &[Option<Frac>], from: Scope, name: &[u8]) -> Option<Frac>
    requires { IsPlace graph.now.checks from }
    ensures { result ≡ worth_at worths.now (number_for graph.now.definitions from name.now) }
{
    match graph.find(from, name) {
        None => None,
        Some(number) => worth_of(worths, number),
    }
}

fn worth_of(worths: &[Option<Frac>], number: u32) -> Option<Frac>
    ensures { result ≡ worth_at worths.now (Some number) }
{
    match worths.get(number as usize) {
        None => None,
        Some(worth) => *worth,
    }
}

/// Adds what is known of a name, where nothing is so far.
fn tell(vars: &mut Vars, name: &Name, worth: Option<Frac>) -> Result<(), AllocError>
    ensures told { OnOk result (names_of vars.old name.now ≡ None → names_of vars.new name.now ≡ Some worth) }
    ensures kept { OnOk result (names_of vars.old name.now ≢ None → names_of vars.new name.now ≡ names_of vars.old name.now) }
    ensures others { OnOk result ((q : List ℕ) → q ≢ name.now → names_of vars.new q ≡ names_of vars.old q) }
{
    if vars.find(name.bytes()).is_some() {
        return Ok(());
    }
    match worth {
        Some(number) => vars.add(name, number),
        None => vars.add_refused(name),
    }
}
