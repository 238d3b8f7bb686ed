//! The graph of a deck's definitions.

ghost use Rattle.std.specs.Prelude.{◌≡◌, ◌<◌, ◌^◌, length, map, IfOk};
ghost use Rattle.deck_names.specs.Definitions.{IsPlace};
ghost use Rattle.deck_definitions.specs.Definitions.{shown};
ghost use Rattle.deck_order.specs.Uses.{AreWithin};
ghost use Rattle.deck_graph.specs.Graphs.{outline_of, number_for, numbers, uses_of, StandAtPlaces, TellRepeated};

use crate::naming::{define_all, open_checks};
use crate::uses::all_uses;
use deck_definitions::{Defined, definitions};
use deck_names::{Names, Scope};
use deck_tree::Deck;
use std::alloc::{AllocError, Global};
use std::marker::Model;

/// The definitions of a deck, for which of them a name stands, and what each uses. Contracts see the definitions, and how
/// many checks the deck has.
#[derive(Drop)]
pub struct Graph<'d> {
    definitions: Vec<Defined<'d>>,
    names: Names<'d>,
    repeated: Vec<bool>,
    uses: Vec<Vec<u32>>,
}

impl<'d> Model for Graph<'d> {
    ghost use Rattle.std.specs.Coded.{codes};
    ghost use Rattle.deck_tree.specs.contracts.layer.Layer as layer;
    ghost use Rattle.deck_tree.specs.contracts.value.Value as value;
    ghost use Rattle.deck_definitions.specs.Definitions.{shown};
    ghost use Rattle.deck_graph.specs.Graphs.{Outline};
    ghost use Rattle.deck_graph.specs.Kept.{IsGraph};

    ghost Value = { Outline };

    ghost coded = { Prim.hlevel (codes, layer.the_row.coded, value.the_row.coded) };

    ghost view = { λ g. record { definitions = shown g.definitions.items; checks = g.names.checks } };

    ghost invariant = { λ g. IsGraph g.definitions.items g.names g.repeated.items g.uses.items };
}

/// The graph of a deck. Only want of memory is an error, for which a deck of 2^32 statements or definitions counts. It
/// takes time in proportion to the deck.
pub fn graph_of<'d>(alloc: Global, deck: &'d Deck) -> Result<Graph<'d>, AllocError>
    ensures { IfOk result (λ g. g ≡ outline_of deck.entry.now) }
{
    let statements = deck.statements.as_slice();
    let definitions = definitions(alloc, deck)?;
    if statements.len() > u32::MAX as usize || definitions.len() > u32::MAX as usize {
        return Err(AllocError);
    }
    let mut names = Names::new(alloc);
    open_checks(&mut names, statements)?;
    let repeated = define_all(alloc, &mut names, &definitions)?;
    let uses = all_uses(alloc, &names, &definitions)?;
    Ok(Graph {
        definitions,
        names,
        repeated,
        uses,
    })
}

impl<'d> Graph<'d> {
    /// The definitions in the order of the deck's text. The number of a definition is its place.
    pub fn definitions(&self) -> &[Defined<'d>]
        ensures all { shown result.now ≡ self.now.definitions }
        ensures places { StandAtPlaces self.now.checks self.now.definitions }
    {
        &self.definitions
    }

    /// The number of the definition for which a name stands at a place: the first that has it and is seen from there,
    /// wherever in the deck that stands.
    pub fn find(&self, from: Scope, name: &[u8]) -> Option<u32>
        requires { IsPlace self.now.checks from }
        ensures { result ≡ number_for self.now.definitions from name.now }
    {
        self.names.find(from, name)
    }

    /// Whether each definition repeats an earlier one: one with its name, where both are seen from some place.
    pub fn repeated(&self) -> &[bool]
        ensures { TellRepeated self.now.definitions result.now }
    {
        &self.repeated
    }

    /// The numbers of the definitions that each uses, in the order of its text. A name for which there is none is left
    /// out.
    pub fn uses(&self) -> &[Vec<u32>]
        ensures uses { numbers result.now ≡ map (uses_of self.now.definitions) self.now.definitions }
        ensures within { AreWithin result.now }
        ensures few { length result.now < 2 ^ 32 }
    {
        &self.uses
    }
}
