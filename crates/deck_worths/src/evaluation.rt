//! To what values come.

ghost use Rattle.std.specs.Prelude.{◌≡◌, IfOk};
ghost use Rattle.deck_tree.specs.Worths.{answer, value_worth};
ghost use Rattle.deck_names.specs.Definitions.{IsPlace};
ghost use Rattle.deck_worths.specs.Worths.{names_at};

use crate::known::known;
use deck_graph::Graph;
use deck_names::Scope;
use deck_tree::{Value, ValueFault, evaluate};
use deck_uses::push_value_names;
use drc_num::Frac;
use std::alloc::{AllocError, Global};

/// The exact number to which a value comes that stands at a place of the deck, by the worths of its definitions. Where
/// the value has faults the answer is the first of them, a number or a result out of range or a division by 0. Where it
/// has none and rests on a name that comes to nothing, it comes to nothing itself, which is `Err(None)`. Only want of
/// memory is an error.
pub fn evaluate_at(
    alloc: Global,
    graph: &Graph<'_>,
    worths: &[Option<Frac>],
    from: Scope,
    value: &Value,
) -> Result<Result<Frac, Option<ValueFault>>, AllocError>
    requires { IsPlace graph.now.checks from }
    ensures { IfOk result (λ a.
        a ≡ answer (value_worth (names_at graph.now.definitions worths.now from) value.now)) }
{
    let mut used = Vec::new(alloc);
    push_value_names(&mut used, value)?;
    let vars = known(alloc, graph, worths, from, &used)?;
    Ok(evaluate(value, &vars))
}
