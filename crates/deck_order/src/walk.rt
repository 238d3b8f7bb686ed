//! The walk, and how it opens definitions.

ghost use Rattle.std.specs.Prelude.{◌≡◌, ◌<◌, [], length, replicate, false, IfOk, OnOk};
ghost use Rattle.deck_order.specs.declared.mark.Mark.TheVariants.{Unseen};
ghost use Rattle.deck_order.specs.Working.Walks.{entered, stage_of};

use crate::mark::Mark;
use crate::step::Step;
use std::alloc::{AllocError, Global};

/// How far a walk has come.
#[derive(Drop)]
pub(crate) struct Walk {
    pub(crate) marks: Vec<Mark>,
    /// The open definitions, group by group.
    pub(crate) pending: Vec<u32>,
    /// Where each group begins.
    pub(crate) bounds: Vec<usize>,
    /// The way from the definition that the walk began with.
    pub(crate) path: Vec<Step>,
    /// The closed definitions.
    pub(crate) listed: Vec<u32>,
    /// Which closed definitions lead back to themselves.
    pub(crate) cyclic: Vec<bool>,
}

/// A walk that has come to none of so many definitions. It fails only for want of memory.
pub(crate) fn start(alloc: Global, count: usize) -> Result<Walk, AllocError>
    ensures { IfOk result (λ w. stage_of w ≡ record { marks = replicate count Unseen; pending = []; bounds = []; path = []; listed = []; cyclic = replicate count false }) }
{
    Ok(Walk {
        marks: vec![in alloc; Mark::Unseen; count]?,
        pending: Vec::new(alloc),
        bounds: Vec::new(alloc),
        path: Vec::new(alloc),
        listed: Vec::new(alloc),
        cyclic: vec![in alloc; false; count]?,
    })
}

/// Opens a definition, as the last on the way and in a group of its own. It fails only for want of memory.
pub(crate) fn enter(walk: &mut Walk, definition: u32) -> Result<(), AllocError>
    requires { definition < length walk.old.marks.items }
    ensures { OnOk result (stage_of walk.new ≡ entered (stage_of walk.old) definition) }
{
    let at = walk.pending.len();
    walk.pending.push(definition)?;
    walk.bounds.push(at)?;
    walk.path.push(Step {
        definition,
        at,
        next: 0,
    })?;
    walk.marks[definition as usize] = Mark::Open(at);
    Ok(())
}
