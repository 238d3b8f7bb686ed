//! How a walk leaves definitions, and closes groups of them.

ghost use Rattle.std.specs.Prelude.{◌≡◌, ◌⊎◌, ◌↔◌, ℕ, ◌+◌, ◌<◌, ◌≤◌, true, false, [], ◌∷◌, ◌++◌, length, Some, slice_get, OnOk};
ghost use Rattle.deck_order.specs.Uses.{IsUse};
ghost use Rattle.deck_order.specs.Working.Walks.{stage_of, IsWalk, HasNoMore, GoesOn, unseen};
ghost use Rattle.deck_order.specs.Working.Closing.{closed};

use crate::mark::Mark;
use crate::step::Step;
use crate::walk::Walk;
use std::alloc::AllocError;

/// Leaves the last definition on the way, all of whose uses were looked at. Where its group begins with it the group is
/// closed. It fails only for want of memory.
pub(crate) fn leave(uses: &[Vec<u32>], walk: &mut Walk) -> Result<(), AllocError>
    requires walk { IsWalk uses.now (stage_of walk.old) }
    requires way { 0 < length walk.old.path.items }
    requires none { HasNoMore uses.now walk.old.path.items }
    ensures walk { OnOk result (IsWalk uses.now (stage_of walk.new)) }
    ensures way { OnOk result (length walk.new.path.items + 1 ≡ length walk.old.path.items) }
    ensures unseen { OnOk result (unseen walk.new.marks.items ≡ unseen walk.old.marks.items) }
    ensures goes_on { OnOk result (GoesOn walk.old.marks.items walk.new.marks.items) }
{
    if let Some(step) = walk.path.pop() {
        if begins_here(&mut walk.bounds, step.at) {
            let cyclic = is_cyclic(uses, walk.pending.len(), step);
            close(walk, step.at, cyclic)?;
        }
    }
    Ok(())
}

/// Whether the last group begins at a place; its bound is dropped then.
fn begins_here(bounds: &mut Vec<usize>, at: usize) -> bool
    ensures here { result ≡ true → bounds.old.items ≡ bounds.new.items ++ at ∷ [] }
    ensures same { result ≡ false → bounds.new.items ≡ bounds.old.items }
    ensures other { result ≡ false → (m : ℕ) → m + 1 ≡ length bounds.old.items → slice_get bounds.old.items m ≡ Some at → ⊥ }
{
    if bounds.last().copied() != Some(at) {
        return false;
    }
    bounds.pop();
    true
}

/// Whether the definitions of a group lead back to themselves, where it begins with this step and so many are open: there
/// is another, or the one uses itself.
fn is_cyclic(uses: &[Vec<u32>], count: usize, step: Step) -> bool
    requires there { step.definition < length uses.now }
    requires open { step.at < count }
    ensures { (result ≡ true) ↔ ((count ≡ step.at + 1 → ⊥) ⊎ IsUse uses.now step.definition step.definition) }
{
    let used: &[u32] = &uses[step.definition as usize];
    count != step.at + 1 || used.contains(&step.definition)
}

/// Closes the open definitions from a place on, which lead back to themselves or don't. It fails only for want of memory.
fn close(walk: &mut Walk, at: usize, cyclic: bool) -> Result<(), AllocError>
    requires at { at ≤ length walk.old.pending.items }
    requires there { (a u : ℕ) → slice_get walk.old.pending.items a ≡ Some u → u < length walk.old.marks.items }
    requires flags { length walk.old.cyclic.items ≡ length walk.old.marks.items }
    ensures { OnOk result (stage_of walk.new ≡ closed (stage_of walk.old) at cyclic) }
{
    while walk.pending.len() > at {
        if let Some(definition) = walk.pending.pop() {
            walk.marks[definition as usize] = Mark::Closed;
            walk.cyclic[definition as usize] = cyclic;
            walk.listed.push(definition)?;
        }
    }
    Ok(())
}
