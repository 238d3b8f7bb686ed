//! The order.

ghost use Rattle.std.specs.Prelude.{◌≡◌, ◌<◌, ◌≤◌, ◌^◌, [], length, Some, slice_get, IfOk, OnOk};
ghost use Rattle.deck_order.specs.declared.mark.Mark.TheVariants.{Closed};
ghost use Rattle.deck_order.specs.Uses.{AreWithin};
ghost use Rattle.deck_order.specs.Orders.{ListsEach, StandBehindUses, TellCyclic};
ghost use Rattle.deck_order.specs.Working.Walks.{stage_of, IsWalk, GoesOn};

use crate::leave::leave;
use crate::look::look;
use crate::mark::is_unseen;
use crate::walk::{Walk, enter, start};
use std::alloc::{AllocError, Global};

/// An order of definitions.
#[derive(Debug, Drop)]
pub struct Ordered {
    /// Each definition, by number, behind those that it uses and that don't lead back to it.
    pub listed: Vec<u32>,
    /// Whether a definition leads back to itself, by number.
    pub cyclic: Vec<bool>,
}

/// Orders definitions: `uses` has, for each of them, the numbers of those that it uses. It fails only for want of memory.
/// It takes time in proportion to the number of definitions and uses, however long they lead on.
pub fn order(alloc: Global, uses: &[Vec<u32>]) -> Result<Ordered, AllocError>
    requires few { length uses.now ≤ 2 ^ 32 }
    requires within { AreWithin uses.now }
    ensures each { IfOk result (λ o. ListsEach (length uses.now) o.listed.items) }
    ensures behind { IfOk result (λ o. StandBehindUses uses.now o.listed.items) }
    ensures cyclic { IfOk result (λ o. TellCyclic uses.now o.cyclic.items) }
{
    let mut walk = start(alloc, uses.len())?;
    for root in 0..uses.len() {
        visit(uses, &mut walk, root as u32)?;
    }
    let Walk { listed, cyclic, .. } = walk;
    Ok(Ordered { listed, cyclic })
}

/// Goes from a definition as far as its uses lead, where the walk hasn't come to it. It fails only for want of memory.
fn visit(uses: &[Vec<u32>], walk: &mut Walk, root: u32) -> Result<(), AllocError>
    requires walk { IsWalk uses.now (stage_of walk.old) }
    requires within { AreWithin uses.now }
    requires rests { walk.old.path.items ≡ [] }
    requires there { root < length uses.now }
    ensures walk { OnOk result (IsWalk uses.now (stage_of walk.new)) }
    ensures rests { OnOk result (walk.new.path.items ≡ []) }
    ensures closed { OnOk result (slice_get walk.new.marks.items root ≡ Some Closed) }
    ensures goes_on { OnOk result (GoesOn walk.old.marks.items walk.new.marks.items) }
{
    if !is_unseen(walk.marks[root as usize]) {
        return Ok(());
    }
    enter(walk, root)?;
    go_on(uses, walk)?;
    Ok(())
}

/// Goes on to the end of the way. It fails only for want of memory.
fn go_on(uses: &[Vec<u32>], walk: &mut Walk) -> Result<(), AllocError>
    requires walk { IsWalk uses.now (stage_of walk.old) }
    requires within { AreWithin uses.now }
    ensures walk { OnOk result (IsWalk uses.now (stage_of walk.new)) }
    ensures way { OnOk result (walk.new.path.items ≡ []) }
    ensures goes_on { OnOk result (GoesOn walk.old.marks.items walk.new.marks.items) }
{
    while !walk.path.is_empty() {
        match look(uses, walk) {
            Some(used) => enter(walk, used)?,
            None => leave(uses, walk)?,
        }
    }
    Ok(())
}
