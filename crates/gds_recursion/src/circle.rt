//! Structures that lead back to themselves.

ghost use Rattle.std.specs.Prelude.{◌≡◌, ◌<◌, ◌≤◌, ◌^◌, length, IfOk};
ghost use Rattle.gds_reach.specs.References.{AreWithin, IsOn, Reaches, Tell};
ghost use Rattle.gds_reach.specs.Facts.{IsFirstPlace};
ghost use Rattle.gds_recursion.specs.Working.Circles.{IsOnCircle};

use crate::uses::uses_of;
use deck_order::order;
use gds_reach::reached;
use std::alloc::{AllocError, Global};

/// The first structure that the primary reaches and that stands on a circle. It fails only for want of memory.
pub(crate) fn first_circle(
    alloc: Global,
    links: &[Vec<Option<u32>>],
    primary: u32,
) -> Result<Option<u32>, AllocError>
    requires few { length links.now ≤ 2 ^ 32 }
    requires within { AreWithin links.now }
    requires there { primary < length links.now }
    ensures { IfOk result (IsFirstPlace (λ i. Reaches links.now primary i × IsOnCircle links.now i)) }
{
    let reached = reached(alloc, links, primary)?;
    let circular = circular(alloc, links)?;
    Ok(first_both(&reached, &circular))
}

/// Flags the structures that stand on a circle. It fails only for want of memory.
fn circular(alloc: Global, links: &[Vec<Option<u32>>]) -> Result<Vec<bool>, AllocError>
    requires few { length links.now ≤ 2 ^ 32 }
    requires within { AreWithin links.now }
    ensures { IfOk result (λ flags. Tell links.now (IsOnCircle links.now) flags.items) }
{
    let uses = uses_of(alloc, links)?;
    let ordered = order(alloc, &uses)?;
    Ok(ordered.cyclic)
}

/// The first structure that is flagged twice.
fn first_both(reached: &[bool], circular: &[bool]) -> Option<u32>
    requires few { length reached.now ≤ 2 ^ 32 }
    requires same { length circular.now ≡ length reached.now }
    ensures { IsFirstPlace (λ i. IsOn reached.now i × IsOn circular.now i) result }
{
    for structure in 0..reached.len() {
        if reached[structure] && circular[structure] {
            return Some(structure as u32);
        }
    }
    None
}
