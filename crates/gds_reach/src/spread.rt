//! Which structures references reach.

ghost use Rattle.std.specs.Prelude.{◌≡◌, ◌⊎◌, ◌↔◌, ◌<◌, ℕ, [], length, IfOk, OnOk};
ghost use Rattle.gds_reach.specs.References.{AreWithin, IsClosed, IsOn, Reaches, Tell};
ghost use Rattle.gds_reach.specs.Working.Spreading.{AreMet, IsSpread, work};

use crate::mark::{mark, mark_all};
use std::alloc::{AllocError, Global};

/// Flags the structures that references reach from the primary, itself among them. It fails only for want of memory. It
/// takes time in proportion to the number of structures and references.
pub fn reached(
    alloc: Global,
    links: &[Vec<Option<u32>>],
    primary: u32,
) -> Result<Vec<bool>, AllocError>
    requires within { AreWithin links.now }
    requires there { primary < length links.now }
    ensures { IfOk result (λ flags. Tell links.now (Reaches links.now primary) flags.items) }
{
    let mut flags = vec![in alloc; false; links.len()]?;
    spread_from(alloc, links, &mut flags, primary)?;
    Ok(flags)
}

/// Flags what references reach from a structure, besides what is flagged: from there references lead only to what is
/// flagged too. It fails only for want of memory.
pub fn spread_from(
    alloc: Global,
    links: &[Vec<Option<u32>>],
    flags: &mut [bool],
    from: u32,
) -> Result<(), AllocError>
    requires within { AreWithin links.now }
    requires all { length flags.old ≡ length links.now }
    requires closed { IsClosed links.now flags.old }
    requires there { from < length links.now }
    ensures closed { OnOk result (IsClosed links.now flags.new) }
    ensures each { OnOk result ((j : ℕ)
        → IsOn flags.new j ↔ (IsOn flags.old j ⊎ Reaches links.now from j)) }
{
    let mut waiting = Vec::new(alloc);
    mark(flags, &mut waiting, from)?;
    go_on(links, flags, &mut waiting)?;
    Ok(())
}

/// Goes on until none waits. It fails only for want of memory.
fn go_on(
    links: &[Vec<Option<u32>>],
    flags: &mut [bool],
    waiting: &mut Vec<u32>,
) -> Result<(), AllocError>
    requires within { AreWithin links.now }
    requires all { length flags.old ≡ length links.now }
    requires met { AreMet links.now flags.old waiting.old.items }
    ensures spread { OnOk result (IsSpread links.now flags.old flags.new waiting.new.items) }
    ensures rests { OnOk result (waiting.new.items ≡ []) }
{
    while !waiting.is_empty() {
        step(links, flags, waiting)?;
    }
    Ok(())
}

/// Flags what the last structure that waits names, in place of it. It fails only for want of memory.
fn step(
    links: &[Vec<Option<u32>>],
    flags: &mut [bool],
    waiting: &mut Vec<u32>,
) -> Result<(), AllocError>
    requires within { AreWithin links.now }
    requires all { length flags.old ≡ length links.now }
    requires met { AreMet links.now flags.old waiting.old.items }
    requires some { 0 < length waiting.old.items }
    ensures spread { OnOk result (IsSpread links.now flags.old flags.new waiting.new.items) }
    ensures less { OnOk result (work flags.new waiting.new.items < work flags.old waiting.old.items) }
{
    if let Some(structure) = waiting.pop() {
        mark_all(&links[structure as usize], flags, waiting)?;
    }
    Ok(())
}
