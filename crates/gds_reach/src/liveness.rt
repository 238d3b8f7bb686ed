//! Which structures lead to something drawn.

ghost use Rattle.std.specs.Prelude.{◌≡◌, ◌⊎◌, ◌↔◌, ◌<◌, ◌≤◌, ◌^◌, ℕ, IfOk, OnOk, length};
ghost use Rattle.gds_reach.specs.References.{AreWithin, IsNamed, Refers, Tell};
ghost use Rattle.gds_reach.specs.Live.{IsLive};
ghost use Rattle.gds_reach.specs.Working.Turning.{AreTurned};

use crate::spread::spread_from;
use std::alloc::{AllocError, Global};

/// Flags the structures that reach a drawn one, which may be themselves. It fails only for want of memory. It takes time
/// in proportion to the number of structures and references.
pub fn live(
    alloc: Global,
    links: &[Vec<Option<u32>>],
    drawn: &[bool],
) -> Result<Vec<bool>, AllocError>
    requires few { length links.now ≤ 2 ^ 32 }
    requires within { AreWithin links.now }
    requires all { length drawn.now ≡ length links.now }
    ensures { IfOk result (λ flags. Tell links.now (IsLive links.now drawn.now) flags.items) }
{
    let turned = turned(alloc, links)?;
    let mut flags = vec![in alloc; false; links.len()]?;
    for structure in 0..links.len() {
        if drawn[structure] {
            spread_from(alloc, &turned, &mut flags, structure as u32)?;
        }
    }
    Ok(flags)
}

/// The references turned round: each from the structure that it names to the one in which it stands. It fails only for
/// want of memory.
fn turned(alloc: Global, links: &[Vec<Option<u32>>]) -> Result<Vec<Vec<Option<u32>>>, AllocError>
    requires few { length links.now ≤ 2 ^ 32 }
    requires within { AreWithin links.now }
    ensures all { IfOk result (λ turned. length turned.items ≡ length links.now) }
    ensures each { IfOk result (λ turned. AreTurned links.now (length links.now) turned.items) }
{
    let mut turned = no_links(alloc, links.len())?;
    for structure in 0..links.len() {
        turn(&links[structure], structure as u32, &mut turned)?;
    }
    Ok(turned)
}

/// So many structures without references. It fails only for want of memory.
fn no_links(alloc: Global, count: usize) -> Result<Vec<Vec<Option<u32>>>, AllocError>
    ensures all { IfOk result (λ links. length links.items ≡ count) }
    ensures none { IfOk result (λ links. (i j : ℕ) → Refers links.items i j → ⊥) }
{
    let mut links = Vec::new(alloc);
    for _done in 0..count {
        links.push(Vec::new(alloc))?;
    }
    Ok(links)
}

/// Turns the references of one structure. It fails only for want of memory.
fn turn(
    named: &[Option<u32>],
    structure: u32,
    turned: &mut [Vec<Option<u32>>],
) -> Result<(), AllocError>
    requires { (j : ℕ) → IsNamed named.now j → j < length turned.old }
    ensures { OnOk result ((i j : ℕ)
        → Refers turned.new i j ↔ (Refers turned.old i j ⊎ (IsNamed named.now i × (j ≡ structure)))) }
{
    for name in named {
        if let Some(other) = name {
            turned[*other as usize].push(Some(structure))?;
        }
    }
    Ok(())
}
