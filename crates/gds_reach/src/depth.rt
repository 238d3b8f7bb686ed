//! How deep references lead.

ghost use Rattle.std.specs.Prelude.{◌≡◌, ◌⊎◌, ◌↔◌, ◌<◌, ◌≤◌, ◌^◌, ℕ, IfOk, length};
ghost use Rattle.gds_reach.specs.References.{AreWithin, IsNamed, IsOn, Refers, Tell};
ghost use Rattle.gds_reach.specs.Facts.{Finds, IsTooDeep, ReachesBy};
ghost use Rattle.gds_reach.specs.Working.Depths.{IsReferredTo, StandsIn};

use crate::Reference;
use std::alloc::{AllocError, Global};

/// How many references a path from the primary may have.
const DEEPEST: u32 = 64;

/// The first reference that is the 65th on some path from the primary. It fails only for want of memory. It takes time in
/// proportion to 64 times the number of structures and references, however many paths there are.
pub fn too_deep(
    alloc: Global,
    links: &[Vec<Option<u32>>],
    primary: u32,
) -> Result<Option<Reference>, AllocError>
    requires few { length links.now ≤ 2 ^ 32 }
    requires within { AreWithin links.now }
    requires there { primary < length links.now }
    ensures { IfOk result (Finds (IsTooDeep links.now primary)) }
{
    let ends = ends(alloc, links, primary, DEEPEST)?;
    Ok(first_in(links, &ends))
}

/// The first reference in a flagged structure.
fn first_in(links: &[Vec<Option<u32>>], flags: &[bool]) -> Option<Reference>
    requires few { length links.now ≤ 2 ^ 32 }
    requires all { length flags.now ≡ length links.now }
    ensures { Finds (StandsIn links.now flags.now) result }
{
    for structure in 0..links.len() {
        if flags[structure] && !links[structure].is_empty() {
            return Some(Reference {
                structure: structure as u32,
                place: 0,
            });
        }
    }
    None
}

/// Flags the structures to which paths of so many references lead. It fails only for want of memory.
fn ends(
    alloc: Global,
    links: &[Vec<Option<u32>>],
    from: u32,
    count: u32,
) -> Result<Vec<bool>, AllocError>
    requires within { AreWithin links.now }
    requires there { from < length links.now }
    ensures { IfOk result (λ flags. Tell links.now (ReachesBy links.now count from) flags.items) }
{
    let mut flags = vec![in alloc; false; links.len()]?;
    flags[from as usize] = true;
    for _done in 0..count {
        flags = onward(alloc, links, &flags)?;
    }
    Ok(flags)
}

/// Flags the structures that flagged ones refer to. It fails only for want of memory.
fn onward(
    alloc: Global,
    links: &[Vec<Option<u32>>],
    flags: &[bool],
) -> Result<Vec<bool>, AllocError>
    requires within { AreWithin links.now }
    requires all { length flags.now ≡ length links.now }
    ensures { IfOk result (λ next. Tell links.now (IsReferredTo links.now flags.now) next.items) }
{
    let mut next = vec![in alloc; false; links.len()]?;
    for structure in 0..links.len() {
        if flags[structure] {
            flag_all(&links[structure], &mut next);
        }
    }
    Ok(next)
}

/// Flags all structures that are named.
fn flag_all(named: &[Option<u32>], flags: &mut [bool])
    requires { (j : ℕ) → IsNamed named.now j → j < length flags.old }
    ensures { (j : ℕ) → IsOn flags.new j ↔ (IsOn flags.old j ⊎ IsNamed named.now j) }
{
    for name in named {
        if let Some(structure) = name {
            flags[*structure as usize] = true;
        }
    }
}
