//! References that lead back to the structure in which they stand.

ghost use Rattle.std.specs.Prelude.{◌<◌, ◌≤◌, ◌^◌, ℕ, length, IfOk};
ghost use Rattle.gds_reach.specs.References.{AreWithin, IsNamed, Reaches, Tell};
ghost use Rattle.gds_reach.specs.Facts.{IsFirstPlace};
ghost use Rattle.gds_recursion.specs.Working.Circles.{LeadsBack, NamesFlagged};

use gds_reach::live;
use std::alloc::{AllocError, Global};

/// The place of the first reference of a structure that names one which reaches it. It fails only for want of memory.
pub(crate) fn first_back(
    alloc: Global,
    links: &[Vec<Option<u32>>],
    structure: u32,
) -> Result<Option<usize>, AllocError>
    requires few { length links.now ≤ 2 ^ 32 }
    requires within { AreWithin links.now }
    requires there { structure < length links.now }
    ensures { IfOk result (IsFirstPlace (LeadsBack links.now structure)) }
{
    let leading = leading_to(alloc, links, structure)?;
    Ok(first_flagged(&links[structure as usize], &leading))
}

/// Flags the structures that reach one. It fails only for want of memory.
fn leading_to(
    alloc: Global,
    links: &[Vec<Option<u32>>],
    structure: u32,
) -> Result<Vec<bool>, AllocError>
    requires few { length links.now ≤ 2 ^ 32 }
    requires within { AreWithin links.now }
    requires there { structure < length links.now }
    ensures { IfOk result (λ flags. Tell links.now (λ i. Reaches links.now i structure) flags.items) }
{
    let mut only = vec![in alloc; false; links.len()]?;
    only[structure as usize] = true;
    live(alloc, links, &only)
}

/// The first place at which a flagged structure is named.
fn first_flagged(named: &[Option<u32>], flags: &[bool]) -> Option<usize>
    requires { (j : ℕ) → IsNamed named.now j → j < length flags.now }
    ensures { IsFirstPlace (NamesFlagged named.now flags.now) result }
{
    for (place, name) in named.iter().enumerate() {
        if let Some(structure) = name {
            if flags[*structure as usize] {
                return Some(place);
            }
        }
    }
    None
}
