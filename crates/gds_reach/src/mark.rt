//! Flags of structures, and those that wait.

ghost use Rattle.std.specs.Prelude.{◌≡◌, ◌<◌, ℕ, length, OnOk};
ghost use Rattle.gds_reach.specs.References.{IsNamed};
ghost use Rattle.gds_reach.specs.Working.Marks.{IsMarked};

use std::alloc::AllocError;

/// Flags a structure, and lets it wait where it wasn't flagged. It fails only for want of memory.
pub(crate) fn mark(
    flags: &mut [bool],
    waiting: &mut Vec<u32>,
    structure: u32,
) -> Result<(), AllocError>
    requires { structure < length flags.old }
    ensures { OnOk result (IsMarked (λ j. j ≡ structure)
        flags.old waiting.old.items flags.new waiting.new.items) }
{
    if !flags[structure as usize] {
        flags[structure as usize] = true;
        waiting.push(structure)?;
    }
    Ok(())
}

/// Flags all structures that are named, and lets those wait that weren't flagged. It fails only for want of memory.
pub(crate) fn mark_all(
    named: &[Option<u32>],
    flags: &mut [bool],
    waiting: &mut Vec<u32>,
) -> Result<(), AllocError>
    requires { (j : ℕ) → IsNamed named.now j → j < length flags.old }
    ensures { OnOk result (IsMarked (IsNamed named.now)
        flags.old waiting.old.items flags.new waiting.new.items) }
{
    for name in named {
        if let Some(structure) = name {
            mark(flags, waiting, *structure)?;
        }
    }
    Ok(())
}
