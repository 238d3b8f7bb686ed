//! References as uses of structures by structures.

ghost use Rattle.std.specs.Prelude.{◌≡◌, ◌↔◌, ℕ, length, IfOk};
ghost use Rattle.gds_reach.specs.References.{IsNamed};
ghost use Rattle.gds_recursion.specs.Working.Circles.{AreUses, IsHeld};

use std::alloc::{AllocError, Global};

/// The structures that each structure refers to. It fails only for want of memory.
pub(crate) fn uses_of(
    alloc: Global,
    links: &[Vec<Option<u32>>],
) -> Result<Vec<Vec<u32>>, AllocError>
    ensures all { IfOk result (λ uses. length uses.items ≡ length links.now) }
    ensures each { IfOk result (λ uses. AreUses links.now (length links.now) uses.items) }
{
    let mut uses = Vec::new(alloc);
    for named in links {
        let numbers = numbers_in(alloc, named)?;
        uses.push(numbers)?;
    }
    Ok(uses)
}

/// The structures that are named. It fails only for want of memory.
fn numbers_in(alloc: Global, named: &[Option<u32>]) -> Result<Vec<u32>, AllocError>
    ensures { IfOk result (λ numbers. (j : ℕ) → IsHeld numbers.items j ↔ IsNamed named.now j) }
{
    let mut numbers = Vec::new(alloc);
    for name in named {
        if let Some(structure) = name {
            numbers.push(*structure)?;
        }
    }
    Ok(numbers)
}
