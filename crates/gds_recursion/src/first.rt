//! The first recursive reference.

ghost use Rattle.std.specs.Prelude.{◌<◌, ◌≤◌, ◌^◌, length, IfOk};
ghost use Rattle.gds_reach.specs.References.{AreWithin};
ghost use Rattle.gds_reach.specs.Facts.{Finds, IsRecursive};

use crate::back::first_back;
use crate::circle::first_circle;
use gds_reach::Reference;
use std::alloc::{AllocError, Global};

/// The first reference in a structure that the primary reaches which names a structure that reaches the one in which it
/// stands. It fails only for want of memory. It takes time in proportion to the number of structures and references.
pub fn recursive(
    alloc: Global,
    links: &[Vec<Option<u32>>],
    primary: u32,
) -> Result<Option<Reference>, AllocError>
    requires few { length links.now ≤ 2 ^ 32 }
    requires within { AreWithin links.now }
    requires there { primary < length links.now }
    ensures { IfOk result (Finds (IsRecursive links.now primary)) }
{
    let Some(structure) = first_circle(alloc, links, primary)? else {
        return Ok(None);
    };
    let Some(place) = first_back(alloc, links, structure)? else {
        return Ok(None);
    };
    Ok(Some(Reference { structure, place }))
}
