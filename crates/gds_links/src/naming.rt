//! The names of structures.

ghost use Rattle.std.specs.Prelude.{◌≡◌, ◌<◌, ◌^◌, [], length, OnOk};
ghost use Rattle.gds_links.specs.Working.Naming.{AreNames};

use deck_names::{Names, Scope};
use gds_library::Structure;
use std::alloc::AllocError;

/// Defines the names of structures, in their order. It fails only for want of memory.
pub(crate) fn define_all<'l>(
    names: &mut Names<'l>,
    structures: &'l [Structure],
) -> Result<(), AllocError>
    requires few { length structures.now < 2 ^ 32 }
    requires none { names.old.definitions ≡ [] }
    ensures { OnOk result (AreNames names.new.definitions structures.entry.now) }
{
    for structure in structures {
        names.define(structure.name(), Scope::Everywhere)?;
    }
    Ok(())
}
