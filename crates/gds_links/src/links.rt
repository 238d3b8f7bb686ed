//! The links of a library.

ghost use Rattle.std.specs.Prelude.{◌≡◌, ◌<◌, ◌^◌, length, IfOk, IfSome};
ghost use Rattle.gds_reach.specs.References.{AreWithin};
ghost use Rattle.gds_links.specs.Links.{AreLinks, number_of};

use crate::naming::define_all;
use crate::references::all_links;
use deck_names::{Names, Scope};
use gds_library::Library;
use std::alloc::{AllocError, Global};

/// What the references of a library name, and its primary.
#[derive(Debug, Drop)]
pub struct Links {
    /// For each structure what its references name, in the order of the stream: the number of a structure, or none.
    pub named: Vec<Vec<Option<u32>>>,
    /// The structure that has the name of the primary, or none.
    pub primary: Option<u32>,
}

/// What the references of a library name, and the structure with the name of the primary. Only want of memory is an
/// error, for which a library of 2^32 structures counts. It takes time in proportion to the library.
pub fn links_of(alloc: Global, library: &Library, primary: &[u8]) -> Result<Links, AllocError>
    ensures named { IfOk result (λ l. AreLinks library.now.structures l.named.items) }
    ensures primary { IfOk result (λ l. l.primary ≡ number_of library.now.structures primary.now) }
    ensures there { IfOk result (λ l. IfSome l.primary (λ p. p < length l.named.items)) }
    ensures within { IfOk result (λ l. AreWithin l.named.items) }
    ensures all { IfOk result (λ l. length l.named.items ≡ length library.now.structures) }
    ensures few { IfOk result (λ l. length l.named.items < 2 ^ 32) }
{
    let structures = library.structures();
    if structures.len() > u32::MAX as usize {
        return Err(AllocError);
    }
    let mut names = Names::new(alloc);
    define_all(&mut names, structures)?;
    let named = all_links(alloc, &names, structures)?;
    let primary = names.find(Scope::Everywhere, primary);
    Ok(Links { named, primary })
}
