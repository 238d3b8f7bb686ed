//! What references name.

ghost use Rattle.std.specs.Prelude.{◌≡◌, ◌<◌, map, length, Some, slice_get, IfOk};
ghost use Rattle.std.specs.Option.{option_map};
ghost use Rattle.gds_library.specs.Library.{Drawing};
ghost use Rattle.gds_links.specs.Links.{listed};
ghost use Rattle.gds_links.specs.Working.Naming.{links_by, name_in};

use deck_names::{Names, Scope};
use gds_library::{Element, Structure};
use std::alloc::{AllocError, Global};

/// What the references of each structure name. It fails only for want of memory.
pub(crate) fn all_links(
    alloc: Global,
    names: &Names<'_>,
    structures: &[Structure],
) -> Result<Vec<Vec<Option<u32>>>, AllocError>
    ensures { IfOk result (λ links. listed links.items ≡ map (links_by names.now.definitions) structures.now) }
{
    let mut links = Vec::new(alloc);
    for structure in structures {
        links.push(links_in(alloc, names, structure)?)?;
    }
    Ok(links)
}

/// What the references of a structure name. It fails only for want of memory.
fn links_in(
    alloc: Global,
    names: &Names<'_>,
    structure: &Structure,
) -> Result<Vec<Option<u32>>, AllocError>
    ensures { IfOk result (λ links. links.items ≡ links_by names.now.definitions structure.now) }
{
    let mut links = Vec::new(alloc);
    for index in 0..structure.len() {
        let named = name_at(structure, index);
        if let Some(name) = named {
            links.push(names.find(Scope::Everywhere, name))?;
        }
    }
    Ok(links)
}

/// The name in the element at an index; None where it is no reference.
fn name_at(structure: &Structure, index: usize) -> Option<&[u8]>
    requires { index < length structure.now.elements }
    ensures { (drawing : Drawing) → slice_get structure.now.elements index ≡ Some drawing
        → name_in drawing ≡ option_map (λ name. name.now) result }
{
    match structure.get(index) {
        Some((Element::Instance(instance), _)) => Some(instance.name.bytes()),
        _ => None,
    }
}
