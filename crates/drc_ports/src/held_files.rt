ghost use Rattle.std.specs.Prelude.{◌≡◌, ◌<◌, [], ◌∷◌, length, IfSome, OnOk, OnErr, is_ok, if◌then◌else◌};
ghost use Rattle.drc_ports.specs.Held.{first_of, bytes_at, FirstGrows};
ghost use Rattle.std.specs.Option.{option_map};

use crate::held_file::HeldFile;
use drc_geom::Name;
use std::alloc::{AllocError, Global};

/// Where the first file of a name stands.
pub(crate) fn find(files: &[HeldFile], name: &[u8]) -> Option<usize>
    ensures within { IfSome result (λ at. at < length files.now) }
    ensures found { option_map (λ at. bytes_at at files.now) result ≡ first_of files.now name.now }
{
    for (at, file) in files.iter().enumerate() {
        if file.name.bytes() == name {
            return Some(at);
        }
    }
    None
}

/// Puts an empty file before the others.
pub(crate) fn put_empty(
    alloc: Global,
    files: &mut Vec<HeldFile>,
    name: &[u8],
) -> Result<(), AllocError>
    ensures put { OnOk result ((file : _) × (file.name ≡ name.now) × (file.bytes.items ≡ []) × (files.new.items ≡ file ∷ files.old.items)) }
    ensures kept { OnErr result (files.new.items ≡ files.old.items) }
{
    let name = Name::new(alloc, name)?;
    let bytes = Vec::new(alloc);
    files.insert(0, HeldFile { name, bytes })?;
    Ok(())
}

/// Appends to the first file.
pub(crate) fn append_to_first(files: &mut Vec<HeldFile>, piece: &[u8]) -> Result<(), AllocError>
    requires { 0 < length files.old.items }
    ensures { FirstGrows (if is_ok result then piece.now else []) files.old.items files.new.items }
{
    files[0].bytes.extend_from_slice(piece)
}
