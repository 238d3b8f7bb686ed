//! What a record is to the reader of a library.

ghost use Rattle.std.specs.Prelude.{◌≡◌};
ghost use Rattle.gds_library.specs.Kinds.{part_of};

/// What a record is to the reader of a library.
#[derive(Clone, Copy, Debug, PartialEq, Eq)]
pub enum Part {
    Units,
    BeginStructure,
    StructureName,
    EndStructure,
    EndLibrary,
    EndElement,
    /// A property's attribute or value, which aren't looked at.
    Property,
    /// It opens an element.
    Open,
    /// A field of an element, or what is passed over.
    Other,
}

/// What a record of this type is.
pub fn part_of(kind: u8) -> Part
    ensures { result ≡ part_of kind }
{
    match kind {
        0x03 => Part::Units,
        0x05 => Part::BeginStructure,
        0x06 => Part::StructureName,
        0x07 => Part::EndStructure,
        0x04 => Part::EndLibrary,
        0x11 => Part::EndElement,
        0x2B | 0x2C => Part::Property,
        0x08 | 0x2D => Part::Open,
        0x09 | 0x0A => Part::Open,
        0x0B => Part::Open,
        0x0C | 0x15 => Part::Open,
        _ => Part::Other,
    }
}
