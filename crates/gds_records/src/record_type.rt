//! What a record's byte of record type stands for.

ghost use Rattle.std.specs.Prelude.{◌≡◌, ◌≢◌, ◌↔◌, MatchOption, Some, IsTrue};
ghost use Rattle.gds_records.specs.declared.record_type.RecordType.{RecordType};
ghost use Rattle.gds_records.specs.RecordTypes.{code_of};

use crate::Record;

/// The record types of GDSII Stream Format, Release 6, each with its name there.
#[derive(Clone, Copy, Debug, PartialEq, Eq)]
pub enum RecordType {
    /// HEADER
    Header,
    /// BGNLIB
    BeginLibrary,
    /// LIBNAME
    LibraryName,
    /// UNITS
    Units,
    /// ENDLIB
    EndLibrary,
    /// BGNSTR
    BeginStructure,
    /// STRNAME
    StructureName,
    /// ENDSTR
    EndStructure,
    /// BOUNDARY
    Boundary,
    /// PATH
    Path,
    /// SREF
    StructureReference,
    /// AREF
    ArrayReference,
    /// TEXT
    Text,
    /// LAYER
    Layer,
    /// DATATYPE
    DataType,
    /// WIDTH
    Width,
    /// XY
    Points,
    /// ENDEL
    EndElement,
    /// SNAME
    ReferenceName,
    /// COLROW
    ColumnsAndRows,
    /// NODE
    Node,
    /// TEXTTYPE
    TextType,
    /// PRESENTATION
    Presentation,
    /// STRING
    TextString,
    /// STRANS
    Transform,
    /// MAG
    Magnification,
    /// ANGLE
    Angle,
    /// REFLIBS
    ReferenceLibraries,
    /// FONTS
    Fonts,
    /// PATHTYPE
    PathType,
    /// GENERATIONS
    Generations,
    /// ATTRTABLE
    AttributeTable,
    /// ELFLAGS
    ElementFlags,
    /// NODETYPE
    NodeType,
    /// PROPATTR
    PropertyAttribute,
    /// PROPVALUE
    PropertyValue,
    /// BOX
    BoxElement,
    /// BOXTYPE
    BoxType,
    /// PLEX
    Plex,
    /// BGNEXTN
    BeginExtension,
    /// ENDEXTN
    EndExtension,
}

impl Record {
    /// The record type; None for a byte that stands for none.
    pub fn record_type(&self) -> Option<RecordType>
        ensures { (kind : RecordType) → (result ≡ Some kind) ↔ (code_of kind ≡ self.now.kind) }
    {
        type_of(self.kind)
    }

    /// Is it of this type?
    pub fn has_type(&self, kind: RecordType) -> bool
        ensures { IsTrue result ↔ (code_of kind ≡ self.now.kind) }
    {
        self.record_type() == Some(kind)
    }
}

fn type_of(byte: u8) -> Option<RecordType>
    ensures { MatchOption result ((kind : RecordType) → code_of kind ≢ byte) (λ kind. code_of kind ≡ byte) }
{
    match byte {
        0x00 => Some(RecordType::Header),
        0x01 => Some(RecordType::BeginLibrary),
        0x02 => Some(RecordType::LibraryName),
        0x03 => Some(RecordType::Units),
        0x04 => Some(RecordType::EndLibrary),
        0x05 => Some(RecordType::BeginStructure),
        0x06 => Some(RecordType::StructureName),
        0x07 => Some(RecordType::EndStructure),
        0x08 => Some(RecordType::Boundary),
        0x09 => Some(RecordType::Path),
        0x0A => Some(RecordType::StructureReference),
        0x0B => Some(RecordType::ArrayReference),
        0x0C => Some(RecordType::Text),
        0x0D => Some(RecordType::Layer),
        0x0E => Some(RecordType::DataType),
        0x0F => Some(RecordType::Width),
        0x10 => Some(RecordType::Points),
        0x11 => Some(RecordType::EndElement),
        0x12 => Some(RecordType::ReferenceName),
        0x13 => Some(RecordType::ColumnsAndRows),
        0x15 => Some(RecordType::Node),
        0x16 => Some(RecordType::TextType),
        0x17 => Some(RecordType::Presentation),
        0x19 => Some(RecordType::TextString),
        0x1A => Some(RecordType::Transform),
        0x1B => Some(RecordType::Magnification),
        0x1C => Some(RecordType::Angle),
        0x1F => Some(RecordType::ReferenceLibraries),
        0x20 => Some(RecordType::Fonts),
        0x21 => Some(RecordType::PathType),
        0x22 => Some(RecordType::Generations),
        0x23 => Some(RecordType::AttributeTable),
        0x26 => Some(RecordType::ElementFlags),
        0x2A => Some(RecordType::NodeType),
        0x2B => Some(RecordType::PropertyAttribute),
        0x2C => Some(RecordType::PropertyValue),
        0x2D => Some(RecordType::BoxElement),
        0x2E => Some(RecordType::BoxType),
        0x2F => Some(RecordType::Plex),
        0x30 => Some(RecordType::BeginExtension),
        0x31 => Some(RecordType::EndExtension),
        _ => None,
    }
}
