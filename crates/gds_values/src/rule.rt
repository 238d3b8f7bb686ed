//! What the data of a record must be, by its type.

ghost use Rattle.std.specs.Prelude.{◌≡◌};
ghost use Rattle.gds_values.specs.Rules.{rule_of};

use gds_records::{DataForm, RecordType};

/// What the data hold.
#[derive(Clone, Copy, Debug, PartialEq, Eq)]
pub enum Contents {
    /// Whatever there is.
    Anything,
    /// So many bytes.
    Exactly(usize),
    /// A text with a byte that isn't NUL.
    Name,
    /// Points of eight bytes, as many as the element asks for.
    Points,
    /// A number of two bytes, in a PATH 0, 1, 2 or 4.
    PathType,
    /// Two numbers of two bytes, each at least 1.
    Counts,
}

/// What the data of a record must be.
#[derive(Clone, Copy, Debug, PartialEq, Eq)]
pub struct Rule {
    pub form: DataForm,
    pub contents: Contents,
}

/// The rule of a record type; None for records that are passed over, whatever their data.
pub fn rule_of(kind: RecordType) -> Option<Rule>
    ensures { result ≡ rule_of kind }
{
    let (form, contents) = match kind {
        RecordType::ReferenceLibraries
        | RecordType::Fonts
        | RecordType::Generations
        | RecordType::AttributeTable => return None,
        RecordType::EndLibrary
        | RecordType::EndStructure
        | RecordType::Boundary
        | RecordType::Path
        | RecordType::StructureReference
        | RecordType::ArrayReference
        | RecordType::Text
        | RecordType::EndElement
        | RecordType::Node
        | RecordType::BoxElement => (DataForm::NoData, Contents::Exactly(0)),
        RecordType::Header
        | RecordType::Layer
        | RecordType::DataType
        | RecordType::TextType
        | RecordType::NodeType
        | RecordType::PropertyAttribute
        | RecordType::BoxType => (DataForm::TwoByte, Contents::Exactly(2)),
        RecordType::BeginLibrary | RecordType::BeginStructure => (
            DataForm::TwoByte,
            Contents::Anything,
        ),
        RecordType::ColumnsAndRows => (DataForm::TwoByte, Contents::Counts),
        RecordType::PathType => (DataForm::TwoByte, Contents::PathType),
        RecordType::Width
        | RecordType::Plex
        | RecordType::BeginExtension
        | RecordType::EndExtension => { (DataForm::FourByte, Contents::Exactly(4)) }
        RecordType::Points => (DataForm::FourByte, Contents::Points),
        RecordType::Presentation | RecordType::Transform | RecordType::ElementFlags => {
            (DataForm::BitArray, Contents::Exactly(2))
        }
        RecordType::Units => (DataForm::EightByteReal, Contents::Exactly(16)),
        RecordType::Magnification | RecordType::Angle => (
            DataForm::EightByteReal,
            Contents::Exactly(8),
        ),
        RecordType::LibraryName | RecordType::TextString | RecordType::PropertyValue => {
            (DataForm::Text, Contents::Anything)
        }
        RecordType::StructureName | RecordType::ReferenceName => (DataForm::Text, Contents::Name),
    };
    Some(Rule { form, contents })
}
