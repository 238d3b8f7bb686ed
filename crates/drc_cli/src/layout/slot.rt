//! What may stand next in a layout of the first form.

ghost use Rattle.std.specs.Prelude.{◌≡◌, ◌≢◌, ◌↔◌, IsTrue, MatchBool, length};
ghost use Rattle.gds_records.specs.Records.{IsOf};
ghost use Rattle.gds_records.specs.Stream.{item_of};
ghost use Rattle.drc_cli.specs.Layout.{Stands, following, number_in, unit_bytes, IsUnits, IsStructureName, IsPoints};

use super::name::is_padded;
use super::outline::is_outline;
use byteorder::{BigEndian, ByteOrder};
use gds_records::{DataForm, Record, RecordType};

/// The data of UNITS: a database unit is a thousandth of a user unit and 10^-9 metres, as two eight-byte reals.
const UNITS: [u8; 16] = [
    0x3E, 0x41, 0x89, 0x37, 0x4B, 0xC6, 0xA7, 0xF0, 0x39, 0x44, 0xB8, 0x2F, 0xA0, 0x9B, 0x5A, 0x54,
];

/// The slot of the next record.
#[derive(Clone, Copy, Debug, PartialEq, Eq)]
pub enum Slot {
    Header,
    LibraryStart,
    LibraryName,
    Units,
    StructureStart,
    StructureName,
    /// Behind STRNAME or an element: another element, or the end of the structure.
    Elements,
    Layer,
    /// DATATYPE, in an element on a layer.
    DataType(u16),
    /// XY, in an element on a layer.
    Points(u16),
    ElementEnd,
    LibraryEnd,
    End,
}

impl Slot {
    /// May this record stand here, in a layout whose primary has this name?
    pub fn stands(self, taken: &Record, primary: &[u8]) -> bool
        ensures { IsTrue result ↔ Stands primary.now self (item_of taken.now) }
    {
        match self {
            Slot::Header => has_number(taken, RecordType::Header),
            Slot::LibraryStart => taken.is_of(RecordType::BeginLibrary, DataForm::TwoByte),
            Slot::LibraryName => taken.is_of(RecordType::LibraryName, DataForm::Text),
            Slot::Units => is_units(taken),
            Slot::StructureStart => taken.is_of(RecordType::BeginStructure, DataForm::TwoByte),
            Slot::StructureName => is_structure_name(taken, primary),
            Slot::Elements => is_bare(taken, RecordType::Boundary)
                || is_bare(taken, RecordType::EndStructure),
            Slot::Layer => has_number(taken, RecordType::Layer),
            Slot::DataType(_) => has_number(taken, RecordType::DataType),
            Slot::Points(_) => is_points(taken),
            Slot::ElementEnd => is_bare(taken, RecordType::EndElement),
            Slot::LibraryEnd => is_bare(taken, RecordType::EndLibrary),
            Slot::End => false,
        }
    }

    /// Is it that of the XY of an element on this layer?
    pub fn is_points_on(self, number: u16) -> bool
        ensures { MatchBool result (self ≡ Slot.Points number) (self ≢ Slot.Points number) }
    {
        match self {
            Slot::Points(layer) => layer == number,
            _ => false,
        }
    }

    /// The slot behind a record that stands here.
    pub fn following(self, taken: &Record) -> Slot
        requires { self ≡ Slot.Layer → length taken.now.body.items ≡ 2 }
        ensures { result ≡ following self (item_of taken.now) }
    {
        match self {
            Slot::Header => Slot::LibraryStart,
            Slot::LibraryStart => Slot::LibraryName,
            Slot::LibraryName => Slot::Units,
            Slot::Units => Slot::StructureStart,
            Slot::StructureStart => Slot::StructureName,
            Slot::StructureName => Slot::Elements,
            Slot::Elements if taken.has_type(RecordType::Boundary) => Slot::Layer,
            Slot::Elements => Slot::LibraryEnd,
            Slot::Layer => Slot::DataType(number_in(&taken.body)),
            Slot::DataType(number) => Slot::Points(number),
            Slot::Points(_) => Slot::ElementEnd,
            Slot::ElementEnd => Slot::Elements,
            Slot::LibraryEnd | Slot::End => Slot::End,
        }
    }
}

// Is it of this type, with one number of two bytes?
fn has_number(taken: &Record, kind: RecordType) -> bool
    ensures { IsTrue result ↔ (IsOf kind DataForm.TwoByte (item_of taken.now) × (length taken.now.body.items ≡ 2)) }
{
    taken.is_of(kind, DataForm::TwoByte) && taken.body.len() == 2
}

// Is it of this type, with no data?
fn is_bare(taken: &Record, kind: RecordType) -> bool
    ensures { IsTrue result ↔ (IsOf kind DataForm.NoData (item_of taken.now) × (length taken.now.body.items ≡ 0)) }
{
    taken.is_of(kind, DataForm::NoData) && taken.body.is_empty()
}

fn number_in(body: &[u8]) -> u16
    requires { length body.now ≡ 2 }
    ensures { result ≡ number_in body.now }
{
    BigEndian::read_u16(body)
}

fn is_units(taken: &Record) -> bool
    ensures { IsTrue result ↔ IsUnits (item_of taken.now) }
{
    taken.is_of(RecordType::Units, DataForm::EightByteReal)
        && taken.body.as_slice() == UNITS.as_slice()
}

fn is_structure_name(taken: &Record, primary: &[u8]) -> bool
    ensures { IsTrue result ↔ IsStructureName primary.now (item_of taken.now) }
{
    taken.is_of(RecordType::StructureName, DataForm::Text) && is_padded(&taken.body, primary)
}

fn is_points(taken: &Record) -> bool
    ensures { IsTrue result ↔ IsPoints (item_of taken.now) }
{
    taken.is_of(RecordType::Points, DataForm::FourByte) && is_outline(&taken.body)
}
