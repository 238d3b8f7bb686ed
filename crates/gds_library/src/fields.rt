//! What the records of an element say, by their types.

ghost use Rattle.std.specs.Prelude.{◌≡◌, ◌≤◌, ◌++◌, length, map, IfOk, OnOk};
ghost use Rattle.std.specs.Option.{option_map};
ghost use Rattle.gds_records.specs.Stream.{item_of};
ghost use Rattle.gds_library.specs.Fields as field;
ghost use Rattle.gds_library.specs.Elements as spec;
ghost use Rattle.gds_library.specs.Meanings.{with_points};

use crate::element::{Counts, Element, Given, Instance, Outline, Path, Point};
use drc_geom::Name;
use gds_records::{Real8, Record, RecordType};
use gds_values::{long_at, number_at, real_at, without_padding};
use std::alloc::{AllocError, Global};

/// What the records of an element draw or place, without its points; None for a TEXT or NODE.
pub fn element_of(alloc: Global, records: &[Record]) -> Result<Option<Element>, AllocError>
    ensures { IfOk result (λ found. option_map (λ element. with_points element (spec.points_of (map item_of records.now))) found
        ≡ spec.element_of (map item_of records.now)) }
{
    let Some(first) = records.first() else {
        return Ok(None);
    };
    if first.has_type(RecordType::Boundary) {
        let outline = outline_of(RecordType::DataType, first, records);
        return Ok(Some(Element::Boundary(outline)));
    }
    if first.has_type(RecordType::BoxElement) {
        let outline = outline_of(RecordType::BoxType, first, records);
        return Ok(Some(Element::Box(outline)));
    }
    if first.has_type(RecordType::Path) {
        let path = Box::new(alloc, path_of(first, records))?;
        return Ok(Some(Element::Path(path)));
    }
    if first.has_type(RecordType::StructureReference)
        || first.has_type(RecordType::ArrayReference)
    {
        let instance = Box::new(alloc, instance_of(alloc, first, records)?)?;
        return Ok(Some(Element::Instance(instance)));
    }
    Ok(None)
}

fn outline_of(data_type: RecordType, first: &Record, records: &[Record]) -> Outline
    ensures { result ≡ spec.outline_of data_type (item_of first.now) (map item_of records.now) }
{
    Outline {
        at: first.at,
        layer: number(data_of(records, RecordType::Layer), 0),
        data_type: number(data_of(records, data_type), 0),
        points_at: offset_of(records, RecordType::Points),
    }
}

fn path_of(first: &Record, records: &[Record]) -> Path
    ensures { result ≡ spec.path_of (item_of first.now) (map item_of records.now) }
{
    Path {
        outline: outline_of(RecordType::DataType, first, records),
        path_type: given_number(records, RecordType::PathType),
        width: given_long(records, RecordType::Width),
        begin_extension: given_long(records, RecordType::BeginExtension),
        end_extension: given_long(records, RecordType::EndExtension),
    }
}

fn instance_of(alloc: Global, first: &Record, records: &[Record]) -> Result<Instance, AllocError>
    ensures { IfOk result (λ instance. instance ≡ spec.instance_of (item_of first.now) (map item_of records.now)) }
{
    let name = without_padding(data_of(records, RecordType::ReferenceName));
    Ok(Instance {
        at: first.at,
        name: Name::new(alloc, name)?,
        name_at: offset_of(records, RecordType::ReferenceName),
        transform: given_number(records, RecordType::Transform),
        magnification: given_real(records, RecordType::Magnification),
        angle: given_real(records, RecordType::Angle),
        counts: given_counts(records),
        points_at: offset_of(records, RecordType::Points),
    })
}

/// All points of the data of an XY behind those that are there.
pub fn push_points(points: &mut Vec<Point>, body: &[u8]) -> Result<(), AllocError>
    ensures pushed { OnOk result (points.new.items ≡ points.old.items ++ field.points body.now) }
    ensures no_fewer { length points.old.items ≤ length points.new.items }
{
    for index in 0..body.len() / 8 {
        points.push(Point {
            x: long_at(body, 2 * index),
            y: long_at(body, 2 * index + 1),
        })?;
    }
    Ok(())
}

// The first record of this type.
fn find(mut records: &[Record], kind: RecordType) -> Option<&Record>
    ensures { option_map (λ found. item_of found.now) result ≡ field.find kind (map item_of records.entry.now) }
{
    while let [first, rest @ ..] = records {
        if first.has_type(kind) {
            return Some(first);
        }
        records = rest;
    }
    None
}

/// The data of the record of this type; none where there is no such record.
pub fn data_of(records: &[Record], kind: RecordType) -> &[u8]
    ensures { result.now ≡ field.data_of kind (map item_of records.now) }
{
    match find(records, kind) {
        Some(found) => &found.body,
        None => &[],
    }
}

fn offset_of(records: &[Record], kind: RecordType) -> u64
    ensures { result ≡ field.offset_of kind (map item_of records.now) }
{
    match find(records, kind) {
        Some(found) => found.at,
        None => 0,
    }
}

fn given_number(records: &[Record], kind: RecordType) -> Option<Given<i16>>
    ensures { result ≡ field.given (field.number 0) kind (map item_of records.now) }
{
    let found = find(records, kind)?;
    Some(Given {
        at: found.at,
        value: number(&found.body, 0),
    })
}

fn given_long(records: &[Record], kind: RecordType) -> Option<Given<i32>>
    ensures { result ≡ field.given (field.long 0) kind (map item_of records.now) }
{
    let found = find(records, kind)?;
    Some(Given {
        at: found.at,
        value: long(&found.body, 0),
    })
}

fn given_real(records: &[Record], kind: RecordType) -> Option<Given<Real8>>
    ensures { result ≡ field.given (field.real 0) kind (map item_of records.now) }
{
    let found = find(records, kind)?;
    Some(Given {
        at: found.at,
        value: real(&found.body, 0),
    })
}

fn given_counts(records: &[Record]) -> Option<Given<Counts>>
    ensures { result ≡ field.given field.counts RecordType.ColumnsAndRows (map item_of records.now) }
{
    let found = find(records, RecordType::ColumnsAndRows)?;
    Some(Given {
        at: found.at,
        value: Counts {
            columns: number(&found.body, 0),
            rows: number(&found.body, 1),
        },
    })
}

fn number(body: &[u8], index: usize) -> i16
    requires { index ≤ 1 }
    ensures { result ≡ field.number index body.now }
{
    if 2 * index + 2 <= body.len() {
        number_at(body, index)
    } else {
        0
    }
}

fn long(body: &[u8], index: usize) -> i32
    requires { index ≤ 1 }
    ensures { result ≡ field.long index body.now }
{
    if 4 * index + 4 <= body.len() {
        long_at(body, index)
    } else {
        0
    }
}

/// The real of eight bytes at an index, the first or the second; 0 where the data are too short.
pub fn real(body: &[u8], index: usize) -> Real8
    requires { index ≤ 1 }
    ensures { result ≡ field.real index body.now }
{
    if 8 * index + 8 <= body.len() {
        real_at(body, index)
    } else {
        Real8 { bytes: [0; 8] }
    }
}
