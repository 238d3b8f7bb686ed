ghost use Rattle.std.specs.Prelude.{◌<◌};

use super::*;
use std::alloc::{AllocError, Global};
use std::process::Abort;
use std::test::Fail;

/// A library LIB with one structure TOP, which holds the rectangle (0,0) (100,300) on layer 1, data type 0.
const LAYOUT: [u8; 170] = [
    0x00, 0x06, 0x00, 0x02, 0x02, 0x58, // HEADER 600
    0x00, 0x1C, 0x01, 0x02, 0, 0, 0, 0, 0, 0, 0, 0, 0, 0, 0, 0, 0, 0, 0, 0, 0, 0, 0, 0, 0, 0, 0, 0, // BGNLIB
    0x00, 0x08, 0x02, 0x06, b'L', b'I', b'B', 0, // LIBNAME
    0x00, 0x14, 0x03, 0x05, 0x3E, 0x41, 0x89, 0x37, 0x4B, 0xC6, 0xA7, 0xF0, 0x39, 0x44, 0xB8, 0x2F,
    0xA0, 0x9B, 0x5A, 0x54, // UNITS
    0x00, 0x1C, 0x05, 0x02, 0, 0, 0, 0, 0, 0, 0, 0, 0, 0, 0, 0, 0, 0, 0, 0, 0, 0, 0, 0, 0, 0, 0, 0, // BGNSTR
    0x00, 0x08, 0x06, 0x06, b'T', b'O', b'P', 0, // STRNAME
    0x00, 0x04, 0x08, 0x00, // BOUNDARY
    0x00, 0x06, 0x0D, 0x02, 0, 1, // LAYER
    0x00, 0x06, 0x0E, 0x02, 0, 0, // DATATYPE
    0x00, 0x2C, 0x10, 0x03, 0, 0, 0, 0, 0, 0, 0, 0, 0, 0, 0, 100, 0, 0, 0, 0, 0, 0, 0, 100, 0, 0,
    1, 0x2C, 0, 0, 0, 0, 0, 0, 1, 0x2C, 0, 0, 0, 0, 0, 0, 0, 0, // XY
    0x00, 0x04, 0x11, 0x00, // ENDEL
    0x00, 0x04, 0x07, 0x00, // ENDSTR
    0x00, 0x04, 0x04, 0x00, // ENDLIB
];

/// The records of the layout: offset, record type, data type and length of the data.
const RECORDS: [(u64, RecordType, DataForm, usize); 13] = [
    (0, RecordType::Header, DataForm::TwoByte, 2),
    (6, RecordType::BeginLibrary, DataForm::TwoByte, 24),
    (34, RecordType::LibraryName, DataForm::Text, 4),
    (42, RecordType::Units, DataForm::EightByteReal, 16),
    (62, RecordType::BeginStructure, DataForm::TwoByte, 24),
    (90, RecordType::StructureName, DataForm::Text, 4),
    (98, RecordType::Boundary, DataForm::NoData, 0),
    (102, RecordType::Layer, DataForm::TwoByte, 2),
    (108, RecordType::DataType, DataForm::TwoByte, 2),
    (114, RecordType::Points, DataForm::FourByte, 40),
    (158, RecordType::EndElement, DataForm::NoData, 0),
    (162, RecordType::EndStructure, DataForm::NoData, 0),
    (166, RecordType::EndLibrary, DataForm::NoData, 0),
];

// The proofs need not see the bytes: these functions say nothing of them.

fn layout() -> &'static [u8] {
    &LAYOUT
}

fn front(bytes: &[u8], length: usize) -> &[u8] {
    if length < bytes.len() {
        &bytes[..length]
    } else {
        bytes
    }
}

fn pieces_of(alloc: Global, bytes: &[u8], size: usize) -> Result<Vec<Vec<u8>>, AllocError>
    requires { 0 < size }
{
    let mut pieces = Vec::new(alloc);
    for piece in bytes.chunks(size) {
        pieces.push(Vec::from_slice(alloc, piece)?)?;
    }
    Ok(pieces)
}

/// The offset, the record type, the data type and the length of the data of a record.
#[derive(Debug, PartialEq, Drop)]
struct Shown(u64, Option<RecordType>, Option<DataForm>, usize);

fn summary_of(record: &Record) -> Shown {
    Shown(
        record.at,
        record.record_type(),
        record.data_form(),
        record.body.len(),
    )
}

fn wanted(place: usize) -> Option<Shown> {
    let (at, kind, form, length) = *RECORDS.get(place)?;
    Some(Shown(at, Some(kind), Some(form), length))
}

fn check_pieces(rt: &impl Abort, alloc: Global, size: usize) -> Result<(), LayoutFault>
    requires { 0 < size }
{
    let pieces = pieces_of(alloc, layout(), size)?;
    let taken = records(alloc, &pieces)?;
    assert_eq!(rt; taken.len(), 13, "in pieces of {size}");
    for (place, record) in taken.iter().enumerate() {
        assert_eq!(rt;
            Some(summary_of(record)),
            wanted(place),
            "in pieces of {size}"
        );
    }
    Ok(())
}

#[test]
fn pieces_of_any_size(rt: HostRuntime) -> Result<(), Fail> {
    check_pieces(&rt, rt.alloc(), 1)?;
    check_pieces(&rt, rt.alloc(), 3)?;
    check_pieces(&rt, rt.alloc(), 170)?;
    Ok(())
}

fn refusal_of(alloc: Global, bytes: &[u8]) -> Result<Option<LayoutRefusal>, AllocError> {
    let pieces = pieces_of(alloc, bytes, 7)?;
    match records(alloc, &pieces) {
        Err(LayoutFault::Refused(refusal)) => Ok(Some(refusal)),
        _ => Ok(None),
    }
}

#[test]
fn refusals(rt: HostRuntime) -> Result<(), Fail> {
    let table = [
        ([0, 3, 0, 2].as_slice(), 0, LayoutKind::BadLength),
        (&[0, 6, 0, 2, 2, 88, 0, 2, 1, 2], 6, LayoutKind::BadLength),
        (front(layout(), 130), 130, LayoutKind::Truncated),
        (front(layout(), 166), 166, LayoutKind::Truncated),
    ];
    for (bytes, at, kind) in table {
        assert_eq!(rt;
            refusal_of(rt.alloc(), bytes)?,
            Some(LayoutRefusal { at, kind })
        );
    }
    Ok(())
}

#[test]
fn nothing_behind_the_end(rt: HostRuntime) -> Result<(), Fail> {
    let mut framer = Framer::new(rt.alloc());
    framer.feed(&[0, 4, 4, 0, 0, 2])?;
    let end = framer.take()?.ok_or("ENDLIB is whole")?;
    assert_eq!(rt;
        summary_of(&end),
        Shown(0, Some(RecordType::EndLibrary), Some(DataForm::NoData), 0)
    );
    framer.feed(&[1, 2, 0, 6])?;
    assert!(rt; framer.take()?.is_none());
    assert!(rt; framer.ended());
    assert_eq!(rt; framer.pending(), 6);
    assert_eq!(rt; framer.end(), None);
    Ok(())
}

#[test]
fn unknown_bytes(rt: HostRuntime) {
    let record = Record {
        at: 0,
        kind: 0x14,
        form: 4,
        body: Vec::new(rt.alloc()),
    };
    assert_eq!(rt; summary_of(&record), Shown(0, None, None, 0));
}

#[test]
fn a_boundary(rt: HostRuntime) {
    let record = Record {
        at: 0,
        kind: 0x08,
        form: 0,
        body: Vec::new(rt.alloc()),
    };
    assert!(rt; record.has_type(RecordType::Boundary));
    assert!(rt; !record.has_type(RecordType::Path));
    assert!(rt; record.is_of(RecordType::Boundary, DataForm::NoData));
    assert!(rt; !record.is_of(RecordType::Boundary, DataForm::Text));
}

#[test]
fn numbers_and_words(rt: HostRuntime) {
    let table = [
        (LayoutKind::LayoutTooLong, 1, "LayoutTooLong"),
        (LayoutKind::Truncated, 2, "Truncated"),
        (LayoutKind::BadLength, 3, "BadLength"),
        (LayoutKind::NotBuilt, 90, "NotBuilt"),
    ];
    for (kind, number, word) in table {
        assert_eq!(rt; kind.number(), number);
        assert_eq!(rt; kind.word(), word);
    }
}

// From the format's form: a sign bit, seven bits of exponent in excess 64, 56 bits of fraction.
#[test]
fn reals(rt: HostRuntime) {
    let table = [
        ("0", [0, 0, 0, 0, 0, 0, 0, 0], Some(0)),
        ("1", [0x41, 0x10, 0, 0, 0, 0, 0, 0], Some(1)),
        (
            "1, not normalized",
            [0x43, 0x00, 0x10, 0, 0, 0, 0, 0],
            Some(1),
        ),
        ("-90", [0xC2, 0x5A, 0, 0, 0, 0, 0, 0], Some(-90)),
        ("minus 0", [0x80, 0, 0, 0, 0, 0, 0, 0], Some(0)),
        ("1/2", [0x40, 0x80, 0, 0, 0, 0, 0, 0], None),
        ("2^40", [0x4B, 0x10, 0, 0, 0, 0, 0, 0], Some(1 << 40)),
        ("2^40 + 1", [0x4B, 0x10, 0, 0, 0, 0, 0x10, 0], None),
        ("16^63", [0x7F, 0xFF, 0, 0, 0, 0, 0, 0], None),
        ("16^-64", [0x00, 0x10, 0, 0, 0, 0, 0, 0], None),
    ];
    for (label, bytes, whole) in table {
        assert_eq!(rt; Real8 { bytes }.whole(), whole, "{label}");
    }
}

#[test]
fn units(rt: HostRuntime) {
    let thousandth = Real8 {
        bytes: [0x3E, 0x41, 0x89, 0x37, 0x4B, 0xC6, 0xA7, 0xF0],
    };
    assert!(rt; thousandth.near_inverse(1000));
    assert!(rt; !thousandth.near_inverse(1001));
    let two_thousandth = Real8 {
        bytes: [0x3E, 0x20, 0xC4, 0x9B, 0xA5, 0xE3, 0x53, 0xF8],
    };
    assert!(rt; two_thousandth.near_inverse(2000));
    let one_256th = Real8 {
        bytes: [0x3F, 0x10, 0, 0, 0, 0, 0, 0],
    };
    assert!(rt; one_256th.near_inverse(256));
    // 1/1024 times 1 + 2^-30, and one bit more.
    let last = Real8 {
        bytes: [0x3F, 0x04, 0, 0, 0x00, 0x10, 0, 0],
    };
    assert!(rt; last.near_inverse(1024));
    let too_great = Real8 {
        bytes: [0x3F, 0x04, 0, 0, 0x00, 0x10, 0, 1],
    };
    assert!(rt; !too_great.near_inverse(1024));
    let negative = Real8 {
        bytes: [0xC1, 0x10, 0, 0, 0, 0, 0, 0],
    };
    assert!(rt; !negative.near_inverse(1));
}
