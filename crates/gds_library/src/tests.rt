ghost use Rattle.std.specs.Prelude.{◌≤◌};

use super::*;
use gds_records::{LayoutFault, LayoutKind, LayoutRefusal, Record};
use layer_model::Reads;
use std::alloc::Global;
use std::process::Abort;
use std::test::Fail;

const UNITS: [u8; 16] = [
    0x3E, 0x41, 0x89, 0x37, 0x4B, 0xC6, 0xA7, 0xF0, 0x39, 0x44, 0xB8, 0x2F, 0xA0, 0x9B, 0x5A, 0x54,
];

type Row = (u8, u8, &'static [u8]);

const HEAD: [Row; 6] = [
    (0x00, 2, &[2, 88]),
    (0x01, 2, &[]),
    (0x02, 6, b"LIB\0"),
    (0x03, 5, &UNITS),
    (0x05, 2, &[]),
    (0x06, 6, b"TOP\0"),
];

// A path on layer 5 with its width and an extension at its end.
const PATH: [Row; 7] = [
    (0x09, 0, &[]),
    (0x0D, 2, &[0, 5]),
    (0x0E, 2, &[0, 1]),
    (0x0F, 3, &[0, 0, 0, 20]),
    (0x31, 3, &[255, 255, 255, 255]),
    (0x10, 3, &[0, 0, 0, 1, 0, 0, 0, 2]),
    (0x11, 0, &[]),
];

// A box on layer 7 with a property, and a reference that is reflected.
const OTHERS: [Row; 12] = [
    (0x2D, 0, &[]),
    (0x0D, 2, &[0, 7]),
    (0x2E, 2, &[0, 3]),
    (0x10, 3, &[255; 8]),
    (0x2B, 2, &[0, 1]),
    (0x2C, 6, b"A\0"),
    (0x11, 0, &[]),
    (0x0A, 0, &[]),
    (0x12, 6, b"SUB\0"),
    (0x1A, 1, &[0x80, 0]),
    (0x10, 3, &[0; 8]),
    (0x11, 0, &[]),
];

const END: [Row; 2] = [(0x07, 0, &[]), (0x04, 0, &[])];

// What the reader says of these records, at a thousand database units in a user unit.
fn read(alloc: Global, parts: &[&[Row]], keep: Keep) -> Result<Library, LayoutFault> {
    let mut builder = Builder::new(alloc, 1000, keep)?;
    let mut at = 0_u64;
    for rows in parts {
        for (kind, form, data) in *rows {
            builder.push(Record {
                at,
                kind: *kind,
                form: *form,
                body: data.to_vec(alloc)?,
            })?;
            at = at.wrapping_add(4).wrapping_add(data.len() as u64);
        }
    }
    Ok(builder.finish())
}

fn refusal(library: Result<Library, LayoutFault>) -> Option<LayoutRefusal> {
    match library {
        Err(LayoutFault::Refused(refusal)) => Some(refusal),
        _ => None,
    }
}

// The elements of the one structure, as `Debug` prints them.
fn elements(alloc: Global, library: &Library) -> Result<String, Fail> {
    let [top] = library.structures() else {
        return Err(Fail::from("one structure"));
    };
    let mut text = String::new(alloc);
    for index in 0..top.len() {
        if let Some(found) = top.get(index) {
            text.push_str(&format!(in alloc; "{found:?}\n")?)?;
        }
    }
    Ok(text)
}

// HEAD has 50 bytes.
#[test]
fn a_path(rt: HostRuntime) -> Result<(), Fail> {
    let library = read(rt.alloc(), &[&HEAD, &PATH, &END], Keep::All)?;
    let text = elements(rt.alloc(), &library)?;
    let wanted =
        "(Path(Path { outline: Outline { at: 50, layer: 5, data_type: 1, points_at: 82 }, path_type: None, \
        width: Some(Given { at: 66, value: 20 }), begin_extension: None, \
        end_extension: Some(Given { at: 74, value: -1 }) }), [Point { x: 1, y: 2 }])\n";
    assert!(rt; text.as_str() == wanted, "{text}");
    Ok(())
}

#[test]
fn only_what_is_read_is_kept(rt: HostRuntime) -> Result<(), Fail> {
    let reads = Reads::new(vec![in rt.alloc()]?, vec![in rt.alloc(); 7]?);
    let library = read(
        rt.alloc(),
        &[&HEAD, &PATH, &OTHERS, &END],
        Keep::Only(reads),
    )?;
    let text = elements(rt.alloc(), &library)?;
    let wanted =
        "(Box(Outline { at: 98, layer: 7, data_type: 3, points_at: 114 }), [Point { x: -1, y: -1 }])\n\
        (Instance(Instance { at: 142, name: Name { bytes: [83, 85, 66] }, name_at: 146, \
        transform: Some(Given { at: 154, value: -32768 }), magnification: None, angle: None, counts: None, \
        points_at: 160 }), [Point { x: 0, y: 0 }])\n";
    assert!(rt; text.as_str() == wanted, "{text}");
    Ok(())
}

#[test]
fn refused(rt: HostRuntime) -> Result<(), Fail> {
    let rows: [(&[Row], LayoutKind, u64); 4] = [
        (
            &[(0x07, 0, &[]), (0x05, 2, &[]), (0x06, 6, b"TOP\0\0\0")],
            LayoutKind::DuplicateStructure,
            58,
        ),
        (
            &[(0x07, 0, &[]), (0x05, 2, &[]), (0x06, 2, b"TOP\0")],
            LayoutKind::BadData,
            58,
        ),
        (&[(0x06, 2, b"TOP\0")], LayoutKind::UnexpectedRecord, 50),
        (&[(0x04, 0, &[])], LayoutKind::UnexpectedRecord, 50),
    ];
    for (more, kind, at) in rows {
        let found = refusal(read(rt.alloc(), &[&HEAD, more], Keep::All));
        assert!(rt;
            found == Some(LayoutRefusal { at, kind }),
            "{found:?} {kind:?}"
        );
    }
    Ok(())
}
