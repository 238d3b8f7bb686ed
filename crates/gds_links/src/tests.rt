//! The links of small libraries.

use crate::{Links, links_of};
use gds_library::{Builder, Keep, Library};
use gds_records::{LayoutFault, Record};
use std::alloc::Global;
use std::test::Fail;

type Row = (u8, u8, &'static [u8]);

// A user unit has a thousand database units.
const UNITS: [u8; 16] = [
    0x3E, 0x41, 0x89, 0x37, 0x4B, 0xC6, 0xA7, 0xF0, 0x39, 0x44, 0xB8, 0x2F, 0xA0, 0x9B, 0x5A, 0x54,
];

// TOP refers to A, with a box between, to an array of TOP, and to C, which isn't there; A refers to B, and B to nothing.
const ROWS: [Row; 36] = [
    (0x00, 2, &[2, 88]),
    (0x01, 2, &[]),
    (0x02, 6, b"LIB\0"),
    (0x03, 5, &UNITS),
    (0x05, 2, &[]),
    (0x06, 6, b"TOP\0"),
    (0x0A, 0, &[]),
    (0x12, 6, b"A\0"),
    (0x10, 3, &[0; 8]),
    (0x11, 0, &[]),
    (0x2D, 0, &[]),
    (0x0D, 2, &[0, 7]),
    (0x2E, 2, &[0, 3]),
    (0x10, 3, &[0; 8]),
    (0x11, 0, &[]),
    (0x0B, 0, &[]),
    (0x12, 6, b"TOP\0"),
    (0x13, 2, &[0, 1, 0, 1]),
    (0x10, 3, &[0; 24]),
    (0x11, 0, &[]),
    (0x0A, 0, &[]),
    (0x12, 6, b"C\0"),
    (0x10, 3, &[0; 8]),
    (0x11, 0, &[]),
    (0x07, 0, &[]),
    (0x05, 2, &[]),
    (0x06, 6, b"A\0"),
    (0x0A, 0, &[]),
    (0x12, 6, b"B\0"),
    (0x10, 3, &[0; 8]),
    (0x11, 0, &[]),
    (0x07, 0, &[]),
    (0x05, 2, &[]),
    (0x06, 6, b"B\0"),
    (0x07, 0, &[]),
    (0x04, 0, &[]),
];

fn library(alloc: Global) -> Result<Library, LayoutFault> {
    let mut builder = Builder::new(alloc, 1000, Keep::All)?;
    let mut at = 0_u64;
    for (kind, form, data) in ROWS {
        builder.push(Record {
            at,
            kind,
            form,
            body: data.to_vec(alloc)?,
        })?;
        at = at.wrapping_add(4).wrapping_add(data.len() as u64);
    }
    Ok(builder.finish())
}

fn linked(alloc: Global, primary: &[u8]) -> Result<Links, Fail> {
    let Ok(library) = library(alloc) else {
        return Err("no library".into());
    };
    Ok(links_of(alloc, &library, primary)?)
}

#[test]
fn names_stand_for_structures(rt: HostRuntime) -> Result<(), Fail> {
    let links = linked(rt.alloc(), b"A")?;
    assert_eq!(rt; links.primary, Some(1));
    assert_eq!(rt; links.named.len(), 3);
    assert_eq!(rt;
        links.named[0].as_slice(),
        [Some(1), Some(0), None].as_slice()
    );
    assert_eq!(rt; links.named[1].as_slice(), [Some(2)].as_slice());
    assert_eq!(rt; links.named[2].len(), 0);
    Ok(())
}

#[test]
fn no_structure_has_the_name(rt: HostRuntime) -> Result<(), Fail> {
    let links = linked(rt.alloc(), b"TO")?;
    assert_eq!(rt; links.primary, None);
    assert_eq!(rt; links.named.len(), 3);
    Ok(())
}
