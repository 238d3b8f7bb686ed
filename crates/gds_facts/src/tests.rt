ghost use Rattle.std.specs.Prelude.{◌≤◌};

use super::*;
use gds_records::{LayoutKind, LayoutRefusal, Record};
use std::alloc::{AllocError, Global};
use std::process::Abort;
use std::test::Fail;

// A database unit of a thousandth of a user unit, and of 10^-9 metres.
const UNITS: [u8; 16] = [
    0x3E, 0x41, 0x89, 0x37, 0x4B, 0xC6, 0xA7, 0xF0, 0x39, 0x44, 0xB8, 0x2F, 0xA0, 0x9B, 0x5A, 0x54,
];

type Row = (u8, u8, &'static [u8]);

// A library of one structure, up to its first element.
const HEAD: [Row; 6] = [
    (0x00, 2, &[2, 88]),
    (0x01, 2, &[0; 24]),
    (0x02, 6, b"LIB\0"),
    (0x03, 5, &UNITS),
    (0x05, 2, &[0; 24]),
    (0x06, 6, b"TOP\0"),
];

fn found(alloc: Global, rows: &[Row], precision: u32) -> Result<Option<LayoutRefusal>, AllocError>
    requires { (1 ≤ precision) × (precision ≤ 1000000) }
{
    let mut records = Vec::new(alloc);
    let mut at = 0_u64;
    for (kind, form, data) in HEAD.iter().chain(rows) {
        records.push(Record {
            at,
            kind: *kind,
            form: *form,
            body: data.to_vec(alloc)?,
        })?;
        at = at.wrapping_add(4).wrapping_add(data.len() as u64);
    }
    Ok(first_fact(&records, precision))
}

fn refused(at: u64, kind: LayoutKind) -> Option<LayoutRefusal> {
    Some(LayoutRefusal { at, kind })
}

#[test]
fn facts(rt: HostRuntime) -> Result<(), Fail> {
    let unexpected = refused(102, LayoutKind::UnexpectedRecord);
    let rows: [(&[Row], Option<LayoutRefusal>); 7] = [
        (&[(0x07, 0, &[]), (0x04, 0, &[])], None),
        (
            &[(0x0D, 2, &[0, 1])],
            refused(98, LayoutKind::UnexpectedRecord),
        ),
        (&[(0x0A, 0, &[]), (0x0D, 9, &[])], unexpected),
        (
            &[(0x0A, 0, &[]), (0x12, 6, &[0, 0])],
            refused(102, LayoutKind::BadData),
        ),
        (
            &[(0x0A, 0, &[]), (0x12, 6, b"A\0"), (0x10, 3, &[0; 16])],
            refused(108, LayoutKind::BadData),
        ),
        (
            &[
                (0x09, 0, &[]),
                (0x0D, 2, &[0, 1]),
                (0x0E, 2, &[0, 0]),
                (0x21, 2, &[0, 3]),
            ],
            refused(114, LayoutKind::BadData),
        ),
        (
            &[(0x07, 0, &[]), (0x04, 0, &[0, 0])],
            refused(102, LayoutKind::BadData),
        ),
    ];
    for (more, wanted) in rows {
        assert!(rt; found(rt.alloc(), more, 1000)? == wanted, "{more:?}");
    }
    assert!(rt; found(rt.alloc(), &[], 2000)? == refused(42, LayoutKind::UnitsMismatch));
    Ok(())
}
