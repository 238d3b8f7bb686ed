ghost use Rattle.std.specs.Prelude.{◌<◌, length};

use super::*;
use drc_geom::Pt;
use gds_grammar::{Line, Reference, Shape};
use gds_records::{Record, RecordType};
use std::alloc::{AllocError, Global};
use std::process::Abort;
use std::test::Fail;

const PATH: Option<Line> = Some(Line::Shape(Shape::Path));

const TEXT: Option<Line> = Some(Line::Shape(Shape::Text));

const ARRAY: Option<Line> = Some(Line::Reference(Reference::Array));

fn record(alloc: Global, kind: u8, form: u8, body: &[u8]) -> Result<Record, AllocError> {
    Ok(Record {
        at: 0,
        kind,
        form,
        body: body.to_vec(alloc)?,
    })
}

#[test]
fn data(rt: HostRuntime) -> Result<(), Fail> {
    let rows: [(Option<Line>, u8, u8, &[u8], bool); 18] = [
        (None, 0x00, 2, &[2, 88], true),
        (None, 0x00, 3, &[2, 88], false),
        (None, 0x01, 2, &[], true),
        (None, 0x36, 9, &[1, 2], true),
        (None, 0x1F, 0, &[], true),
        (None, 0x06, 6, b"TOP\0", true),
        (None, 0x06, 6, &[0, 0], false),
        (None, 0x04, 0, &[0, 0], false),
        (PATH, 0x21, 2, &[0, 4], true),
        (PATH, 0x21, 2, &[0, 3], false),
        (TEXT, 0x21, 2, &[0, 3], true),
        (PATH, 0x10, 3, &[0; 8], true),
        (PATH, 0x10, 3, &[0; 12], false),
        (TEXT, 0x10, 3, &[0; 16], false),
        (ARRAY, 0x10, 3, &[0; 24], true),
        (ARRAY, 0x13, 2, &[0, 1, 0x7F, 0xFF], true),
        (ARRAY, 0x13, 2, &[0, 1, 0x80, 0], false),
        (ARRAY, 0x13, 2, &[0, 0, 0, 1], false),
    ];
    for (line, kind, form, body, good) in rows {
        let row = record(rt.alloc(), kind, form, body)?;
        assert!(rt; has_good_data(line, &row) == good, "{kind} {body:?}");
    }
    Ok(())
}

#[test]
fn values(rt: HostRuntime) {
    let body = [
        0xFF, 0xFE, 0, 3, 0xFF, 0xFF, 0xFF, 0x9C, 0, 0, 1, 0, 0, 0, 0, 9,
    ];
    assert!(rt; number_at(&body, 0) == -2);
    assert!(rt; number_at(&body, 1) == 3);
    assert!(rt; long_at(&body, 1) == -100);
    assert!(rt; point_at(&body, 1) == Pt { x: 256, y: 9 });
    assert!(rt; real_at(&body, 1).bytes == [0, 0, 1, 0, 0, 0, 0, 9]);
    assert!(rt; without_padding(b"A\0B\0\0") == b"A\0B".as_slice());
    assert!(rt; without_padding(&[0, 0]).is_empty());
    assert!(rt; rule_of(RecordType::Fonts).is_none());
}
