use super::*;
use std::process::Abort;

// The front of a stream with one structure, up to the record that opens an element.
const OPENED: [u8; 7] = [0x00, 0x01, 0x02, 0x03, 0x05, 0x06, 0x34];

fn check(rt: &impl Abort, rows: &[(&'static [u8], Option<Slot>)]) {
    for (more, wanted) in rows {
        let mut slot = slot_behind(&OPENED);
        for kind in more.iter() {
            slot = slot.and_then(|slot| slot.next(*kind));
        }
        assert!(rt; slot == *wanted, "{more:?}");
    }
}

#[test]
fn streams(rt: HostRuntime) {
    assert!(rt; slot_behind(&[]) == Some(Slot::Header));
    assert!(rt; slot_behind(&[0, 1, 0x1F, 0x3B, 2, 0x20, 3]) == Some(Slot::Structures));
    assert!(rt; slot_behind(&[0, 1, 2, 3, 4]) == Some(Slot::End));
    assert!(rt; slot_behind(&[0, 1, 2, 3, 4, 5]).is_none());
    assert!(rt; slot_behind(&[0, 1, 3]).is_none());
    assert!(rt; slot_behind(&[0, 1, 0x34, 2]).is_none());
}

#[test]
fn elements(rt: HostRuntime) {
    let text = Line::Shape(Shape::Text);
    let array = Line::Reference(Reference::Array);
    check(
        &rt,
        &[
            (
                &[0x08, 0x26, 0x2F, 0x0D, 0x0E, 0x10, 0x11, 0x07],
                Some(Slot::Structures),
            ),
            (&[0x08, 0x0D, 0x2E], None),
            (
                &[0x09, 0x0D, 0x0E, 0x21, 0x30, 0x31, 0x10, 0x2B],
                Some(Slot::PropertyValue),
            ),
            (&[0x09, 0x0D, 0x0E, 0x0F, 0x21], None),
            (&[0x0A, 0x12, 0x1A, 0x1C, 0x10], Some(Slot::Properties)),
            (&[0x0A, 0x12, 0x1B], None),
            (&[0x0B, 0x12, 0x1A, 0x1B, 0x13], Some(Slot::Points(array))),
            (&[0x0B, 0x12, 0x10], None),
            (
                &[0x0C, 0x0D, 0x16, 0x17, 0x0F, 0x1A, 0x1C],
                Some(Slot::Points(text)),
            ),
            (&[0x0C, 0x0D, 0x16, 0x10, 0x11], None),
            (
                &[
                    0x15, 0x2F, 0x0D, 0x2A, 0x10, 0x2B, 0x2C, 0x2B, 0x2C, 0x11, 0x34,
                ],
                None,
            ),
            (&[0x2D, 0x0D, 0x2E, 0x10, 0x11], Some(Slot::Elements)),
        ],
    );
}
