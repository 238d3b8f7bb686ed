use crate::{MapRow, Reads, Wire, Wiring, reader_counts};
use std::process::Abort;
use std::test::Fail;

fn wire(first: Option<u32>, second: Option<u32>, reported: bool) -> Wire {
    Wire {
        first,
        second,
        reported,
    }
}

#[test]
fn a_layer_read_twice_by_one_operation(rt: HostRuntime) -> Result<(), Fail> {
    let wires = vec![in rt.alloc();
        wire(None, None, false),
        wire(Some(0), Some(0), false),
        wire(Some(1), None, true),
    ]?;
    assert_eq!(rt;
        reader_counts(rt.alloc(), &wires)?.as_slice(),
        [2, 1, 0].as_slice()
    );
    match Wiring::checked(rt.alloc(), wires)? {
        Some(wiring) => assert_eq!(rt; wiring.list().len(), 3),
        None => assert!(rt; false, "a wiring"),
    }
    Ok(())
}

#[test]
fn lists_that_are_no_wiring(rt: HostRuntime) -> Result<(), Fail> {
    let read_by_nobody = vec![in rt.alloc(); wire(None, None, false)]?;
    let reads_itself = vec![in rt.alloc(); wire(Some(0), None, true)]?;
    let reads_a_higher_one = vec![in rt.alloc();
        wire(None, Some(1), true),
        wire(None, None, false),
    ]?;
    let second_alone = vec![in rt.alloc(); wire(None, None, true), wire(None, Some(0), true)]?;
    for wires in [
        read_by_nobody,
        reads_itself,
        reads_a_higher_one,
        second_alone,
    ] {
        assert!(rt; Wiring::checked(rt.alloc(), wires)?.is_none());
    }
    Ok(())
}

/// Layers and data types of the layout, by the rows of LAYER MAP and the numbers that are read.
#[test]
fn where_shapes_go(rt: HostRuntime) -> Result<(), Fail> {
    let row = |layer: u32, datatype: u32, target: u32| MapRow {
        layer,
        datatype,
        target,
    };
    let maps = vec![in rt.alloc(); row(7, 0, 31), row(7, 0, 32), row(65535, 65534, 9)]?;
    let reads = Reads::new(maps, vec![in rt.alloc(); 9, 7, 32, 7]?);
    let given = [
        (7, 0, 31, true),
        (7, 0, 32, true),
        (7, 0, 7, false),
        (7, 1, 7, true),
        (7, 1, 31, false),
        (-1, -2, 9, true),
        (-1, -2, 65535, false),
        (-1, 0, 65535, true),
    ];
    for (layer, datatype, number, want) in given {
        assert_eq!(rt;
            reads.gives(layer, datatype, number),
            want,
            "{layer} {datatype} to {number}"
        );
    }
    let taken = [
        (7, 0, true),
        (7, 5, true),
        (-1, -2, true),
        (-1, 0, false),
        (32, 3, true),
        (8, 0, false),
    ];
    for (layer, datatype, want) in taken {
        assert_eq!(rt; reads.takes(layer, datatype), want, "{layer} {datatype}");
    }
    Ok(())
}
