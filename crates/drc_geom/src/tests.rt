use crate::{Name, Pt, Run, Side, Turn, run_cmp};
use std::cmp::Ordering;
use std::test::Fail;

fn run(side: Side, line: i64, lo: i64, hi: i64) -> Run {
    Run { side, line, lo, hi }
}

#[test]
fn run_order_goes_by_low_end_then_left_then_side_then_length(rt: HostRuntime) -> Result<(), Fail> {
    let table = [
        run(Side::N, 0, 9, 10),
        run(Side::S, 1, 2, 3),
        run(Side::E, 4, 1, 2),
        run(Side::N, 2, 5, 7),
        run(Side::N, 2, 5, 9),
        run(Side::S, 2, 5, 6),
        run(Side::E, 5, 2, 4),
        run(Side::W, 5, 2, 3),
        run(Side::W, -6, 3, 9),
    ];
    for pair in table.windows(2) {
        if let [a, b] = pair {
            assert_eq!(rt; run_cmp(a, b), Ordering::Less, "{a:?} before {b:?}");
            assert_eq!(rt; run_cmp(b, a), Ordering::Greater, "{b:?} after {a:?}");
        }
    }
    let mut runs = Vec::from_slice(rt.alloc(), &table)?;
    runs.reverse();
    runs.sort_unstable();
    assert_eq!(rt; runs.as_slice(), table.as_slice());
    Ok(())
}

#[test]
fn a_name_lends_its_bytes(rt: HostRuntime) -> Result<(), Fail> {
    let name = Name::new(rt.alloc(), b"METAL1")?;
    assert_eq!(rt; name.bytes(), b"METAL1".as_slice());
    Ok(())
}

#[test]
fn eight_turns_of_a_point(rt: HostRuntime) {
    let table = [
        (false, 0, 1, 2),
        (false, 1, -2, 1),
        (false, 2, -1, -2),
        (false, 3, 2, -1),
        (true, 0, 1, -2),
        (true, 1, 2, 1),
        (true, 2, -1, 2),
        (true, 3, -2, -1),
    ];
    for (mirror, quarter, x, y) in table {
        let turn = Turn { mirror, quarter };
        assert_eq!(rt; turn.apply(Pt { x: 1, y: 2 }), Pt { x, y }, "{turn:?}");
    }
    // a quarter and then a mirroring is a mirroring and then three quarters
    let quarter = Turn {
        mirror: false,
        quarter: 1,
    };
    let mirror = Turn {
        mirror: true,
        quarter: 0,
    };
    assert_eq!(rt;
        quarter.then(&mirror),
        Turn {
            mirror: true,
            quarter: 3
        }
    );
}
