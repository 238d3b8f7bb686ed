ghost use Rattle.std.specs.Prelude.{◌+◌, ◌%◌, ◌^◌};

use crate::{Change, Piece, RowState};
use std::alloc::{AllocError, Global};
use std::process::Abort;
use std::test::Fail;

#[derive(Clone, Copy)]
struct Add(u64);

impl Change<u64> for Add {
    ghost makes = { λ c v. (v + c.0) % 2 ^ 64 };

    fn make(&self, old: u64) -> u64 {
        old.wrapping_add(self.0)
    }
}

// The values that pieces tell of a column.
fn told(pieces: &[Piece<u64>], x: i64) -> (usize, u64) {
    let mut count = 0usize;
    let mut value = 0;
    for piece in pieces {
        if piece.x0 <= x && x < piece.x1 {
            count = count.saturating_add(1);
            value = piece.old;
        }
    }
    (count, value)
}

fn check_change(
    rt: &impl Abort,
    row: &mut RowState<u64>,
    want: &mut [u64],
    columns: (u32, u32),
    by: u64,
    pieces: &mut Vec<Piece<u64>>,
) -> Result<(), AllocError> {
    let (x0, x1) = columns;
    if x0 < x1 {
        row.change(i64::from(x0), i64::from(x1), &Add(by), pieces)?;
        for x in x0..x1 {
            let place = x as usize;
            if place < want.len() {
                assert_eq!(rt;
                    told(pieces, i64::from(x)),
                    (1, want[place]),
                    "{x} of {x0} to {x1}"
                );
                want[place] = want[place].wrapping_add(by);
            }
        }
        assert_eq!(rt; told(pieces, i64::from(x1)).0, 0);
    }
    Ok(())
}

#[test]
fn a_row_against_a_list_of_columns(rt: HostRuntime) -> Result<(), Fail> {
    let mut row = RowState::new(rt.alloc());
    let mut want = vec![in rt.alloc(); 0u64; 2000]?;
    let mut pieces = Vec::new(rt.alloc());
    for turn in 0..900u32 {
        let x0 = turn * 613 % 1900;
        let x1 = x0 + 1 + turn * 257 % 90;
        let by = if turn % 3 == 0 { u64::MAX } else { 1 };
        check_change(&rt, &mut row, &mut want, (x0, x1), by, &mut pieces)?;
    }
    for turn in 0..20u32 {
        check_change(
            &rt,
            &mut row,
            &mut want,
            (turn, 2000 - turn),
            1,
            &mut pieces,
        )?;
    }
    Ok(())
}

#[test]
fn what_is_changed_back_leaves_no_entry(rt: HostRuntime) -> Result<(), Fail> {
    let mut row = RowState::new(rt.alloc());
    let mut pieces = Vec::new(rt.alloc());
    for by in [1, u64::MAX] {
        for turn in 0..200u32 {
            let x0 = i64::from(3 * turn);
            row.change(x0, x0 + 2, &Add(by), &mut pieces)?;
        }
    }
    row.change(-1_000, 1_000, &Add(1), &mut pieces)?;
    assert_eq!(rt; pieces.len(), 1);
    Ok(())
}
