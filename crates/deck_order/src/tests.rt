//! Orders of small sets of definitions.

use crate::{Ordered, are_within, order};
use std::alloc::Global;
use std::test::Fail;

/// The order, where each use is of one of the definitions.
fn checked_order(alloc: Global, uses: &[Vec<u32>]) -> Result<Ordered, Fail> {
    if uses.len() > 10_000 {
        return Err("too many".into());
    }
    if !are_within(uses) {
        return Err("a use of what is not there".into());
    }
    Ok(order(alloc, uses)?)
}

/// The order of definitions that use these.
fn order_of(alloc: Global, uses: &[&[u32]]) -> Result<Ordered, Fail> {
    let mut rows = Vec::new(alloc);
    for used in uses {
        let mut row = Vec::new(alloc);
        row.extend_from_slice(used)?;
        rows.push(row)?;
    }
    checked_order(alloc, &rows)
}

#[test]
fn definitions_stand_behind_what_they_use(rt: HostRuntime) -> Result<(), Fail> {
    let found = order_of(rt.alloc(), &[&[1, 2], &[3], &[2, 3], &[]])?;
    assert_eq!(rt; found.listed.as_slice(), [3, 1, 2, 0].as_slice());
    assert_eq!(rt;
        found.cyclic.as_slice(),
        [false, false, true, false].as_slice()
    );
    Ok(())
}

#[test]
fn what_lies_between_two_circles_is_not_cyclic(rt: HostRuntime) -> Result<(), Fail> {
    // 0 and 1 use each other, 2 lies between them and 3 and 4, and 5 uses 0 alone
    let found = order_of(rt.alloc(), &[&[1], &[2, 0], &[3], &[4], &[3], &[0]])?;
    assert_eq!(rt;
        found.cyclic.as_slice(),
        [true, true, false, true, true, false].as_slice()
    );
    assert_eq!(rt; found.listed.as_slice(), [4, 3, 2, 1, 0, 5].as_slice());
    Ok(())
}

#[test]
fn a_long_chain_and_a_long_circle(rt: HostRuntime) -> Result<(), Fail> {
    let alloc = rt.alloc();
    for circle in [false, true] {
        let mut rows = Vec::new(alloc);
        for number in 0..2_000u32 {
            let mut row = Vec::new(alloc);
            if number < 1_999 {
                row.push(number + 1)?;
            } else if circle {
                row.push(0)?;
            }
            rows.push(row)?;
        }
        let found = checked_order(alloc, &rows)?;
        assert_eq!(rt; found.listed.first().copied(), Some(1_999));
        assert_eq!(rt; found.listed.last().copied(), Some(0));
        assert!(rt; found.cyclic.iter().all(|flag| *flag == circle));
    }
    Ok(())
}

#[test]
fn uses_of_what_is_not_there(rt: HostRuntime) -> Result<(), Fail> {
    let alloc = rt.alloc();
    let mut rows = Vec::new(alloc);
    rows.push(vec![in alloc; 1]?)?;
    assert!(rt; !are_within(&rows));
    assert!(rt; are_within(&[]));
    Ok(())
}
