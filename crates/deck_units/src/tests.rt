//! Values at the ends of ranges, and one unit past them.
use crate::{UnitFault, ValuePlace, in_range, range_of};
use drc_num::Frac;
use std::test::Fail;

#[test]
fn ends_of_ranges(rt: HostRuntime) -> Result<(), Fail> {
    let table: [(ValuePlace, u32, i64, u32, Result<i128, UnitFault>); 13] = [
        (ValuePlace::Distance, 1000, 1, 5, Ok(200)),
        (
            ValuePlace::Distance,
            1000,
            1,
            2000,
            Err(UnitFault::ValueRange),
        ),
        (ValuePlace::Distance, 1000, 3, 2000, Err(UnitFault::OffGrid)),
        (ValuePlace::Size, 1000, 1, 2000, Err(UnitFault::OffGrid)),
        (ValuePlace::Size, 1, -16777216, 1, Ok(-16777216)),
        (
            ValuePlace::Size,
            1,
            -16777217,
            1,
            Err(UnitFault::ValueRange),
        ),
        (ValuePlace::TurnedSize, 1, -1, 1, Err(UnitFault::ValueRange)),
        (ValuePlace::Length, 1000, 0, 1, Ok(0)),
        (ValuePlace::Area, 1_000_000, 1, 4, Ok(250_000_000_000)),
        (ValuePlace::LayerNumber, 1000, 65535, 1, Ok(65535)),
        (
            ValuePlace::LayerNumber,
            1000,
            65536,
            1,
            Err(UnitFault::ValueRange),
        ),
        (ValuePlace::Abut, 1000, 90, 1, Ok(90)),
        (
            ValuePlace::MaximumResults,
            1000,
            5,
            2,
            Err(UnitFault::ValueRange),
        ),
    ];
    for (place, precision, num, den, want) in table {
        let value = Frac::new(i128::from(num), u128::from(den.max(1))).ok_or("fits")?;
        let range = range_of(place, precision.min(1_000_000));
        assert_eq!(rt; in_range(&value, &range), want);
    }
    Ok(())
}
