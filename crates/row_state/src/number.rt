//! Numbers as values.

use crate::value::Value;

impl Value for u64 {
    ghost use Rattle.std.specs.Prelude.{nat_eq};
    ghost use Rattle.row_state.specs.Numbers.{same_number_equal, equal_number_same};

    ghost zero = { 0 };

    ghost same = { nat_eq };

    fn zero() -> u64 {
        0
    }

    fn is_same(&self, other: &u64) -> bool {
        *self == *other
    }

    ghost same_equal = { same_number_equal };

    ghost equal_same = { equal_number_same };
}
