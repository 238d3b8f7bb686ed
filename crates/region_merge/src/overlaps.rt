use region_sweep::Evaluator;

/// Counts the rectangles that cross a column: one more where one begins, one less where one ends.
#[derive(Clone, Copy)]
pub(crate) struct Overlaps;

impl Evaluator<u64> for Overlaps {
    ghost use Rattle.std.specs.Prelude.{◌+◌, ◌-◌, ◌%◌, ◌^◌, ◌==◌, not, refl};
    ghost use Rattle.region_merge.specs.Working.Overlaps.{open_count, counts_begun, counts_ended};

    ghost first = { λ _ v. (v + 1) % 2 ^ 64 };

    ghost second = { λ _ v. (v + (2 ^ 64 - 1)) % 2 ^ 64 };

    ghost inside = { λ _ v. not (v == 0) };

    ghost counted = { λ _ begun ended. open_count begun ended };

    fn first(&self, value: u64) -> u64 {
        value.wrapping_add(1)
    }

    fn second(&self, value: u64) -> u64 {
        value.wrapping_add(u64::MAX)
    }

    fn is_inside(&self, value: u64) -> bool {
        value != 0
    }

    ghost counts_none = { λ _. refl };

    ghost none_inside = { λ _. refl };

    ghost counts_first = { λ _ a b. counts_begun a b };

    ghost counts_second = { λ _ a b. counts_ended a b };
}
