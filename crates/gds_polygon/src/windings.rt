use region_sweep::Evaluator;

/// Counts how often an outline winds round a column: once more where it goes east, once less where it goes west.
#[derive(Clone, Copy)]
pub(crate) struct Windings;

impl Evaluator<u64> for Windings {
    ghost use Rattle.std.specs.Prelude.{◌+◌, ◌-◌, ◌%◌, ◌^◌, ◌==◌, not, refl};
    ghost use Rattle.gds_polygon.specs.Working.Windings.{turns, counts_east, counts_west};

    ghost first = { λ _ v. (v + 1) % 2 ^ 64 };

    ghost second = { λ _ v. (v + (2 ^ 64 - 1)) % 2 ^ 64 };

    ghost inside = { λ _ v. not (v == 0) };

    ghost counted = { λ _ east west. turns east west };

    fn first(&self, value: u64) -> u64 {
        value.wrapping_add(1)
    }

    fn second(&self, value: u64) -> u64 {
        value.wrapping_add(u64::MAX)
    }

    fn is_inside(&self, value: u64) -> bool {
        value != 0
    }

    ghost counts_none = { λ _. refl };

    ghost none_inside = { λ _. refl };

    ghost counts_first = { λ _ a b. counts_east a b };

    ghost counts_second = { λ _ a b. counts_west a b };
}
