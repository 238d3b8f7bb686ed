use region_sweep::Evaluator;

/// Which squares of two regions are kept.
#[derive(Clone, Copy)]
pub(crate) enum Operation {
    And,
    Or,
    Not,
}

impl Evaluator<u64> for Operation {
    ghost use Rattle.std.specs.Prelude.{bit_xor, refl};
    ghost use Rattle.region_bool.specs.Working.Tables.{turned, inside_of, turns_first, turns_second, none_inside};

    ghost first = { λ _ v. bit_xor v 1 };

    ghost second = { λ _ v. bit_xor v 2 };

    ghost inside = { λ e v. inside_of e v };

    ghost counted = { λ _ a b. turned a b };

    fn first(&self, value: u64) -> u64 {
        value ^ 1
    }

    fn second(&self, value: u64) -> u64 {
        value ^ 2
    }

    fn is_inside(&self, value: u64) -> bool {
        match self {
            Operation::And => value == 3,
            Operation::Or => value != 0,
            Operation::Not => value == 1,
        }
    }

    ghost counts_none = { λ _. refl };

    ghost none_inside = { λ e. none_inside e };

    ghost counts_first = { λ _ a b. turns_first a b };

    ghost counts_second = { λ _ a b. turns_second a b };
}
