use row_state::Value;

/// Whether a row has a stretch that has begun, and the line of x on which it began, in database units.
#[derive(Clone, Copy, Debug)]
pub(crate) enum Stretch {
    None,
    From(i64),
}

impl Value for Stretch {
    ghost use Rattle.region_rects.specs.declared.stretch.Stretch.TheVariants.{None, From};
    ghost use Rattle.region_rects.specs.Working.Stretches.{same_stretch, same_equal, equal_same};

    ghost zero = { None };

    ghost same = { same_stretch };

    fn zero() -> Stretch {
        Stretch::None
    }

    fn is_same(&self, other: &Stretch) -> bool {
        match (*self, *other) {
            (Stretch::None, Stretch::None) => true,
            (Stretch::From(a), Stretch::From(b)) => a == b,
            (Stretch::None, Stretch::From(_)) | (Stretch::From(_), Stretch::None) => false,
        }
    }

    ghost same_equal = { same_equal };

    ghost equal_same = { equal_same };
}
