use crate::stretch::Stretch;
use row_state::Change;

/// Passes a line of x: a stretch ends there, or one begins.
#[derive(Clone, Copy)]
pub(crate) struct Pass {
    pub(crate) line: i64,
}

impl Change<Stretch> for Pass {
    ghost use Rattle.region_rects.specs.Working.Stretches.{passed};

    ghost makes = { λ c v. passed c.line v };

    fn make(&self, old: Stretch) -> Stretch {
        match old {
            Stretch::None => Stretch::From(self.line),
            Stretch::From(_) => Stretch::None,
        }
    }
}
