ghost use Rattle.std.specs.Prelude.{◌≡◌};
ghost use Rattle.interval_row.specs.Working.Operations.{joined};

/// What is kept of two rows.
#[derive(Clone, Copy)]
pub enum Operation {
    And,
    Or,
    Not,
    Xor,
}

impl Operation {
    /// Whether a place is kept that the first row has or not, and the second has or not.
    pub fn keeps(self, first: bool, second: bool) -> bool
        ensures { result ≡ joined self first second }
    {
        match self {
            Operation::And => first && second,
            Operation::Or => first || second,
            Operation::Not => first && !second,
            Operation::Xor => first != second,
        }
    }
}
