/// What is done with the regions of the two layers.
#[derive(Clone, Copy, Debug)]
pub enum Operation {
    And,
    Or,
    Not,
    Xor,
    Size,
    Rectangles,
    Boundary,
}

impl Operation {
    /// The operation that a word of the command line means.
    pub fn of_word(word: &str) -> Option<Operation> {
        match word {
            "and" => Some(Operation::And),
            "or" => Some(Operation::Or),
            "not" => Some(Operation::Not),
            "xor" => Some(Operation::Xor),
            "size" => Some(Operation::Size),
            "rectangles" => Some(Operation::Rectangles),
            "boundary" => Some(Operation::Boundary),
            _ => None,
        }
    }
}
