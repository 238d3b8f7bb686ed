use crate::{Keyword, Sign};

/// What a token is to the grammar.
#[derive(Clone, Copy, Debug, PartialEq, Eq)]
pub enum Kind {
    Keyword(Keyword),
    /// A word of the language that is set aside.
    SetAside,
    Name,
    Number,
    Text,
    Note,
    Sign(Sign),
}
