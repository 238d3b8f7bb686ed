/// The signs.
#[derive(Clone, Copy, Debug, PartialEq, Eq)]
pub enum Sign {
    LeftBrace,
    RightBrace,
    LeftRound,
    RightRound,
    LeftSquare,
    RightSquare,
    Equals,
    EqualTo,
    Less,
    LessOrEqual,
    Greater,
    GreaterOrEqual,
    NotEqual,
    Plus,
    Minus,
    Times,
    Over,
    Modulo,
    Power,
}
