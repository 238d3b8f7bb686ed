/// What a token is.
#[derive(Clone, Copy, Debug, PartialEq, Eq)]
pub enum TokenKind {
    /// A letter, `_` or `#`, then letters, digits, `_`, `.` and `$`.
    Word,
    /// Digits, with a point before, among or behind them or without one.
    Number,
    /// Printable bytes between quotes.
    Text,
    /// A bracket, `=`, or a sign of a comparison or of arithmetic.
    Sign,
    /// `@` and what stands behind it on its line.
    Note,
}

/// A token: its bytes are those from `start` up to `end`.
#[derive(Clone, Copy, Debug, PartialEq, Eq)]
pub struct Token {
    pub kind: TokenKind,
    pub start: usize,
    pub end: usize,
}

/// Why no token comes, and where.
#[derive(Clone, Copy, Debug, PartialEq, Eq)]
pub enum LexFault {
    /// A byte that begins no token, that a text can't hold, or that would continue a word straight behind a number.
    BadByte(usize),
    /// A `/*` without an end.
    OpenComment(usize),
    /// A quote whose line or deck ends before the closing one.
    OpenText(usize),
}
