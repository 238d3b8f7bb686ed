/// How many units one is, and from where to where a place takes them.
#[derive(Clone, Copy, Debug, PartialEq, Eq)]
pub struct Range {
    pub scale: u64,
    pub low: i64,
    /// None where there is no bound above.
    pub high: Option<i64>,
    /// Whether what isn't whole is out of range, and not off grid.
    pub is_count: bool,
}
