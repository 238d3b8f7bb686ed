/// The end of a flip: the line of x on which it lies, and its row. The numbers are database units.
#[derive(Clone, Copy, Debug, PartialEq, Eq)]
pub(crate) struct Corner {
    pub(crate) line: i64,
    pub(crate) row: i64,
}
