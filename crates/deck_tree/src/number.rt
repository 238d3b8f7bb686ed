use sqlite_items::Items;

/// A number as canonical text shows it, and the offset of its first byte in the deck.
#[derive(Debug, Drop)]
pub struct Number {
    pub at: u64,
    /// The digits before the point: `0` alone, or no leading zero.
    pub whole: Items<u8>,
    /// The digits behind the point, the last of them no zero. With none there is no point.
    pub fraction: Items<u8>,
}
