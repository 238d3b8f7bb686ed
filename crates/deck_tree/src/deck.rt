use crate::Statement;
use sqlite_items::Items;

/// What a deck says.
#[derive(Drop)]
pub struct Deck {
    pub statements: Items<Statement>,
    /// How many bytes its text has.
    pub length: u64,
}
