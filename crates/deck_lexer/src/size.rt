/// The most bytes of a text that is read as a deck.
pub const LONGEST_DECK: usize = 4_194_304;
