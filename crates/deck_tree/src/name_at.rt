use drc_geom::Name;

/// A name, or a file without its quotes, and the offset of its first byte in the deck (of the quote, where it has one).
#[derive(Debug, Drop)]
pub struct NameAt {
    pub at: u64,
    pub name: Name,
}
