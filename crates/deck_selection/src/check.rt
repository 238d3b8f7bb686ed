//! A check of a deck.

use deck_tree::{Item, NameAt};

/// A check: its number among all checks of the deck, from 0 on, its name, and its parts.
#[derive(Clone, Copy)]
pub struct Check<'d> {
    pub number: u32,
    pub name: &'d NameAt,
    pub items: &'d [Item],
}
