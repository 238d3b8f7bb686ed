//! The text of a whole deck.

ghost use Rattle.std.specs.Prelude.{◌≡◌, IfOk};
ghost use Rattle.deck_printer.specs.Canonical.{canonical};

use crate::statement::push_statement;
use deck_tree::Deck;
use std::alloc::{AllocError, Global};

/// The canonical text of the deck. It goes no deeper than the deck's brackets do, and errs only where memory runs out.
pub fn print(alloc: Global, deck: &Deck) -> Result<Vec<u8>, AllocError>
    ensures { IfOk result (λ text. text.items ≡ canonical deck.now) }
{
    let mut text = Vec::new(alloc);
    for statement in deck.statements.as_slice() {
        push_statement(&mut text, statement)?;
    }
    Ok(text)
}
