//! Names and numbers that follow one another.

ghost use Rattle.std.specs.Prelude.{◌≡◌, ◌∷◌, IfOk};
ghost use Rattle.deck_grammar.specs.Rules as r;
ghost use Rattle.deck_cursor.specs.Steps.{Reads};

use crate::tokens::{name, number};
use deck_cursor::{Cursor, Stop};
use deck_grammar::Kind;
use deck_tree::{NameAt, Number};
use sqlite_items::Items;
use std::alloc::{AllocError, Global};

/// An item, and those behind it.
pub fn with_first<T: Drop>(alloc: Global, first: T, more: Items<T>) -> Result<Items<T>, AllocError>
    ensures { IfOk result (λ all. all ≡ first ∷ more) }
{
    let mut all = Items::new(alloc);
    all.push(first)?;
    all.append(more)?;
    Ok(all)
}

/// Names up to the first other token.
pub fn names(alloc: Global, cursor: &mut Cursor<'_>) -> Result<Items<NameAt>, Stop>
    ensures { IfOk result (λ all. Reads r.names cursor.old cursor.new all) }
{
    let mut found = Items::new(alloc);
    for _turn in 0..cursor.left() {
        match cursor.peek() {
            Some(Kind::Name) => found.push(name(alloc, cursor)?)?,
            _ => return Ok(found),
        }
    }
    Ok(found)
}

/// Numbers up to the first other token.
pub fn numbers(alloc: Global, cursor: &mut Cursor<'_>) -> Result<Items<Number>, Stop>
    ensures { IfOk result (λ all. Reads r.numbers cursor.old cursor.new all) }
{
    let mut found = Items::new(alloc);
    for _turn in 0..cursor.left() {
        match cursor.peek() {
            Some(Kind::Number) => found.push(number(alloc, cursor)?)?,
            _ => return Ok(found),
        }
    }
    Ok(found)
}
