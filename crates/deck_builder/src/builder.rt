//! The tree of a whole text.

ghost use Rattle.std.specs.Prelude.{IfOk};
ghost use Rattle.deck_cursor.specs.Decks.{IsDeckOf};

use crate::statement::statements;
use deck_cursor::{Cursor, Stop, steps_are_a_deck};
use deck_tree::Statement;
use sqlite_items::Items;
use std::alloc::Global;

/// The statements that a text spells, in their order. Where it spells no deck, or has a token that is none or a round
/// bracket too many, `Wrong`. The work is linear in the text's bytes, and no call goes deeper than the round brackets
/// may.
pub fn build(alloc: Global, text: &[u8]) -> Result<Items<Statement>, Stop>
    ensures { IfOk result (λ all. IsDeckOf text.now all) }
{
    steps_are_a_deck();
    let mut cursor = Cursor::new(text);
    let all = statements(alloc, &mut cursor)?;
    if cursor.is_at_end() {
        Ok(all)
    } else {
        Err(Stop::Wrong)
    }
}
