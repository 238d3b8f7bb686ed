//! The deck of a text.

ghost use Rattle.std.specs.Prelude.{◌≤◌, length, IfOk, IfErr};
ghost use Rattle.deck_lexer.specs.Sizes.{longest_deck};
ghost use Rattle.deck_cursor.specs.Decks.{IsDeckOf};
ghost use Rattle.deck_parser.specs.Parsed.{IsDeckText, IsFaultOf};

use deck_builder::build;
use deck_cursor::Stop;
use deck_lexer::LONGEST_DECK;
use deck_refusal::{refusal, statements_refusal};
use deck_tree::{Deck, DeckFault, Statement};
use sqlite_items::Items;
use std::alloc::Global;

// The refusal of a text that wasn't built. A text for which there is none is built where memory is ample.
fn fault_of(alloc: Global, text: &[u8]) -> DeckFault
    ensures { IsFaultOf text.now result }
{
    match refusal(alloc, text) {
        Ok(Some(refusal)) => DeckFault::Refused(refusal),
        Ok(None) => DeckFault::Memory,
        Err(_) => DeckFault::Memory,
    }
}

// The deck of the statements that a text spells, or the refusal for one that must be there or that stands twice.
fn deck_of(text: &[u8], statements: Items<Statement>) -> Result<Deck, DeckFault>
    requires size { length text.now ≤ longest_deck }
    requires deck { IsDeckOf text.now statements }
    ensures deck { IfOk result (λ deck. IsDeckText text.now deck) }
    ensures fault { IfErr result (λ fault. IsFaultOf text.now fault) }
{
    match statements_refusal(text, statements.as_slice()) {
        Some(refusal) => Err(DeckFault::Refused(refusal)),
        None => Ok(Deck {
            statements,
            length: text.len() as u64,
        }),
    }
}

/// The deck that a text spells, or the first fact for which it is refused: of its size; or else of its tokens; or else
/// of its grammar, at the first token that can't stand at its place; or else of the statements that must be there, or
/// stand once (docs/DECK.md). The work is linear in the text's bytes, and no call goes deeper than round brackets may.
pub fn parse(alloc: Global, text: &[u8]) -> Result<Deck, DeckFault>
    ensures deck { IfOk result (λ deck. IsDeckText text.now deck) }
    ensures fault { IfErr result (λ fault. IsFaultOf text.now fault) }
{
    if text.len() > LONGEST_DECK {
        return Err(fault_of(alloc, text));
    }
    match build(alloc, text) {
        Ok(statements) => deck_of(text, statements),
        Err(Stop::Memory) => Err(DeckFault::Memory),
        Err(Stop::Wrong) => Err(fault_of(alloc, text)),
    }
}
