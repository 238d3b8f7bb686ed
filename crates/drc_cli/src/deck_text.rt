//! A deck is read and parsed.
ghost use Rattle.std.specs.Prelude.{◌≡◌};
ghost use Rattle.drc_ports.specs.Files.{world};
ghost use Rattle.drc_cli.specs.Working.Decide.{IsTextRead, IsDeckRead, IsDeckParsed};

use crate::answer::Which;
use crate::detail::detail_of;
use crate::ending::Ending;
use crate::read::{ReadEnd, read_whole};
use deck_lexer::LONGEST_DECK;
use deck_parser::parse;
use deck_tree::{Deck, DeckFault};
use drc_geom::Name;
use drc_ports::Files;
use std::alloc::Global;

/// The deck that the file of this name spells, or the refusal of its text.
pub fn read_deck<F: Files>(alloc: Global, name: &str, files: &mut F) -> Result<Deck, Ending>
    ensures { IsDeckRead name.now result F.tells
        (world (F.tally files.old) (F.contents files.old)) (world (F.tally files.new) (F.contents files.new)) }
{
    match read_text(alloc, name, files) {
        Err(ending) => Err(ending),
        Ok(text) => deck_of(alloc, &text),
    }
}

/// The deck's text; of one that is longer than the longest, more than so many bytes of its front.
fn read_text<F: Files>(alloc: Global, name: &str, files: &mut F) -> Result<Vec<u8>, Ending>
    ensures { IsTextRead name.now result F.tells
        (world (F.tally files.old) (F.contents files.old)) (world (F.tally files.new) (F.contents files.new)) }
{
    let file = String::from_str(alloc, name)?;
    let kept = Name::new(alloc, name.as_bytes())?;
    if files.begin_read(file).is_err() {
        return Err(Ending::ReadFault(Which::Deck, kept));
    }
    match read_whole(alloc, files, LONGEST_DECK) {
        Ok(text) => Ok(text),
        Err(ReadEnd::Memory) => Err(Ending::Memory),
        Err(ReadEnd::Failed) => Err(Ending::ReadFault(Which::Deck, kept)),
    }
}

/// The deck that a text spells, or its refusal with the detail.
fn deck_of(alloc: Global, text: &[u8]) -> Result<Deck, Ending>
    ensures { IsDeckParsed text.now result }
{
    match parse(alloc, text) {
        Ok(deck) => Ok(deck),
        Err(DeckFault::Memory) => Err(Ending::Memory),
        Err(DeckFault::Refused(refusal)) => {
            let detail = detail_of(alloc, text, &refusal)?;
            Err(Ending::Deck(refusal, detail))
        }
    }
}
