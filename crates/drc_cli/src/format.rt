//! The canonical text of a deck.
ghost use Rattle.std.specs.Prelude.{◌≡◌};
ghost use Rattle.drc_ports.specs.Files.{world};
ghost use Rattle.drc_cli.specs.Command.{format as asked_format};
ghost use Rattle.drc_cli.specs.Working.CommandView.{format_of};
ghost use Rattle.drc_cli.specs.Working.Decide.{IsPrinted};

use crate::command::FormatRequest;
use crate::deck_text::read_deck;
use crate::ending::Ending;
use deck_printer::print;
use drc_ports::Files;
use std::alloc::Global;

/// Reads the deck, and makes the text that will be said.
pub fn canonical_text<F: Files>(
    alloc: Global,
    request: &FormatRequest<'_>,
    files: &mut F,
) -> Result<Vec<u8>, Ending>
    ensures { IsPrinted (asked_format (format_of request.now)) result F.tells
        (world (F.tally files.old) (F.contents files.old)) (world (F.tally files.new) (F.contents files.new)) }
{
    match read_deck(alloc, request.deck, files) {
        Err(ending) => Err(ending),
        Ok(deck) => Ok(print(alloc, &deck)?),
    }
}
