//! What a check will write, or why it writes nothing: all that happens before the first file is made.
ghost use Rattle.std.specs.Prelude.{◌≡◌, IfOk, map};
ghost use Rattle.std.specs.List.{AllByRecursion};
ghost use Rattle.drc_geom.specs.Squares.{IsRect};
ghost use Rattle.drc_ports.specs.Files.{world};
ghost use Rattle.first_form.specs.FirstForm.{IsFileName, limit};
ghost use Rattle.drc_cli.specs.Command.{check as asked_check};
ghost use Rattle.drc_cli.specs.Working.CommandView.{request_of};
ghost use Rattle.drc_cli.specs.Text.{run};
ghost use Rattle.drc_cli.specs.Working.TextView.{results_of};
ghost use Rattle.drc_cli.specs.Working.Decide.{IsLayoutRead, IsReady, IsDecided};

use crate::answer::Which;
use crate::command::CheckRequest;
use crate::deck_text::read_deck;
use crate::ending::Ending;
use crate::file_name::text_of_name;
use crate::layout::{LayoutEnd, read_layout};
use crate::ready::Ready;
use crate::short_runs::short_runs;
use crate::text::{CheckResults, Found, results_text, said_text};
use deck_tree::{DeckKind, DeckRefusal};
use drc_geom::{Name, Rect, Run};
use drc_ports::Files;
use first_form::{FirstDeck, LIMIT, PRECISION, first_deck};
use std::alloc::{AllocError, Global};

/// What is said of a deck that isn't served.
const UNSERVED: DeckRefusal = DeckRefusal {
    at: 0,
    kind: DeckKind::NotBuilt,
};

/// Reads deck and layout, and makes all that the check will write and say.
pub fn decide_check<F: Files>(
    alloc: Global,
    request: &CheckRequest<'_>,
    files: &mut F,
) -> Result<Ready, Ending>
    ensures { IsDecided (asked_check (request_of request.now)) result F.tells
        (world (F.tally files.old) (F.contents files.old)) (world (F.tally files.new) (F.contents files.new)) }
{
    match read_deck(alloc, request.deck, files) {
        Err(ending) => Err(ending),
        Ok(deck) => match first_deck(&deck, request.deck.as_bytes()) {
            None => Err(Ending::Deck(UNSERVED, Name::new(alloc, b"")?)),
            Some(found) => match layout_rects(alloc, &found, files) {
                Err(ending) => Err(ending),
                Ok(rects) => Ok(ready(alloc, request.date, &found, rects)?),
            },
        },
    }
}

/// The rectangles of the layer that is checked.
fn layout_rects<F: Files>(
    alloc: Global,
    deck: &FirstDeck<'_>,
    files: &mut F,
) -> Result<Vec<Rect>, Ending>
    requires layout { IsFileName deck.now.layout.now }
    ensures read { IsLayoutRead deck.now result F.tells
        (world (F.tally files.old) (F.contents files.old)) (world (F.tally files.new) (F.contents files.new)) }
    ensures rects { IfOk result (λ rects. AllByRecursion IsRect rects.items) }
{
    let file = text_of_name(alloc, deck.layout)?;
    let kept = Name::new(alloc, deck.layout)?;
    if files.begin_read(file).is_err() {
        return Err(Ending::ReadFault(Which::Layout, kept));
    }
    match read_layout(alloc, files, deck.primary, deck.number) {
        Ok(rects) => Ok(rects),
        Err(LayoutEnd::Refused(refusal)) => Err(Ending::Layout(refusal)),
        Err(LayoutEnd::ReadFault) => Err(Ending::ReadFault(Which::Layout, kept)),
        Err(LayoutEnd::Memory) => Err(Ending::Memory),
    }
}

/// What is written and said of the rectangles.
fn ready<'a>(
    alloc: Global,
    date: &'a str,
    deck: &FirstDeck<'a>,
    rects: Vec<Rect>,
) -> Result<Ready, AllocError>
    requires results { IsFileName deck.now.results.now }
    requires rects { AllByRecursion IsRect rects.items }
    ensures { IfOk result (λ ready. IsReady date.now deck.now rects.items ready) }
{
    let runs = short_runs(alloc, rects, deck.bound)?;
    let note = [Name::new(alloc, deck.note)?];
    let checks = [found_by(deck.check, &note, date, &runs)];
    let text = results_text(alloc, deck.primary, PRECISION, &checks)?;
    let line = said_text(alloc, &checks)?;
    let file = text_of_name(alloc, deck.results)?;
    let name = Name::new(alloc, deck.results)?;
    Ok(Ready {
        file,
        name,
        text,
        line,
    })
}

/// What the check writes.
fn found_by<'a>(
    name: &'a [u8],
    notes: &'a [Name],
    date: &'a str,
    runs: &'a [Run],
) -> CheckResults<'a>
    ensures { results_of result ≡ record { name = name.now; notes = notes.now; limit = limit; date = date.now; results = map run runs.now } }
{
    CheckResults {
        name,
        notes,
        limit: LIMIT,
        date: date.as_bytes(),
        found: Found::Runs(runs),
    }
}
