//! The top call: what the program does.
ghost use Rattle.std.specs.Prelude.{◌≡◌, ◌⊎◌, ◌↔◌, List, IsTrue, map, string_bytes};
ghost use Rattle.drc_ports.specs.Counts.{Rose};
ghost use Rattle.drc_ports.specs.Files.{world};
ghost use Rattle.drc_cli.specs.Working.CommandEnds.{CommandEnds};
ghost use Rattle.drc_cli.specs.Command.{Command as Asked, CheckRequest as Request, check as asked_check, format as asked_format, Asks, AsksForCheck, AreRefused};
ghost use Rattle.drc_cli.specs.Working.CommandView.{request_of, format_of};
ghost use Rattle.drc_cli.specs.Meaning.{Due};
ghost use Rattle.drc_cli.specs.Outcome.{Outcome};
ghost use Rattle.drc_cli.specs.ProgramEnds.{Ends, IsOutOfMemory, IsWhole, NoneFailed, HasDone, IsRefusal, MakesNothing};

use crate::answer::{Report, Status};
use crate::command::{CheckRequest, Command, FormatRequest, command_of};
use crate::decide::decide_check;
use crate::format::canonical_text;
use crate::laws::one_outcome;
use crate::publish::{say_result, write_results};
use crate::refuse::{say_ending, status_of};
use crate::whole::say_all;
use drc_ports::{Files, Gate};
use std::alloc::Global;
use std::sync::Wait;
use std::thread::Threads;

/// Does what the words after the program's name ask for: `check [--date TEXT] DECK` reads the deck and its layout,
/// writes the results file and says how many results there are; `fmt DECK` says the deck's canonical text. Anything else
/// is refused by a line and a status.
pub fn run<R: Threads + Wait + Sync, F: Files, G: Gate + Sync>(
    _rt: &R,
    alloc: Global,
    words: &[String],
    files: &mut F,
    _gate: &G,
) -> Report
    // The answer is Words exactly where the words ask for nothing that is served.
    ensures words { (result.status ≡ Status.Words) ↔ AreRefused (map string_bytes words.now) }

    // The run ends with the outcome that the words mean, or at a step of it that fails, or for want of memory.
    ensures ended { Ends (map string_bytes words.now) result.status F.tells
        (world (F.tally files.old) (F.contents files.old)) (world (F.tally files.new) (F.contents files.new)) }

    // Done: of a check, the results file holds exactly the bytes that deck and layout mean, and the line is said; of a deck
    // that is formatted, its canonical text is said.
    ensures results { IsTrue F.tells → result.status ≡ Status.Done
        → (command : Asked) × Asks (map string_bytes words.now) command
        × HasDone command (F.contents files.old) (F.contents files.new) }

    // Any answer but Done and a failure to write comes before a file is made.
    ensures unmade { IsRefusal result.status
        → MakesNothing F.tells
        (world (F.tally files.old) (F.contents files.old)) (world (F.tally files.new) (F.contents files.new)) }

    // Where no call fails, the outcome that is due over the files that are held is what happens, unless memory runs out ..
    ensures complete { IsTrue F.tells
        → (outcome : Outcome) → Due (F.contents files.old).held (map string_bytes words.now) outcome
        → NoneFailed (F.tally files.old) (F.tally files.new)
        → IsWhole outcome result.status F.tells
        (world (F.tally files.old) (F.contents files.old)) (world (F.tally files.new) (F.contents files.new))
        ⊎ (result.status ≡ Status.NoMemory) }

    // .. and what is refused is refused so, where no read fails.
    ensures refused { IsTrue F.tells
        → (outcome : Outcome) → Due (F.contents files.old).held (map string_bytes words.now) outcome
        → IsRefusal outcome.status
        → (Rose (F.tally files.old).read_faults (F.tally files.new).read_faults → ⊥)
        → (result.status ≡ outcome.status) ⊎ (result.status ≡ Status.NoMemory) }
{
    one_outcome();
    Report {
        status: answer(alloc, words, files),
    }
}

/// Whether the words are those of a command that waits for nobody, or are refused: all but those that ask for a check.
pub fn is_plain(words: &[String]) -> bool
    ensures { IsTrue result ↔ ((request : Request) → AsksForCheck (map string_bytes words.now) request → ⊥) }
{
    match command_of(words) {
        Some(Command::Check(_)) => false,
        Some(Command::Format(_)) => true,
        None => true,
    }
}

/// Does what plain words ask for, as `run` does. It waits for nobody.
pub fn run_plain<F: Files>(alloc: Global, words: &[String], files: &mut F) -> Status
    requires plain { (request : Request) → AsksForCheck (map string_bytes words.now) request → ⊥ }
    ensures ended { Ends (map string_bytes words.now) result F.tells
        (world (F.tally files.old) (F.contents files.old)) (world (F.tally files.new) (F.contents files.new)) }
{
    answer(alloc, words, files)
}

/// The end of a run whose words can't be kept for want of memory.
pub fn run_without_memory<F: Files>(files: &mut F) -> Report
    ensures { IsOutOfMemory result.status F.tells
        (world (F.tally files.old) (F.contents files.old)) (world (F.tally files.new) (F.contents files.new)) }
{
    let _ = say_all(files, b"memory\n");
    Report {
        status: Status::NoMemory,
    }
}

fn answer<F: Files>(alloc: Global, words: &[String], files: &mut F) -> Status
    ensures { Ends (map string_bytes words.now) result F.tells
        (world (F.tally files.old) (F.contents files.old)) (world (F.tally files.new) (F.contents files.new)) }
{
    match command_of(words) {
        Some(Command::Check(request)) => check(alloc, &request, files),
        Some(Command::Format(request)) => format(alloc, &request, files),
        None => {
            let _ = say_all(files, b"words\n");
            Status::Words
        }
    }
}

fn check<F: Files>(alloc: Global, request: &CheckRequest<'_>, files: &mut F) -> Status
    ensures { CommandEnds (asked_check (request_of request.now)) result F.tells
        (world (F.tally files.old) (F.contents files.old)) (world (F.tally files.new) (F.contents files.new)) }
{
    match decide_check(alloc, request, files) {
        Ok(ready) => write_results(files, ready),
        Err(ending) => {
            let _ = say_ending(files, &ending);
            status_of(&ending)
        }
    }
}

fn format<F: Files>(alloc: Global, request: &FormatRequest<'_>, files: &mut F) -> Status
    ensures { CommandEnds (asked_format (format_of request.now)) result F.tells
        (world (F.tally files.old) (F.contents files.old)) (world (F.tally files.new) (F.contents files.new)) }
{
    match canonical_text(alloc, request, files) {
        Ok(text) => say_result(files, &text),
        Err(ending) => {
            let _ = say_ending(files, &ending);
            status_of(&ending)
        }
    }
}
