//! What ends a command before it writes is said, and is the status of the run.
ghost use Rattle.std.specs.Prelude.{◌≡◌, [], ◌∷◌};
ghost use Rattle.drc_ports.specs.Files.{world};
ghost use Rattle.drc_cli.specs.Working.Endings.{status_of, line_of};
ghost use Rattle.drc_cli.specs.Outcome.{says};
ghost use Rattle.drc_cli.specs.Working.Tries.{Tries};

use crate::answer::Status;
use crate::ending::Ending;
use crate::lines::{Reason, say_refusal, say_three};
use crate::whole::say_all;
use drc_ports::{Failed, Files};

/// Says the line of an ending. Where a call fails a front of it was said, and the failure is handed on.
pub fn say_ending<F: Files>(files: &mut F, ending: &Ending) -> Result<(), Failed>
    ensures { Tries F.tells (says (line_of ending.now)) result
        (world (F.tally files.old) (F.contents files.old)) (world (F.tally files.new) (F.contents files.new)) }
{
    match ending {
        Ending::Deck(refusal, detail) => {
            let reason = Reason {
                number: refusal.kind.number(),
                at: refusal.at,
                word: refusal.kind.word().as_bytes(),
                detail: detail.bytes(),
            };
            say_refusal(files, b"deck", &reason)
        }
        Ending::Layout(refusal) => {
            let reason = Reason {
                number: refusal.kind.number(),
                at: refusal.at,
                word: refusal.kind.word().as_bytes(),
                detail: b"",
            };
            say_refusal(files, b"layout", &reason)
        }
        Ending::ReadFault(_, name) => say_three(files, b"read ", name.bytes(), b"\n"),
        Ending::Memory => say_all(files, b"memory\n"),
    }
}

/// The status of a run that ends so.
pub fn status_of(ending: &Ending) -> Status
    ensures { result ≡ status_of ending.now }
{
    match ending {
        Ending::Deck(refusal, _) => Status::Deck(*refusal),
        Ending::Layout(refusal) => Status::Layout(*refusal),
        Ending::ReadFault(file, _) => Status::ReadFault(*file),
        Ending::Memory => Status::NoMemory,
    }
}
