//! The results file is written, and the line of the command is said.
ghost use Rattle.std.specs.Prelude.{◌≡◌, [], ◌∷◌, string_bytes};
ghost use Rattle.drc_ports.specs.Files.{world};
ghost use Rattle.drc_cli.specs.declared.answer.Which.TheVariants.{Results};
ghost use Rattle.drc_cli.specs.Working.Decide.{last_steps};
ghost use Rattle.drc_cli.specs.Outcome.{writes, says};
ghost use Rattle.drc_cli.specs.ProgramEnds.{EndsAs};
ghost use Rattle.drc_cli.specs.Working.Endings.{said_status};
ghost use Rattle.drc_cli.specs.Working.Tries.{Tries};

use crate::answer::{Status, Which};
use crate::lines::say_three;
use crate::ready::Ready;
use crate::whole::{say_all, write_all};
use drc_ports::{Failed, Files};

/// Makes the file, writes its text, and says the line. Where the file can't be written, says which it is.
pub fn write_results<F: Files>(files: &mut F, ready: Ready) -> Status
    requires named { ready.name ≡ string_bytes ready.file }
    ensures { EndsAs (record { status = Status.Done; steps = last_steps ready }) result F.tells
        (world (F.tally files.old) (F.contents files.old)) (world (F.tally files.new) (F.contents files.new)) }
{
    let Ready {
        file,
        name,
        text,
        line,
    } = ready;
    match write_file(files, file, &text) {
        Err(_) => {
            let _ = say_three(files, b"write ", name.bytes(), b"\n");
            Status::WriteFault(Which::Results)
        }
        Ok(()) => say_result(files, &line),
    }
}

/// Says the text of a command that is done but for it.
pub fn say_result<F: Files>(files: &mut F, text: &[u8]) -> Status
    ensures { EndsAs (record { status = Status.Done; steps = says text.now ∷ [] }) result F.tells
        (world (F.tally files.old) (F.contents files.old)) (world (F.tally files.new) (F.contents files.new)) }
{
    said_status(say_all(files, text))
}

/// The status of a command that is done but for its line.
fn said_status(said: Result<(), Failed>) -> Status
    ensures { result ≡ said_status said }
{
    match said {
        Ok(()) => Status::Done,
        Err(_) => Status::WriteFault(Which::Output),
    }
}

fn write_file<F: Files>(files: &mut F, file: String, text: &[u8]) -> Result<(), Failed>
    ensures { Tries F.tells (writes Results (string_bytes file) text.now) result
        (world (F.tally files.old) (F.contents files.old)) (world (F.tally files.new) (F.contents files.new)) }
{
    match files.create(file) {
        Err(failed) => Err(failed),
        Ok(()) => write_all(files, text),
    }
}
