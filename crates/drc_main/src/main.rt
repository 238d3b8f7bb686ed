//! The program `drc`: a design rule checker for chip layouts, whose answers are proved. All that it does is the top
//! call of `drc_cli`; here the words, the files, the output and the gate are the real ones.
#![tactic(auto)]

ghost use Rattle.std.specs.Prelude.{◌≡◌, ◌≢◌, [], IsErr, IfOk, IfErr, IsOkAnd, map, string_bytes};
ghost use Rattle.std.specs.IoError.{error_kind};
ghost use Rattle.drc_ports.specs.Files.{world};
ghost use Rattle.drc_cli.specs.ProgramEnds.{Ends, IsOutOfMemory};

use drc_cli::{Report, run, run_without_memory};
use drc_ports::{Files, OpenGate, RealFiles};
use std::alloc::{AllocError, Global};
use std::fs::File;
use std::io::ErrorKind;
use std::process::ExitCode;
use std::rt::Env;
use std::sync::Wait;
use std::thread::Threads;
use std::{env, io};

/// What is opened in the place of a standard stream that is closed.
const NOTHING: &str = "/dev/null";

fn main(rt: HostRuntime) -> ExitCode {
    // A standard stream that is closed must not give its number to a file that is opened later.
    let _first = File::open(&rt, NOTHING);
    let _second = File::open(&rt, NOTHING);
    let _third = File::open(&rt, NOTHING);
    let alloc = rt.alloc();
    let words = text_words(alloc, words_of(&rt));
    let mut files = RealFiles::new(&rt, alloc);
    let report = report_of(&rt, alloc, words, &mut files);
    ExitCode::from(report.status.number())
}

/// The words after the program's name.
fn words_of<R: Env + AllocGlobal>(rt: &R) -> io::Result<Vec<String>> {
    let mut words = Vec::new(rt.alloc());
    for word in env::args(rt)?.skip(1) {
        words.push(word)?;
    }
    Ok(words)
}

/// The words, where they were kept. Words that aren't text ask for nothing, as no words do; want of memory is handed on.
fn text_words(alloc: Global, words: io::Result<Vec<String>>) -> Result<Vec<String>, AllocError>
    ensures kept { IfOk words (λ kept. result ≡ Ok kept) }
    ensures memory { IfErr words (λ error. error_kind error ≡ ErrorKind.OutOfMemory → IsErr result) }
    ensures no_text { IfErr words (λ error. error_kind error ≢ ErrorKind.OutOfMemory → IsOkAnd result (λ none. none.items ≡ [])) }
{
    match words {
        Ok(words) => Ok(words),
        Err(error) if error.kind() == ErrorKind::OutOfMemory => Err(AllocError),
        Err(_) => Ok(Vec::new(alloc)),
    }
}

/// Does what the words ask for, where there was memory for them.
fn report_of<R: Threads + Wait + Sync, F: Files>(
    rt: &R,
    alloc: Global,
    words: Result<Vec<String>, AllocError>,
    files: &mut F,
) -> Report
    ensures kept { IfOk words (λ words. Ends (map string_bytes words.items) result.status F.tells (world (F.tally files.old) (F.contents files.old)) (world (F.tally files.new) (F.contents files.new))) }
    ensures memory { IsErr words → IsOutOfMemory result.status F.tells (world (F.tally files.old) (F.contents files.old)) (world (F.tally files.new) (F.contents files.new)) }
{
    match words {
        Ok(words) => run(rt, alloc, &words, files, &OpenGate),
        Err(_) => run_without_memory(files),
    }
}

#[cfg(test)]
mod layout_samples;
#[cfg(test)]
mod tests;
#[cfg(test)]
mod words_tests;
