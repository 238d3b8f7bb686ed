//! Lines that are said in pieces, so that they take no memory.
ghost use Rattle.std.specs.Prelude.{◌++◌, codes, decimal};
ghost use Rattle.drc_ports.specs.Files.{world};
ghost use Rattle.drc_cli.specs.Working.Endings.{refusal_of};
ghost use Rattle.drc_cli.specs.Lines.{refusal_line};
ghost use Rattle.drc_cli.specs.Outcome.{says};
ghost use Rattle.drc_cli.specs.Working.Tries.{Tries};

use crate::whole::say_all;
use drc_ports::{Failed, Files};
use itoa::Buffer;

/// Why a file is refused: the number of the reason, the offset at which it stands, its word, and a detail, which is
/// empty or one space and a word or two.
#[derive(Clone, Copy, Debug)]
pub struct Reason<'a> {
    pub number: u32,
    pub at: u64,
    pub word: &'a [u8],
    pub detail: &'a [u8],
}

/// Says the line of a refusal.
pub fn say_refusal<F: Files>(
    files: &mut F,
    refused: &[u8],
    reason: &Reason<'_>,
) -> Result<(), Failed>
    ensures { Tries F.tells (says (refusal_line refused.now (refusal_of reason.now))) result
        (world (F.tally files.old) (F.contents files.old)) (world (F.tally files.new) (F.contents files.new)) }
{
    let mut digits = Buffer::new();
    match say_three(
        files,
        refused,
        b" ",
        digits.format(reason.number).as_bytes(),
    ) {
        Err(failed) => Err(failed),
        Ok(()) => say_place(files, reason),
    }
}

fn say_place<F: Files>(files: &mut F, reason: &Reason<'_>) -> Result<(), Failed>
    ensures { Tries F.tells (says (codes " at " ++ decimal reason.now.at ++ codes " " ++ (reason.now.word.now ++ reason.now.detail.now ++ codes "\n"))) result
        (world (F.tally files.old) (F.contents files.old)) (world (F.tally files.new) (F.contents files.new)) }
{
    let mut digits = Buffer::new();
    match say_three(files, b" at ", digits.format(reason.at).as_bytes(), b" ") {
        Err(failed) => Err(failed),
        Ok(()) => say_three(files, reason.word, reason.detail, b"\n"),
    }
}

/// Says three pieces, one after the other.
pub fn say_three<F: Files>(
    files: &mut F,
    first: &[u8],
    second: &[u8],
    third: &[u8],
) -> Result<(), Failed>
    ensures { Tries F.tells (says (first.now ++ second.now ++ third.now)) result
        (world (F.tally files.old) (F.contents files.old)) (world (F.tally files.new) (F.contents files.new)) }
{
    match say_two(files, first, second) {
        Err(failed) => Err(failed),
        Ok(()) => say_all(files, third),
    }
}

fn say_two<F: Files>(files: &mut F, first: &[u8], second: &[u8]) -> Result<(), Failed>
    ensures { Tries F.tells (says (first.now ++ second.now)) result
        (world (F.tally files.old) (F.contents files.old)) (world (F.tally files.new) (F.contents files.new)) }
{
    match say_all(files, first) {
        Err(failed) => Err(failed),
        Ok(()) => say_all(files, second),
    }
}
