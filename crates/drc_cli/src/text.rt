//! The text of the results file, and the line that a check says.

ghost use Rattle.std.specs.Prelude.{◌≡◌, ◌++◌, length, map, take, sum_by, IfOk, OnOk};
ghost use Rattle.std.specs.List.{flat_map};
ghost use Rattle.drc_cli.specs.Text as spec;
ghost use Rattle.drc_cli.specs.Text.{found_of, written_of};
ghost use Rattle.drc_cli.specs.Working.TextView.{results_in, results_of};

use drc_geom::{Name, Run, Side};
use itoa::{Buffer, Integer};
use std::alloc::{AllocError, Global};

/// Room for one result: `e 1000 1`, and four numbers of ten digits.
const RESULT_BYTES: usize = 64;

/// What a check writes: its name, its notes, the most results that are written, the date, and all that it found.
#[derive(Clone, Copy)]
pub struct CheckResults<'a> {
    pub name: &'a [u8],
    pub notes: &'a [Name],
    pub limit: usize,
    pub date: &'a [u8],
    pub found: Found<'a>,
}

/// The results that a check found, in the order in which they are written.
#[derive(Clone, Copy)]
pub enum Found<'a> {
    Runs(&'a [Run]),
}

/// How many results some checks found, and how many of them are written.
#[derive(Clone, Copy)]
struct Totals {
    found: u128,
    written: u128,
}

/// The bytes of the results file: the primary cell and the database units in a user unit, and of each check what it
/// writes. Errs only where memory runs out.
pub fn results_text(
    alloc: Global,
    primary: &[u8],
    precision: u32,
    checks: &[CheckResults<'_>],
) -> Result<Vec<u8>, AllocError>
    ensures { IfOk result (λ text. text.items ≡ spec.results_text primary.now precision (map results_of checks.now)) }
{
    let mut text = Vec::new(alloc);
    push_first_line(&mut text, primary, precision)?;
    push_checks(&mut text, checks)?;
    Ok(text)
}

/// The line that is said: how many checks there are, and how many results they found and wrote together. Errs only
/// where memory runs out.
pub fn said_text(alloc: Global, checks: &[CheckResults<'_>]) -> Result<Vec<u8>, AllocError>
    ensures { IfOk result (λ line. line.items ≡ spec.said_text (map results_of checks.now)) }
{
    let totals = totals_of(checks);
    let mut line = Vec::from_slice(alloc, b"checks ")?;
    push_number(&mut line, checks.len())?;
    line.extend_from_slice(b" found ")?;
    push_number(&mut line, totals.found)?;
    line.extend_from_slice(b" written ")?;
    push_number(&mut line, totals.written)?;
    line.extend_from_slice(b"\n")?;
    Ok(line)
}

impl Found<'_> {
    fn len(&self) -> usize
        ensures { result ≡ length (results_in self.now) }
    {
        match self {
            Found::Runs(runs) => runs.len(),
        }
    }
}

impl CheckResults<'_> {
    /// How many results are written of those found.
    fn written(&self) -> usize
        ensures { result ≡ written_of (results_of self.now) }
    {
        self.found.len().min(self.limit)
    }
}

fn totals_of(checks: &[CheckResults<'_>]) -> Totals
    ensures found { result.found ≡ sum_by found_of (map results_of checks.now) }
    ensures written { result.written ≡ sum_by written_of (map results_of checks.now) }
{
    let mut found = 0u128;
    let mut written = 0u128;
    for check in checks {
        found += check.found.len() as u128;
        written += check.written() as u128;
    }
    Totals { found, written }
}

fn push_first_line(text: &mut Vec<u8>, primary: &[u8], precision: u32) -> Result<(), AllocError>
    ensures { OnOk result (text.new.items ≡ text.old.items ++ spec.first_line primary.now precision) }
{
    text.extend_from_slice(primary)?;
    text.extend_from_slice(b" ")?;
    push_number(text, precision)?;
    text.extend_from_slice(b"\n")
}

fn push_checks(text: &mut Vec<u8>, checks: &[CheckResults<'_>]) -> Result<(), AllocError>
    ensures { OnOk result (text.new.items ≡ text.old.items ++ flat_map spec.check_text (map results_of checks.now)) }
{
    for check in checks {
        push_check(text, check)?;
    }
    Ok(())
}

fn push_check(text: &mut Vec<u8>, check: &CheckResults<'_>) -> Result<(), AllocError>
    ensures { OnOk result (text.new.items ≡ text.old.items ++ spec.check_text (results_of check.now)) }
{
    push_line(text, check.name)?;
    push_counts(text, check)?;
    push_notes(text, check.notes)?;
    text.reserve(check.written().saturating_mul(RESULT_BYTES))?;
    push_found(text, &check.found, check.written())
}

fn push_counts(text: &mut Vec<u8>, check: &CheckResults<'_>) -> Result<(), AllocError>
    ensures { OnOk result (text.new.items ≡ text.old.items ++ spec.counts_text (results_of check.now)) }
{
    push_number(text, check.written())?;
    text.extend_from_slice(b" ")?;
    push_number(text, check.found.len())?;
    text.extend_from_slice(b" ")?;
    push_number(text, check.notes.len())?;
    text.extend_from_slice(b" ")?;
    push_line(text, check.date)
}

fn push_notes(text: &mut Vec<u8>, notes: &[Name]) -> Result<(), AllocError>
    ensures { OnOk result (text.new.items ≡ text.old.items ++ flat_map spec.line_text notes.now) }
{
    for note in notes {
        push_line(text, note.bytes())?;
    }
    Ok(())
}

fn push_line(text: &mut Vec<u8>, line: &[u8]) -> Result<(), AllocError>
    ensures { OnOk result (text.new.items ≡ text.old.items ++ spec.line_text line.now) }
{
    text.extend_from_slice(line)?;
    text.extend_from_slice(b"\n")
}

// The first so many results.
fn push_found(text: &mut Vec<u8>, found: &Found<'_>, written: usize) -> Result<(), AllocError>
    ensures { OnOk result (text.new.items ≡ text.old.items ++ spec.results_from 1 (take written (results_in found.now))) }
{
    match found {
        Found::Runs(runs) => push_runs(text, &runs[..written.min(runs.len())]),
    }
}

fn push_runs(text: &mut Vec<u8>, runs: &[Run]) -> Result<(), AllocError>
    ensures { OnOk result (text.new.items ≡ text.old.items ++ spec.results_from 1 (map spec.run runs.now)) }
{
    for (index, run) in runs.iter().enumerate() {
        text.extend_from_slice(b"e ")?;
        push_number(text, index + 1)?;
        text.extend_from_slice(b" 1\n")?;
        push_run(text, run)?;
    }
    Ok(())
}

fn push_run(text: &mut Vec<u8>, run: &Run) -> Result<(), AllocError>
    ensures { OnOk result (text.new.items ≡ text.old.items ++ spec.run_text run.now) }
{
    match run.side {
        Side::N | Side::S => push_ends(text, (run.lo, run.line), (run.hi, run.line)),
        Side::E | Side::W => push_ends(text, (run.line, run.lo), (run.line, run.hi)),
    }
}

fn push_ends(text: &mut Vec<u8>, low: (i64, i64), high: (i64, i64)) -> Result<(), AllocError>
    ensures { OnOk result (text.new.items ≡ text.old.items ++ spec.ends_text low.0 low.1 high.0 high.1) }
{
    push_point(text, low)?;
    text.extend_from_slice(b" ")?;
    push_point(text, high)?;
    text.extend_from_slice(b"\n")
}

fn push_point(text: &mut Vec<u8>, point: (i64, i64)) -> Result<(), AllocError>
    ensures { OnOk result (text.new.items ≡ text.old.items ++ spec.point_text point.0 point.1) }
{
    push_number(text, point.0)?;
    text.extend_from_slice(b" ")?;
    push_number(text, point.1)
}

fn push_number<I: Integer>(text: &mut Vec<u8>, number: I) -> Result<(), AllocError>
    ensures { OnOk result (text.new.items ≡ text.old.items ++ I.text number) }
{
    text.extend_from_slice(Buffer::new().format(number).as_bytes())
}

#[cfg(test)]
mod tests {
    use super::*;
    use std::test::Fail;

    fn check<'a>(notes: &'a [Name], runs: &'a [Run]) -> CheckResults<'a> {
        CheckResults {
            name: b"SHORT",
            notes,
            limit: 1000,
            date: b"T1",
            found: Found::Runs(runs),
        }
    }

    fn run(side: Side, line: i64, lo: i64, hi: i64) -> Run {
        Run { side, line, lo, hi }
    }

    /// The text of one check, made where all that it lends has one lifetime.
    fn text_of<'a>(
        alloc: Global,
        notes: &'a [Name],
        runs: &'a [Run],
    ) -> Result<Vec<u8>, AllocError> {
        let checks = [check(notes, runs)];
        results_text(alloc, b"TOP", 1000, &checks)
    }

    #[test]
    fn texts(rt: HostRuntime) -> Result<(), Fail> {
        let none: [Run; 0] = [];
        let two = [run(Side::S, 0, 0, 100), run(Side::N, 300, 0, 100)];
        let signed = [
            run(Side::W, -5, -70, -8),
            run(Side::E, 12, -1, 0),
            run(Side::S, -40, -3, 9),
        ];
        let note = [Name::new(rt.alloc(), b"short edge")?];
        let want_none = b"TOP 1000\nSHORT\n0 0 1 T1\nshort edge\n";
        let want_two =
            b"TOP 1000\nSHORT\n2 2 1 T1\nshort edge\ne 1 1\n0 0 100 0\ne 2 1\n0 300 100 300\n";
        let want_signed =
            b"TOP 1000\nSHORT\n3 3 1 T1\nshort edge\ne 1 1\n-5 -70 -5 -8\ne 2 1\n12 -1 12 0\ne 3 1\n-3 -40 9 -40\n";
        let rows: [(&[Run], &[u8]); 3] = [
            (&none, want_none),
            (&two, want_two),
            (&signed, want_signed),
        ];
        for (runs, want) in rows {
            let text = text_of(rt.alloc(), &note, runs)?;
            assert_eq!(rt; text.as_slice(), want);
        }
        Ok(())
    }

    #[test]
    fn writes_as_many_as_the_limit(rt: HostRuntime) -> Result<(), Fail> {
        let mut runs = Vec::new(rt.alloc());
        for line in 0..1001i64 {
            runs.push(run(Side::N, line, 0, 10))?;
        }
        let note = [Name::new(rt.alloc(), b"short edge")?];
        let checks = [check(&note, &runs)];
        let text = results_text(rt.alloc(), b"TOP", 1000, &checks)?;
        let head = b"TOP 1000\nSHORT\n1000 1001 1 T1\nshort edge\ne 1 1\n0 0 10 0\ne 2 1\n";
        let tail = b"\ne 1000 1\n0 999 10 999\n";
        assert!(rt; text.starts_with(head.as_slice()));
        assert!(rt; text.ends_with(tail.as_slice()));
        let line = said_text(rt.alloc(), &checks)?;
        assert_eq!(rt;
            line.as_slice(),
            b"checks 1 found 1001 written 1000\n".as_slice()
        );
        Ok(())
    }

    #[test]
    fn checks_one_after_the_other(rt: HostRuntime) -> Result<(), Fail> {
        let notes = [
            Name::new(rt.alloc(), b"one")?,
            Name::new(rt.alloc(), b"two")?,
        ];
        let runs = [run(Side::S, 0, 0, 1), run(Side::N, 3, 0, 1)];
        let mut first = check(&notes, &runs);
        first.limit = 1;
        let checks = [first, check(&[], &runs)];
        let text = results_text(rt.alloc(), b"TOP", 200, &checks)?;
        let want =
            b"TOP 200\nSHORT\n1 2 2 T1\none\ntwo\ne 1 1\n0 0 1 0\nSHORT\n2 2 0 T1\ne 1 1\n0 0 1 0\ne 2 1\n0 3 1 3\n";
        assert_eq!(rt; text.as_slice(), want.as_slice());
        let line = said_text(rt.alloc(), &checks)?;
        assert_eq!(rt; line.as_slice(), b"checks 2 found 4 written 3\n".as_slice());
        Ok(())
    }
}
