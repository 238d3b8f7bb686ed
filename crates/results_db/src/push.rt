//! Numbers, points and runs at the end of a text.

ghost use Rattle.std.specs.Prelude.{◌≡◌, ◌<◌, ◌^◌, ◌++◌, map, OnOk};
ghost use Rattle.std.specs.List.{flat_map};
ghost use Rattle.results_db.specs.Results as spec;
ghost use Rattle.results_db.specs.Reports as report;

use drc_geom::{Name, Run, Side};
use itoa::{Buffer, Integer};
use std::alloc::AllocError;

pub fn push_number<I: Integer>(text: &mut Vec<u8>, number: I) -> Result<(), AllocError>
    ensures { OnOk result (text.new.items ≡ text.old.items ++ I.text number) }
{
    text.extend_from_slice(Buffer::new().format(number).as_bytes())
}

pub fn push_line(text: &mut Vec<u8>, line: &[u8]) -> Result<(), AllocError>
    ensures { OnOk result (text.new.items ≡ text.old.items ++ report.line_text line.now) }
{
    text.extend_from_slice(line)?;
    text.extend_from_slice(b"\n")
}

pub fn push_notes(text: &mut Vec<u8>, notes: &[Name]) -> Result<(), AllocError>
    ensures { OnOk result (text.new.items ≡ text.old.items ++ flat_map report.line_text notes.now) }
{
    for note in notes {
        push_line(text, note.bytes())?;
    }
    Ok(())
}

/// The runs as results, numbered from the given one.
pub fn push_runs(text: &mut Vec<u8>, first: u128, runs: &[Run]) -> Result<(), AllocError>
    requires { first < 2 ^ 100 }
    ensures { OnOk result (text.new.items ≡ text.old.items ++ spec.results_from first (map spec.run runs.now)) }
{
    for (index, run) in runs.iter().enumerate() {
        text.extend_from_slice(b"e ")?;
        push_number(text, first + index as u128)?;
        text.extend_from_slice(b" 1\n")?;
        push_run(text, run)?;
    }
    Ok(())
}

fn push_run(text: &mut Vec<u8>, run: &Run) -> Result<(), AllocError>
    ensures { OnOk result (text.new.items ≡ text.old.items ++ spec.run_text run.now) }
{
    match run.side {
        Side::N | Side::S => push_ends(text, (run.lo, run.line), (run.hi, run.line)),
        Side::E | Side::W => push_ends(text, (run.line, run.lo), (run.line, run.hi)),
    }
}

fn push_ends(text: &mut Vec<u8>, low: (i64, i64), high: (i64, i64)) -> Result<(), AllocError>
    ensures { OnOk result (text.new.items ≡ text.old.items ++ spec.ends_text low.0 low.1 high.0 high.1) }
{
    push_point(text, low)?;
    text.extend_from_slice(b" ")?;
    push_point(text, high)?;
    text.extend_from_slice(b"\n")
}

fn push_point(text: &mut Vec<u8>, point: (i64, i64)) -> Result<(), AllocError>
    ensures { OnOk result (text.new.items ≡ text.old.items ++ spec.point_text point.0 point.1) }
{
    push_number(text, point.0)?;
    text.extend_from_slice(b" ")?;
    push_number(text, point.1)
}
