//! The flips of one line, from a row.

ghost use Rattle.std.specs.Prelude.{◌≡◌, ◌++◌, IfOk, OnOk};
ghost use Rattle.interval_row.specs.Rows.{IsRow};
ghost use Rattle.region_form.specs.LineFlips.{flips_on};

use crate::flip::Flip;
use interval_row::{Row, Span};
use std::alloc::{AllocError, Global};

/// The flips that change the places of a row on a line. Only want of memory is an error.
pub fn flips_on(alloc: Global, line: i64, row: &Row) -> Result<Vec<Flip>, AllocError>
    ensures row { IsRow row.now }
    ensures flips { IfOk result (λ flips. flips.items ≡ flips_on line row.now) }
{
    let spans = row.list();
    let mut flips = Vec::with_capacity(alloc, spans.len())?;
    push_spans(&mut flips, line, spans)?;
    Ok(flips)
}

// Adds the flips that change the places of spans on a line.
fn push_spans(flips: &mut Vec<Flip>, line: i64, spans: &[Span]) -> Result<(), AllocError>
    ensures { OnOk result (flips.new.items ≡ flips.old.items ++ flips_on line spans.now) }
{
    for span in spans {
        flips.push(Flip {
            y: line,
            x0: span.lo,
            x1: span.hi,
        })?;
    }
    Ok(())
}
