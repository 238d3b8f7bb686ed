//! The reader of a layout of the first form: one structure of rectangles.
//!
//! It reads a file in pieces, and keeps the rectangles of one layer and nothing else of it.

ghost use Rattle.std.specs.Prelude.{◌≡◌, ℕ, ℤ, List, IfOk, IsTrue, Err};
ghost use Rattle.std.specs.List.{AllByRecursion};
ghost use Rattle.drc_geom.specs.Squares.{IsRect, covered};
ghost use Rattle.gds_records.specs.declared.fault.LayoutRefusal.{LayoutRefusal};
ghost use Rattle.drc_cli.specs.Layout.{Element, Accepts, Refuses, drawn};
ghost use Rattle.drc_cli.specs.Working.LayoutReading.{CountsReads};

mod end;
mod name;
mod outline;
mod pieces;
mod reader;
mod slot;

use drc_geom::Rect;
use drc_ports::Files;
pub use end::LayoutEnd;
use pieces::read_all;
use reader::{Reader, Stop};
use std::alloc::Global;

/// Reads the layout of which the file being read is at the first byte: a stream of the first form, whose structure has
/// the primary's name. It answers rectangles that cover what is drawn on the layer of this number; or the first fact for
/// which the layout is refused, a read that failed before that, or want of memory.
pub fn read_layout<F: Files>(
    alloc: Global,
    files: &mut F,
    primary: &[u8],
    number: u16,
) -> Result<Vec<Rect>, LayoutEnd>
    requires started { IsTrue (F.tally files.old).started }
    ensures accepted { IfOk result (λ rects. (bytes : List ℕ) × (elements : List Element)
        × Accepts primary.now bytes elements
        × ((x y : ℤ) → covered rects.items x y ≡ drawn number elements x y) × (IsTrue F.tells
        → (F.contents files.old).left ≡ bytes)) }
    ensures refused { (r : LayoutRefusal) → result ≡ Err (LayoutEnd.Refused r)
        → (bytes : List ℕ) × Refuses primary.now bytes r × (IsTrue F.tells → (F.contents files.old).left ≡ bytes) }
    ensures same { IsTrue F.tells
        → F.contents files.new ≡ record (F.contents files.old) { left = (F.contents files.new).left } }
    ensures counts { CountsReads result (F.tally files.old) (F.tally files.new) }
    ensures areas { IfOk result (λ rects. AllByRecursion IsRect rects.items) }
{
    let mut reader = Reader::new(alloc);
    let stop = read_all(alloc, files, &mut reader, primary, number)?;
    match stop {
        Stop::Ended => Ok(reader.rects),
        Stop::Refused(refusal) => Err(LayoutEnd::Refused(refusal)),
        Stop::ReadFault => Err(LayoutEnd::ReadFault),
    }
}
