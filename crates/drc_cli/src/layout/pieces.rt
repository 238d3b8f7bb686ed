//! Reads a layout piece by piece.

ghost use Rattle.std.specs.Prelude.{◌≡◌, ◌<◌, ℕ, List, [], length, IfOk, IsTrue};
ghost use Rattle.drc_cli.specs.Working.LayoutReading.{sought, IsWanting, ReadsPiece, piece_tally, ReadsAll, reading_tally};

use super::reader::{Reader, Stop};
use crate::buffer::buffer;
use drc_ports::Files;
use gds_records::LONGEST_LAYOUT;
use std::alloc::{AllocError, Global};

/// More pieces than a layout can have: each has a byte, and a reader that still wants more has at most three beyond the
/// longest layout.
const PIECES: u64 = LONGEST_LAYOUT + 4;

/// Reads to the first fact that ends the reading.
pub fn read_all<F: Files>(
    alloc: Global,
    files: &mut F,
    reader: &mut Reader,
    primary: &[u8],
    number: u16,
) -> Result<Stop, AllocError>
    requires started { IsTrue (F.tally files.old).started }
    requires fresh { IsWanting (sought primary.now number) [] reader.old }
    ensures stopped { ReadsAll (sought primary.now number) F.tells (F.contents files.old).left result reader.new.rects.items }
    ensures same { IsTrue F.tells
        → F.contents files.new ≡ record (F.contents files.old) { left = (F.contents files.new).left } }
    ensures counts { F.tally files.new ≡ reading_tally result (F.tally files.old) }
{
    let mut piece = buffer(alloc)?;
    read_pieces(files, &mut piece, reader, primary, number)
}

fn read_pieces<F: Files>(
    files: &mut F,
    piece: &mut [u8],
    reader: &mut Reader,
    primary: &[u8],
    number: u16,
) -> Result<Stop, AllocError>
    requires started { IsTrue (F.tally files.old).started }
    requires room { 0 < length piece.old }
    requires fresh { IsWanting (sought primary.now number) [] reader.old }
    ensures stopped { ReadsAll (sought primary.now number) F.tells (F.contents files.old).left result reader.new.rects.items }
    ensures same { IsTrue F.tells
        → F.contents files.new ≡ record (F.contents files.old) { left = (F.contents files.new).left } }
    ensures counts { F.tally files.new ≡ reading_tally result (F.tally files.old) }
{
    for _turn in 0..PIECES {
        let read = read_piece(files, piece, reader, primary, number)?;
        if let Some(stop) = read {
            return Ok(stop);
        }
    }
    unreachable!()
}

// Reads the next piece and takes its records; None where more is wanted.
fn read_piece<F: Files>(
    files: &mut F,
    piece: &mut [u8],
    reader: &mut Reader,
    primary: &[u8],
    number: u16,
) -> Result<Option<Stop>, AllocError>
    requires started { IsTrue (F.tally files.old).started }
    requires room { 0 < length piece.old }
    ensures read { (fed : List ℕ) → IsWanting (sought primary.now number) fed reader.old
        → ReadsPiece (sought primary.now number) fed
        (record { tells = F.tells; before = (F.contents files.old).left; now = (F.contents files.new).left }) result reader.new }
    ensures same { IsTrue F.tells
        → F.contents files.new ≡ record (F.contents files.old) { left = (F.contents files.new).left } }
    ensures counts { F.tally files.new ≡ piece_tally result (F.tally files.old) }
{
    let Ok(count) = files.read(piece) else {
        return Ok(Some(Stop::ReadFault));
    };
    if count == 0 {
        return Ok(Some(reader.at_end()));
    }
    reader.framer.feed(&piece[..count])?;
    reader.take_all(primary, number)
}
