//! The records of a whole stream.

ghost use Rattle.std.specs.Prelude.{◌≡◌, ℕ, List, map, IfOk, IfErr};
ghost use Rattle.std.specs.List.{flat_map};
ghost use Rattle.gds_records.specs.Records.{Item, AreRecords};
ghost use Rattle.gds_records.specs.Stream.{item_of};
ghost use Rattle.gds_records.specs.Library.{IsLibrary, IsFaultOf};
ghost use Rattle.gds_records.specs.Working.Taking.{HasTaken, TakesWhole};

use crate::{Framer, LayoutFault, Record};
use std::alloc::Global;

/// The records of a stream that comes in these pieces, up to ENDLIB; nothing behind it is looked at. A stream is
/// refused for the first header with a bad length, or, where it has no whole ENDLIB, as truncated.
pub fn records(alloc: Global, pieces: &[Vec<u8>]) -> Result<Vec<Record>, LayoutFault>
    // The stream is these records, the last of them ENDLIB, and whatever comes behind it.
    ensures library { IfOk result (λ taken. IsLibrary (flat_map (λ piece. piece.items) pieces.now) (map item_of taken.items)) }
    // It is no others, so it doesn't matter how it was cut into pieces.
    ensures only { IfOk result (λ taken. (others : List Item) (rest : List ℕ) →
        AreRecords (flat_map (λ piece. piece.items) pieces.now) others rest → map item_of taken.items ≡ others) }
    ensures refused { IfErr result (IsFaultOf (flat_map (λ piece. piece.items) pieces.now)) }
{
    let mut framer = Framer::new(alloc);
    let mut taken = Vec::new(alloc);
    for piece in pieces {
        framer.feed(piece)?;
        take_whole(&mut framer, &mut taken)?;
    }
    match framer.end() {
        None => Ok(taken),
        Some(refusal) => Err(LayoutFault::Refused(refusal)),
    }
}

// Takes the records that are whole now.
fn take_whole(framer: &mut Framer, taken: &mut Vec<Record>) -> Result<(), LayoutFault>
    ensures { (bytes : List ℕ) → HasTaken bytes (map item_of taken.old.items) framer.old
        → TakesWhole bytes result (map item_of taken.new.items) framer.new }
{
    while let Some(record) = framer.take()? {
        taken.push(record)?;
    }
    Ok(())
}
