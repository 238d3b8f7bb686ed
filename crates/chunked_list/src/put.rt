//! Another stretch in the place of one that may lie in several chunks.

ghost use Rattle.std.specs.Prelude.{◌≡◌, ◌+◌, ◌-◌, ◌<◌, ◌≤◌, ◌++◌, false, length, nat_lt, OnOk, IfOk};
ghost use Rattle.chunked_list.specs.Chunks.{joined, AreFull};
ghost use Rattle.chunked_list.specs.Working.Places.{items_of, behind_place, replaced, change, IsWrittenOver};

use crate::chunk::replace_items;
use std::alloc::{AllocError, Global};

const MOST: usize = 64;

/// What was written over: the last chunk, and whether one has become empty.
#[derive(Clone, Copy)]
pub(crate) struct Written {
    pub(crate) last: usize,
    pub(crate) emptied: bool,
}

/// Puts items in the place of so many from a place on. Each chunk but the last takes as many as it gives, while there
/// are any.
pub(crate) fn put<T: Copy>(
    chunks: &mut Vec<Vec<T>>,
    spare: &mut Vec<T>,
    mut chunk: usize,
    mut place: usize,
    mut count: usize,
    with: &[T],
) -> Result<Written, AllocError>
    requires chunk { chunk < length chunks.old.items }
    requires place { place ≤ length (items_of chunks.old.items chunk) }
    requires count { count ≤ length (behind_place chunks.old.items chunk place) }
    requires full { AreFull chunks.old.items }
    ensures items { OnOk result (joined chunks.new.items
        ≡ replaced chunks.old.items chunk place count with.now) }
    ensures last { IfOk result (λ written. written.last < length chunks.new.items) }
    ensures full { IfOk result (λ written. written.emptied ≡ false → AreFull chunks.new.items) }
{
    let mut left = with;
    let mut emptied = false;
    while room_behind(chunks, chunk, place) < count {
        let gone = room_behind(chunks, chunk, place);
        let (now, later) = left.split_at(gone.min(left.len()));
        let is_empty = write_over(chunks, chunk, place, gone, now, spare)?;
        emptied = emptied || is_empty;
        left = later;
        count -= gone;
        chunk += 1;
        place = 0;
    }
    let is_empty = write_over(chunks, chunk, place, count, left, spare)?;
    Ok(Written {
        last: chunk,
        emptied: emptied || is_empty,
    })
}

// How many items of a chunk stand behind a place.
#[tactic(auto, using(crate::proofs::Places::items_at))]
fn room_behind<T: Copy>(chunks: &[Vec<T>], chunk: usize, place: usize) -> usize
    requires chunk { chunk < length chunks.now }
    requires place { place ≤ length (items_of chunks.now chunk) }
    ensures { result ≡ length (items_of chunks.now chunk) - place }
{
    chunks[chunk].len() - place
}

// Puts items in the place of so many of one chunk, and says whether it has none any more.
#[tactic(auto, using(crate::proofs::Places::items_at))]
fn write_over<T: Copy>(
    chunks: &mut Vec<Vec<T>>,
    chunk: usize,
    place: usize,
    count: usize,
    with: &[T],
    spare: &mut Vec<T>,
) -> Result<bool, AllocError>
    requires chunk { chunk < length chunks.old.items }
    requires place { place + count ≤ length (items_of chunks.old.items chunk) }
    ensures items { OnOk result (IsWrittenOver chunks.old.items (change chunk place count with.now) chunks.new.items) }
    ensures empty { IfOk result (λ is_empty. is_empty ≡ false → 0 < length (items_of chunks.new.items chunk)) }
{
    let written = &mut chunks[chunk];
    replace_items(written, place, count, with, spare)?;
    Ok(written.is_empty())
}

/// Cuts a chunk in half that has come to be too long.
pub(crate) fn cut<T: Copy>(
    alloc: Global,
    chunks: &mut Vec<Vec<T>>,
    chunk: usize,
) -> Result<(), AllocError>
    requires { chunk < length chunks.old.items }
    ensures items { OnOk result (joined chunks.new.items ≡ joined chunks.old.items) }
    ensures full { OnOk result (AreFull chunks.old.items → AreFull chunks.new.items) }
{
    let long = &mut chunks[chunk];
    if long.len() <= MOST {
        return Ok(());
    }
    let half = long.len() / 2;
    let mut behind = Vec::with_capacity(alloc, MOST)?;
    behind.extend_from_slice(&long[half..])?;
    long.truncate(half);
    chunks.insert(chunk + 1, behind)?;
    Ok(())
}

/// Lets go of the chunks that are empty.
pub(crate) fn drop_empty<T: Copy>(chunks: &mut Vec<Vec<T>>)
    ensures items { joined chunks.new.items ≡ joined chunks.old.items }
    ensures full { AreFull chunks.new.items }
{
    chunks.retain(|chunk| has_items(chunk));
}

fn has_items<T: Copy>(chunk: &Vec<T>) -> bool
    ensures { result ≡ nat_lt 0 (length chunk.now.items) }
{
    !chunk.is_empty()
}
