//! What is done with the items of one chunk.

ghost use Rattle.std.specs.Prelude.{◌≡◌, ◌+◌, ◌≤◌, ◌<◌, ◌++◌, length, take, drop, nat_lt, vec_len, IfOk, OnOk};
ghost use Rattle.std.specs.List.{before_first, position_or_len};
ghost use Rattle.chunked_list.specs.Chunks.{joined};
ghost use Rattle.chunked_list.specs.Stretches.{last};
ghost use Rattle.chunked_list.specs.Working.Places.{behind_place, items_of};

use crate::search::{Place, place_of};
use crate::test::Test;
use std::alloc::AllocError;

/// Puts items in the place of so many from a place on.
pub(crate) fn replace_items<T: Copy>(
    chunk: &mut Vec<T>,
    place: usize,
    count: usize,
    with: &[T],
    spare: &mut Vec<T>,
) -> Result<(), AllocError>
    requires { place + count ≤ vec_len chunk.old }
    ensures { OnOk result (chunk.new.items
        ≡ take place chunk.old.items ++ with.now ++ drop (place + count) chunk.old.items) }
{
    if with.len() == count {
        chunk[place..place + count].copy_from_slice(with);
        return Ok(());
    }
    spare.clear();
    spare.extend_from_slice(&chunk[place + count..])?;
    chunk.truncate(place);
    chunk.extend_from_slice(with)?;
    chunk.extend_from_slice(spare)
}

/// Adds the items before the first that passes, and says whether one passes.
pub(crate) fn copy_front<T: Copy, Q: Test<T>>(
    items: &[T],
    behind: &Q,
    out: &mut Vec<T>,
) -> Result<bool, AllocError>
    ensures items { OnOk result (out.new.items ≡ out.old.items ++ before_first (Q.passed_by behind.now) items.now) }
    ensures ends { IfOk result (λ ends. ends
        ≡ nat_lt (position_or_len (Q.passed_by behind.now) items.now) (length items.now)) }
{
    let count = place_of(items, behind);
    out.extend_from_slice(&items[..count])?;
    Ok(count < items.len())
}

/// Adds the items of chunks, up to the first that passes.
pub(crate) fn copy_fronts<T: Copy, Q: Test<T>>(
    chunks: &[Vec<T>],
    behind: &Q,
    out: &mut Vec<T>,
) -> Result<(), AllocError>
    ensures { OnOk result (out.new.items ≡ out.old.items ++ before_first (Q.passed_by behind.now) (joined chunks.now)) }
{
    for chunk in chunks {
        if copy_front(chunk, behind, out)? {
            return Ok(());
        }
    }
    Ok(())
}

/// Adds the items from a place on, up to the first that passes.
pub(crate) fn copy_from<T: Copy, Q: Test<T>>(
    chunks: &[Vec<T>],
    place: Place,
    behind: &Q,
    out: &mut Vec<T>,
) -> Result<(), AllocError>
    requires chunk { place.chunk < length chunks.now }
    requires item { place.item ≤ length (items_of chunks.now place.chunk) }
    ensures { OnOk result (out.new.items ≡ out.old.items
        ++ before_first (Q.passed_by behind.now) (behind_place chunks.now place.chunk place.item)) }
{
    if !copy_front(items_behind(chunks, place), behind, out)? {
        copy_fronts(&chunks[place.chunk + 1..], behind, out)?;
    }
    Ok(())
}

#[tactic(auto, using(crate::proofs::Places::items_at))]
fn items_behind<T: Copy>(chunks: &[Vec<T>], place: Place) -> &[T]
    requires chunk { place.chunk < length chunks.now }
    requires item { place.item ≤ length (items_of chunks.now place.chunk) }
    ensures { result.now ≡ drop place.item (items_of chunks.now place.chunk) }
{
    let chunk = chunks[place.chunk].as_slice();
    &chunk[place.item..]
}

/// The item before a place in a chunk.
#[tactic(auto, using(crate::proofs::Places::items_at))]
pub(crate) fn item_before<T: Copy>(chunks: &[Vec<T>], place: Place) -> Option<T>
    requires chunk { place.chunk < length chunks.now }
    requires item { place.item ≤ length (items_of chunks.now place.chunk) }
    ensures { result ≡ last (take place.item (items_of chunks.now place.chunk)) }
{
    let chunk = chunks[place.chunk].as_slice();
    chunk[..place.item].last().copied()
}
