//! The list.

ghost use Rattle.std.specs.Prelude.{◌≡◌, ◌≤◌, ◌++◌, [], length, drop, OnOk, OnErr, IfOk};
ghost use Rattle.std.specs.List.{before_first};
ghost use Rattle.chunked_list.specs.Chunks.{joined, AreFull};
ghost use Rattle.chunked_list.specs.Stretches.{from_first, last, IsMonotone};

use crate::chunk::{copy_from, item_before};
use crate::put::{cut, drop_empty, put};
use crate::search::find;
use crate::test::Test;
use std::alloc::{AllocError, Global};
use std::marker::Model;

/// A list of items, which contracts see as that list.
#[derive(Drop)]
pub struct ChunkedList<T> {
    alloc: Global,
    chunks: Vec<Vec<T>>,
    spare: Vec<T>,
}

impl<T> Model for ChunkedList<T> {
    ghost use Rattle.std.specs.Prelude.{List};
    ghost use Rattle.chunked_list.specs.Chunks.{joined, AreFull};

    ghost Value = { List T };

    ghost view = { λ l. joined l.chunks.items };

    ghost invariant = { λ l. AreFull l.chunks.items };
}

impl<T: Copy> ChunkedList<T> {
    /// The list that has no item.
    pub fn new(alloc: Global) -> ChunkedList<T>
        ensures { result ≡ [] }
    {
        ChunkedList {
            alloc,
            chunks: Vec::new(alloc),
            spare: Vec::new(alloc),
        }
    }

    /// Adds to `out` the items from the first that passes one test up to the first behind it that passes another, and
    /// gives the item before them. Only want of memory is an error.
    pub fn read<P: Test<T>, Q: Test<T>>(
        &self,
        first: &P,
        behind: &Q,
        out: &mut Vec<T>,
    ) -> Result<Option<T>, AllocError>
        requires { IsMonotone (P.passed_by first.now) self.now }
        ensures before { IfOk result (λ before. before ≡ last (before_first (P.passed_by first.now) self.now)) }
        ensures stretch { OnOk result (out.new.items ≡ out.old.items
            ++ before_first (Q.passed_by behind.now) (from_first (P.passed_by first.now) self.now)) }
    {
        if self.chunks.is_empty() {
            return Ok(None);
        }
        let place = find(&self.chunks, first);
        copy_from(&self.chunks, place, behind, out)?;
        Ok(item_before(&self.chunks, place))
    }

    /// Puts items in the place of so many from the first on that passes a test. Only want of memory is an error, and
    /// then the list has no item any more.
    pub fn replace<P: Test<T>>(
        &mut self,
        first: &P,
        count: usize,
        with: &[T],
    ) -> Result<(), AllocError>
        requires order { IsMonotone (P.passed_by first.now) self.old }
        requires count { count ≤ length (from_first (P.passed_by first.now) self.old) }
        ensures ok { OnOk result (self.new ≡ before_first (P.passed_by first.now) self.old ++ with.now
            ++ drop count (from_first (P.passed_by first.now) self.old)) }
        ensures err { OnErr result (self.new ≡ []) }
    {
        let done = replace_in(
            self.alloc,
            &mut self.chunks,
            &mut self.spare,
            first,
            count,
            with,
        );
        if done.is_err() {
            self.chunks.clear();
        }
        done
    }
}

fn replace_in<T: Copy, P: Test<T>>(
    alloc: Global,
    chunks: &mut Vec<Vec<T>>,
    spare: &mut Vec<T>,
    first: &P,
    count: usize,
    with: &[T],
) -> Result<(), AllocError>
    requires full { AreFull chunks.old.items }
    requires order { IsMonotone (P.passed_by first.now) (joined chunks.old.items) }
    requires count { count ≤ length (from_first (P.passed_by first.now) (joined chunks.old.items)) }
    ensures items { OnOk result (joined chunks.new.items
        ≡ before_first (P.passed_by first.now) (joined chunks.old.items) ++ with.now
        ++ drop count (from_first (P.passed_by first.now) (joined chunks.old.items))) }
    ensures full { OnOk result (AreFull chunks.new.items) }
{
    if chunks.is_empty() {
        return push_first(alloc, chunks, with);
    }
    let place = find(chunks, first);
    let written = put(chunks, spare, place.chunk, place.item, count, with)?;
    cut(alloc, chunks, written.last)?;
    if written.emptied {
        drop_empty(chunks);
    }
    Ok(())
}

// The first items of a list that has no chunk.
fn push_first<T: Copy>(
    alloc: Global,
    chunks: &mut Vec<Vec<T>>,
    items: &[T],
) -> Result<(), AllocError>
    requires { chunks.old.items ≡ [] }
    ensures items { OnOk result (joined chunks.new.items ≡ items.now) }
    ensures full { OnOk result (AreFull chunks.new.items) }
{
    if items.is_empty() {
        return Ok(());
    }
    let chunk = Vec::from_slice(alloc, items)?;
    chunks.push(chunk)?;
    Ok(())
}
