//! The row.

ghost use Rattle.std.specs.Prelude.{◌≡◌, ℤ, ◌<ℤ◌, [], if◌then◌else◌, OnOk};
ghost use Rattle.std.specs.Option.{option_to_list};
ghost use Rattle.list_facts.specs.Between.{between};
ghost use Rattle.row_state.specs.Entries.{IsRowState, value_from, last_value};
ghost use Rattle.row_state.specs.Pieces.{Tile};

use crate::change::Change;
use crate::entry::Entry;
use crate::marks::{AtOrBehind, Behind};
use crate::piece::Piece;
use crate::value::Value;
use crate::walk::{Walk, walk_over};
use chunked_list::ChunkedList;
use std::alloc::{AllocError, Global};
use std::marker::Model;

/// The values of a row, which contracts see as entries in one form.
#[derive(Drop)]
pub struct RowState<V: Value> {
    entries: ChunkedList<Entry<V>>,
    stretch: Vec<Entry<V>>,
    made: Vec<Entry<V>>,
}

impl<V: Value> Model for RowState<V> {
    ghost use Rattle.std.specs.Prelude.{List};
    ghost use Rattle.row_state.specs.declared.entry.Entry.{Entry};
    ghost use Rattle.row_state.specs.Entries.{IsRowState};

    ghost Value = { List (Entry V) };

    ghost view = { λ r. r.entries };

    ghost invariant = { λ r. IsRowState V.zero r.entries };
}

impl<V: Value> RowState<V> {
    /// The row whose columns all have the value zero.
    pub fn new(alloc: Global) -> RowState<V>
        ensures { result ≡ [] }
    {
        RowState {
            entries: ChunkedList::new(alloc),
            stretch: Vec::new(alloc),
            made: Vec::new(alloc),
        }
    }

    /// Changes the values of the columns x0 to x1 - 1, and gives the pieces into which the old values cut them.
    /// Only want of memory is an error, and then neither the row nor the pieces are known any more.
    pub fn change<C: Change<V>>(
        &mut self,
        x0: i64,
        x1: i64,
        change: &C,
        pieces: &mut Vec<Piece<V>>,
    ) -> Result<(), AllocError>
        requires { x0 <ℤ x1 }
        ensures row { OnOk result ((x : ℤ) → value_from V.zero self.new x
            ≡ (if between x0 x1 x then C.makes change.now (value_from V.zero self.old x) else value_from V.zero self.old x)) }
        ensures pieces { OnOk result (Tile (value_from V.zero self.old) x0 x1 pieces.new.items) }
    {
        self.stretch.clear();
        self.made.clear();
        pieces.clear();
        let before = self
            .entries
            .read(&AtOrBehind(x0), &Behind(x1), &mut self.stretch)?;
        let left = value_of(before);
        let start = Walk {
            at: x0,
            value: left,
            last: left,
        };
        walk_over(start, &self.stretch, x1, change, &mut self.made, pieces)?;
        let count = self.stretch.len();
        self.entries.replace(&AtOrBehind(x0), count, &self.made)?;
        Ok(())
    }
}

// The value from an entry on, or else zero.
fn value_of<V: Value>(entry: Option<Entry<V>>) -> V
    ensures { result ≡ last_value V.zero (option_to_list entry) }
{
    match entry {
        Some(entry) => entry.value,
        None => V::zero(),
    }
}
