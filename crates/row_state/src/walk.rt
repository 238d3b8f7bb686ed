//! A walk over the entries of a stretch, from left to right: it tells the pieces, and makes the new entries.

ghost use Rattle.std.specs.Prelude.{◌≡◌, ◌++◌, [], ◌∷◌, List, OnOk, IfOk};
ghost use Rattle.row_state.specs.declared.entry.Entry.{Entry};
ghost use Rattle.row_state.specs.Working.Walks.{entry_of, entries_of, pieces_of};

use crate::change::Change;
use crate::entry::Entry;
use crate::piece::Piece;
use crate::value::Value;
use std::alloc::AllocError;

/// Where a walk stands: the old value from this column on, and the new value before it.
#[derive(Clone, Copy)]
pub(crate) struct Walk<V> {
    pub(crate) at: i64,
    pub(crate) value: V,
    pub(crate) last: V,
}

/// Walks over the entries up to the end of the stretch.
pub(crate) fn walk_over<V: Value, C: Change<V>>(
    start: Walk<V>,
    entries: &[Entry<V>],
    end: i64,
    change: &C,
    new: &mut Vec<Entry<V>>,
    pieces: &mut Vec<Piece<V>>,
) -> Result<(), AllocError>
    ensures new { OnOk result (new.new.items
        ≡ new.old.items ++ entries_of V.same (C.makes change.now) end start entries.now) }
    ensures pieces { OnOk result (pieces.new.items ≡ pieces.old.items ++ pieces_of end start.at start.value entries.now) }
{
    let mut walk = start;
    for entry in entries {
        walk = step(walk, *entry, change, new, pieces)?;
    }
    finish(walk, end, change, new, pieces)
}

// Goes to an entry.
fn step<V: Value, C: Change<V>>(
    walk: Walk<V>,
    entry: Entry<V>,
    change: &C,
    new: &mut Vec<Entry<V>>,
    pieces: &mut Vec<Piece<V>>,
) -> Result<Walk<V>, AllocError>
    ensures new { IfOk result (λ next. (end : _) (rest : List (Entry V))
        → new.new.items ++ entries_of V.same (C.makes change.now) end next rest
        ≡ new.old.items ++ entries_of V.same (C.makes change.now) end walk (entry ∷ rest)) }
    ensures pieces { IfOk result (λ next. (end : _) (rest : List (Entry V))
        → pieces.new.items ++ pieces_of end next.at next.value rest
        ≡ pieces.old.items ++ pieces_of end walk.at walk.value (entry ∷ rest)) }
{
    if walk.at >= entry.column {
        return Ok(Walk {
            value: entry.value,
            ..walk
        });
    }
    pieces.push(Piece {
        x0: walk.at,
        x1: entry.column,
        old: walk.value,
    })?;
    let made = change.make(walk.value);
    push_entry(new, walk.last, walk.at, made)?;
    Ok(Walk {
        at: entry.column,
        value: entry.value,
        last: made,
    })
}

// Goes to the end.
fn finish<V: Value, C: Change<V>>(
    walk: Walk<V>,
    end: i64,
    change: &C,
    new: &mut Vec<Entry<V>>,
    pieces: &mut Vec<Piece<V>>,
) -> Result<(), AllocError>
    ensures new { OnOk result (new.new.items
        ≡ new.old.items ++ entries_of V.same (C.makes change.now) end walk []) }
    ensures pieces { OnOk result (pieces.new.items ≡ pieces.old.items ++ pieces_of end walk.at walk.value []) }
{
    if walk.at >= end {
        return push_entry(new, walk.last, end, walk.value);
    }
    pieces.push(Piece {
        x0: walk.at,
        x1: end,
        old: walk.value,
    })?;
    let made = change.make(walk.value);
    push_entry(new, walk.last, walk.at, made)?;
    push_entry(new, made, end, walk.value)
}

// Adds an entry where the value changes.
fn push_entry<V: Value>(
    new: &mut Vec<Entry<V>>,
    last: V,
    column: i64,
    value: V,
) -> Result<(), AllocError>
    ensures { OnOk result (new.new.items ≡ new.old.items ++ entry_of V.same last column value) }
{
    if !last.is_same(&value) {
        new.push(Entry { column, value })?;
    }
    Ok(())
}
