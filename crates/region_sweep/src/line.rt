//! What a sweep does on one line.

ghost use Rattle.std.specs.Prelude.{◌≡◌, ℤ, ◌<ℤ◌, [], ◌∷◌, ◌++◌, List, false, OnOk, if◌then◌else◌};
ghost use Rattle.std.specs.List.{AllByRecursion};
ghost use Rattle.list_facts.specs.EitherOr.{exactly_one};
ghost use Rattle.row_state.specs.Entries.{value_from};
ghost use Rattle.region_form.specs.Flips.{changes};
ghost use Rattle.region_sweep.specs.Counts.{times, AreWide};
ghost use Rattle.region_sweep.specs.Working.Ends.{AscendStrictly, flips_of, is_odd_number, odd_ends};
ghost use Rattle.region_sweep.specs.Working.Sweeps.{repeated, turned};

use crate::by_list::{ByFirst, BySecond};
use crate::ends::{cancel, push_flips, turn};
use crate::evaluator::Evaluator;
use region_form::Flip;
use row_state::{Change, Piece, RowState, Value};
use std::alloc::{AllocError, Global};

/// The row above the last line, the flips of all lines so far, and lists to work with.
#[derive(Drop)]
pub(crate) struct Sweeping<V: Value> {
    pub(crate) row: RowState<V>,
    pub(crate) flips: Vec<Flip>,
    pub(crate) pieces: Vec<Piece<V>>,
    pub(crate) pending: Vec<i64>,
    pub(crate) kept: Vec<i64>,
}

impl<V: Value> Sweeping<V> {
    /// Below all lines.
    pub(crate) fn new(alloc: Global) -> Sweeping<V>
        ensures row { result.row ≡ [] }
        ensures flips { result.flips.items ≡ [] }
        ensures pending { result.pending.items ≡ [] }
    {
        Sweeping {
            row: RowState::new(alloc),
            flips: Vec::new(alloc),
            pieces: Vec::new(alloc),
            pending: Vec::new(alloc),
            kept: Vec::new(alloc),
        }
    }

    /// Goes past a line, on which these flips of the first and of the second list lie.
    pub(crate) fn pass<E: Evaluator<V>>(
        &mut self,
        line: i64,
        first: &[Flip],
        second: &[Flip],
        evaluator: &E,
    ) -> Result<(), AllocError>
        requires first { AreWide first.now }
        requires second { AreWide second.now }
        requires pending { self.old.pending.items ≡ [] }
        ensures values { OnOk result ((x : ℤ) → value_from V.zero self.new.row x
            ≡ repeated (E.second evaluator.now) (times second.now x)
            (repeated (E.first evaluator.now) (times first.now x) (value_from V.zero self.old.row x))) }
        ensures flips { OnOk result ((ends : List ℤ) × AscendStrictly ends × (is_odd_number ends ≡ false)
            × ((x : ℤ) → odd_ends ends x ≡ exactly_one
            (E.inside evaluator.now (value_from V.zero self.new.row x))
            (E.inside evaluator.now (value_from V.zero self.old.row x)))
            × (self.new.flips.items ≡ self.old.flips.items ++ flips_of line ends)) }
        ensures pending { OnOk result (self.new.pending.items ≡ []) }
    {
        self.change_all(first, &ByFirst(*evaluator), evaluator)?;
        self.change_all(second, &BySecond(*evaluator), evaluator)?;
        cancel(&mut self.kept, &mut self.pending)?;
        push_flips(&mut self.flips, line, &self.kept)?;
        self.pending.clear();
        Ok(())
    }

    // Changes the row at flips. The pending ends tell where the row is inside that was not, and the other way round.
    fn change_all<C: Change<V>, E: Evaluator<V>>(
        &mut self,
        flips: &[Flip],
        change: &C,
        evaluator: &E,
    ) -> Result<(), AllocError>
        requires { AreWide flips.now }
        ensures values { OnOk result ((x : ℤ) → value_from V.zero self.new.row x
            ≡ repeated (C.makes change.now) (times flips.now x) (value_from V.zero self.old.row x)) }
        ensures ends { OnOk result ((x : ℤ)
            → exactly_one (odd_ends self.new.pending.items x) (E.inside evaluator.now (value_from V.zero self.new.row x))
            ≡ exactly_one (odd_ends self.old.pending.items x) (E.inside evaluator.now (value_from V.zero self.old.row x))) }
        ensures number { OnOk result (is_odd_number self.new.pending.items ≡ is_odd_number self.old.pending.items) }
        ensures flips { OnOk result (self.new.flips.items ≡ self.old.flips.items) }
    {
        for flip in flips {
            self.change_one(flip, change, evaluator)?;
        }
        Ok(())
    }

    fn change_one<C: Change<V>, E: Evaluator<V>>(
        &mut self,
        flip: &Flip,
        change: &C,
        evaluator: &E,
    ) -> Result<(), AllocError>
        requires { flip.now.x0 <ℤ flip.now.x1 }
        ensures values { OnOk result ((x : ℤ) → value_from V.zero self.new.row x
            ≡ (if changes flip.now x then C.makes change.now (value_from V.zero self.old.row x) else value_from V.zero self.old.row x)) }
        ensures ends { OnOk result ((x : ℤ)
            → exactly_one (odd_ends self.new.pending.items x) (E.inside evaluator.now (value_from V.zero self.new.row x))
            ≡ exactly_one (odd_ends self.old.pending.items x) (E.inside evaluator.now (value_from V.zero self.old.row x))) }
        ensures number { OnOk result (is_odd_number self.new.pending.items ≡ is_odd_number self.old.pending.items) }
        ensures flips { OnOk result (self.new.flips.items ≡ self.old.flips.items) }
    {
        self.row.change(flip.x0, flip.x1, change, &mut self.pieces)?;
        turn_pieces(&mut self.pending, &self.pieces, change, evaluator)?;
        Ok(())
    }
}

// Adds both ends of each piece whose columns come in or go out.
fn turn_pieces<V: Value, C: Change<V>, E: Evaluator<V>>(
    ends: &mut Vec<i64>,
    pieces: &[Piece<V>],
    change: &C,
    evaluator: &E,
) -> Result<(), AllocError>
    ensures odd { OnOk result ((x : ℤ) → odd_ends ends.new.items x ≡ exactly_one (odd_ends ends.old.items x)
        (turned (E.inside evaluator.now) (C.makes change.now) pieces.now x)) }
    ensures number { OnOk result (is_odd_number ends.new.items ≡ is_odd_number ends.old.items) }
{
    for piece in pieces {
        turn_piece(ends, *piece, change, evaluator)?;
    }
    Ok(())
}

fn turn_piece<V: Value, C: Change<V>, E: Evaluator<V>>(
    ends: &mut Vec<i64>,
    piece: Piece<V>,
    change: &C,
    evaluator: &E,
) -> Result<(), AllocError>
    ensures odd { OnOk result ((x : ℤ) → odd_ends ends.new.items x ≡ exactly_one (odd_ends ends.old.items x)
        (turned (E.inside evaluator.now) (C.makes change.now) (piece ∷ []) x)) }
    ensures number { OnOk result (is_odd_number ends.new.items ≡ is_odd_number ends.old.items) }
{
    if are_different(
        evaluator.is_inside(piece.old),
        evaluator.is_inside(change.make(piece.old)),
    ) {
        turn(ends, piece.x0)?;
        turn(ends, piece.x1)?;
    }
    Ok(())
}

fn are_different(a: bool, b: bool) -> bool
    ensures { result ≡ exactly_one a b }
{
    if a { !b } else { b }
}
