//! The facts of one record behind others.

ghost use Rattle.std.specs.Prelude.{◌≡◌, ◌≤◌, ◌+◌, ℕ, List, [], ◌∷◌, ◌++◌, IfErr, OnOk};

use crate::opening::opened_by;
use gds_grammar::{Line, Slot};
use gds_records::{LayoutKind, LayoutRefusal, Record, RecordType};
use gds_values::{has_good_data, real_at};

/// What the records of a stream so far leave open: what may come next, and in which element.
#[derive(Debug, Drop)]
pub struct Checker {
    slot: Slot,
    line: Option<Line>,
    precision: u32,
    ghost in_range: { (1 ≤ precision) × (precision ≤ 1000000) },
}

impl Checker {
    ghost use Rattle.gds_records.specs.Records.{Item};
    ghost use Rattle.gds_records.specs.Stream.{item_of};
    ghost use Rattle.gds_facts.specs.Facts.{HasTaken, IsFact};

    /// A checker of a stream of which nothing has come, for layouts of so many database units in a user unit.
    pub fn new(precision: u32) -> Checker
        requires { (1 ≤ precision) × (precision ≤ 1000000) }
        ensures taken { HasTaken [] result }
        ensures precision { result.precision ≡ precision }
    {
        Checker {
            slot: Slot::Header,
            line: None,
            precision,
        }
    }

    /// Takes one more record, or refuses it and stays as it is.
    pub fn take(&mut self, item: &Record) -> Result<(), LayoutRefusal>
        ensures taken { OnOk result ((items : List Item) → HasTaken items self.old → HasTaken (items ++ item_of item.now ∷ []) self.new) }
        ensures refused { IfErr result (λ refusal. (refusal.at ≡ item.now.at)
            × ((items : List Item) → HasTaken items self.old → IsFact self.old.precision items (item_of item.now) refusal.kind)) }
        ensures unchanged { IfErr result (λ refusal. self.new ≡ self.old) }
        ensures precision { self.new.precision ≡ self.old.precision }
    {
        let Some(slot) = self.slot.next(item.kind) else {
            return Err(refusal(item, LayoutKind::UnexpectedRecord));
        };
        if !has_good_data(self.line, item) {
            return Err(refusal(item, LayoutKind::BadData));
        }
        if !self.agrees(item) {
            return Err(refusal(item, LayoutKind::UnitsMismatch));
        }
        self.line = opened_by(item.kind).or(self.line);
        self.slot = slot;
        Ok(())
    }
}

impl Checker {
    ghost use Rattle.std.specs.Prelude.{◌↔◌, IsTrue, length};
    ghost use Rattle.gds_records.specs.declared.record_type.RecordType.TheVariants.{Units};
    ghost use Rattle.gds_records.specs.RecordTypes.{code_of};
    ghost use Rattle.gds_records.specs.Stream.{item_of};
    ghost use Rattle.gds_facts.specs.Facts.{Agrees};

    // Where the record is UNITS, do they agree with the precision?
    fn agrees(&self, item: &Record) -> bool
        requires { code_of Units ≡ item.now.kind → 8 ≤ length item.now.body.items }
        ensures { IsTrue result ↔ Agrees self.now.precision (item_of item.now) }
    {
        !item.has_type(RecordType::Units) || real_at(&item.body, 0).near_inverse(self.precision)
    }
}

fn refusal(item: &Record, kind: LayoutKind) -> LayoutRefusal
    ensures { result ≡ record { at = item.now.at; kind = kind } }
{
    LayoutRefusal { at: item.at, kind }
}
