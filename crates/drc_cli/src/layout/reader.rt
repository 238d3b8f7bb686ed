//! Takes the records of a layout one by one, and keeps the rectangles of one layer.

ghost use Rattle.std.specs.Prelude.{◌≡◌, ◌≢◌, ◌<◌, ◌++◌, ℕ, [], List, length, false, IsTrue, IfOk};
ghost use Rattle.gds_records.specs.Records.{Item};
ghost use Rattle.gds_records.specs.Stream.{item_of};
ghost use Rattle.drc_cli.specs.Layout.{Stands, following};

use super::outline::rect_in;
use super::slot::Slot;
use drc_geom::Rect;
use gds_records::{Framer, LayoutFault, LayoutKind, LayoutRefusal, Record};
use std::alloc::{AllocError, Global};

/// What ended the reading.
#[derive(Clone, Copy, Debug, PartialEq, Eq)]
pub enum Stop {
    /// ENDLIB was taken.
    Ended,
    /// The first fact for which the layout is refused.
    Refused(LayoutRefusal),
    /// A read failed.
    ReadFault,
}

/// What one step did.
#[derive(Clone, Copy, Debug, PartialEq, Eq)]
pub enum Step {
    /// A record was taken.
    Taken,
    /// No whole record is left.
    Wanting,
    /// The reading has ended.
    Stopped(Stop),
}

/// The records so far: what is left of the bytes, the slot of the next record, and the rectangles of the layer.
#[derive(Drop)]
pub struct Reader {
    pub framer: Framer,
    pub slot: Slot,
    pub rects: Vec<Rect>,
}

impl Reader {
    ghost use Rattle.drc_cli.specs.Working.LayoutReading.{end_of_reading, elements_at, rects_on, IsAt, IsWanting, Sought, sought, Steps, TakesAll};

    /// A reader at the start of a layout.
    pub fn new(alloc: Global) -> Reader
        ensures { (of : Sought) → IsWanting of [] result }
    {
        Reader {
            framer: Framer::new(alloc),
            slot: Slot::Header,
            rects: Vec::new(alloc),
        }
    }

    /// Takes all whole records of what was fed, in a layout whose primary has this name, for the layer of this number;
    /// None where more bytes are wanted.
    pub fn take_all(&mut self, primary: &[u8], number: u16) -> Result<Option<Stop>, AllocError>
        ensures reads_none { result ≢ Ok (Some Stop.ReadFault) }
        ensures taken { (fed : List ℕ) (items : List Item) → IsAt (sought primary.now number) fed items self.old
            → TakesAll (sought primary.now number) fed result self.new }
    {
        loop {
            match self.step(primary, number)? {
                Step::Taken => {}
                Step::Wanting => return Ok(None),
                Step::Stopped(stop) => return Ok(Some(stop)),
            }
        }
    }

    /// What ends the reading where no more bytes come.
    pub fn at_end(&self) -> Stop
        ensures { result ≡ end_of_reading self.now.framer }
    {
        match self.framer.end() {
            Some(refusal) => Stop::Refused(refusal),
            None => Stop::Ended,
        }
    }

    // Takes the next record, if it is whole.
    fn step(&mut self, primary: &[u8], number: u16) -> Result<Step, AllocError>
        ensures taken { (fed : List ℕ) (items : List Item) → IsAt (sought primary.now number) fed items self.old
            → Steps (sought primary.now number) fed result self.new }
        ensures reads_none { result ≢ Ok (Step.Stopped Stop.ReadFault) }
        ensures less { result ≡ Ok Step.Taken → length self.new.framer.left < length self.old.framer.left }
    {
        match self.framer.take() {
            Ok(Some(taken)) => {
                if self.accept(&taken, primary, number)? {
                    Ok(Step::Taken)
                } else {
                    Ok(not_built(taken.at))
                }
            }
            Ok(None) => {
                if self.framer.ended() {
                    Ok(Step::Stopped(Stop::Ended))
                } else {
                    Ok(Step::Wanting)
                }
            }
            Err(LayoutFault::Refused(refusal)) => Ok(Step::Stopped(Stop::Refused(refusal))),
            Err(LayoutFault::Memory) => Err(AllocError),
        }
    }

    // Moves on behind the record, and keeps its rectangle where it has one on the layer; false where the record may
    // not stand here.
    fn accept(&mut self, taken: &Record, primary: &[u8], number: u16) -> Result<bool, AllocError>
        ensures framer { self.new.framer ≡ self.old.framer }
        ensures stands { IfOk result (λ stood. IsTrue stood → Stands primary.now self.old.slot (item_of taken.now)) }
        ensures slot { IfOk result (λ stood. IsTrue stood
            → self.new.slot ≡ following self.old.slot (item_of taken.now)) }
        ensures rects { IfOk result (λ stood. IsTrue stood
            → self.new.rects.items ≡ self.old.rects.items ++ rects_on number (elements_at self.old.slot (item_of taken.now))) }
        ensures refused { IfOk result (λ stood. stood ≡ false
            → Stands primary.now self.old.slot (item_of taken.now) → ⊥) }
        ensures same { IfOk result (λ stood. stood ≡ false → self.new ≡ self.old) }
    {
        if !self.slot.stands(taken, primary) {
            return Ok(false);
        }
        if self.slot.is_points_on(number) {
            self.rects.push(rect_in(&taken.body))?;
        }
        self.slot = self.slot.following(taken);
        Ok(true)
    }
}

fn not_built(at: u64) -> Step
    ensures { result ≡ Step.Stopped (Stop.Refused (record { at = at; kind = LayoutKind.NotBuilt })) }
{
    Step::Stopped(Stop::Refused(LayoutRefusal {
        at,
        kind: LayoutKind::NotBuilt,
    }))
}
