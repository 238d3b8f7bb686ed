//! The reader of a library, which is given the records one by one.

ghost use Rattle.std.specs.Prelude.{◌≡◌, ◌≤◌, ◌++◌, ◌∷◌, [], ℕ, List, false, IfOk, IfErr, IsTrue, OnOk, Err};
ghost use Rattle.gds_records.specs.declared.fault.LayoutFault.{LayoutFault};
ghost use Rattle.gds_records.specs.Records.{Item};
ghost use Rattle.gds_records.specs.Stream.{item_of};
ghost use Rattle.gds_grammar.specs.Grammar.{IsStream};
ghost use Rattle.gds_facts.specs.Opened.{types_of};
ghost use Rattle.gds_library.specs.Kept.{IsKeptOf};
ghost use Rattle.gds_library.specs.Facts.{Follows, HasFailed, IsDuplicate, IsFaultAt, Knows, standing_of};

use crate::draft::Draft;
use crate::names::Names;
use crate::{Keep, Library};
use gds_facts::Checker;
use gds_records::{LayoutFault, LayoutKind, LayoutRefusal, Record, RecordType};
use gds_values::without_padding;
use std::alloc::{AllocError, Global};

/// A reader that is given the records of a stream one by one, and says the library in the end.
#[derive(Drop)]
pub struct Builder {
    checker: Checker,
    names: Names,
    draft: Draft,
    keep: Keep,
    standing: Standing,
}

// Whether it goes on, or has failed and answers so from then on.
#[derive(Clone, Copy, Debug)]
enum Standing {
    Open,
    Refused(LayoutRefusal),
    OutOfMemory,
}

impl Builder {
    /// A reader of a stream of which nothing has come, for layouts of so many database units in a user unit. It fails only
    /// for want of memory.
    pub fn new(alloc: Global, precision: u32, keep: Keep) -> Result<Builder, AllocError>
        requires { (1 ≤ precision) × (precision ≤ 1000000) }
        ensures follows { IfOk result (Follows []) }
        ensures precision { IfOk result (λ builder. builder.checker.precision ≡ precision) }
        ensures keep { IfOk result (λ builder. builder.keep ≡ keep) }
    {
        Ok(Builder {
            checker: Checker::new(precision),
            names: Names::new(alloc),
            draft: Draft::new(alloc)?,
            keep,
            standing: Standing::Open,
        })
    }

    /// Takes the next record of the stream, or is refused for its first fact; after that it answers the same from then on.
    pub fn push(&mut self, item: Record) -> Result<(), LayoutFault>
        ensures taken { OnOk result ((items : List Item) → Follows items self.old → Follows (items ++ item_of item ∷ []) self.new) }
        ensures refused { IfErr result (λ fault. (items : List Item) → Follows items self.old → IsFaultAt self.old.checker.precision items (item_of item) fault) }
        ensures failed { IfErr result (λ fault. HasFailed fault self.new) }
        ensures again { (fault : LayoutFault) → HasFailed fault self.old → (result ≡ Err fault) × HasFailed fault self.new }
        ensures precision { self.new.checker.precision ≡ self.old.checker.precision }
        ensures keep { self.new.keep ≡ self.old.keep }
    {
        match self.standing {
            Standing::Open => {}
            Standing::Refused(refusal) => return Err(LayoutFault::Refused(refusal)),
            Standing::OutOfMemory => return Err(LayoutFault::Memory),
        }
        let taken = self.take(item);
        if let Err(fault) = &taken {
            self.standing = standing_of(fault);
        }
        taken
    }

    fn take(&mut self, item: Record) -> Result<(), LayoutFault>
        ensures taken { OnOk result ((items : List Item) → Follows items self.old → Follows (items ++ item_of item ∷ []) self.new) }
        ensures refused { IfErr result (λ fault. (items : List Item) → Follows items self.old → IsFaultAt self.old.checker.precision items (item_of item) fault) }
        ensures precision { self.new.checker.precision ≡ self.old.checker.precision }
        ensures keep { self.new.keep ≡ self.old.keep }
    {
        if let Err(refusal) = self.checker.take(&item) {
            return Err(LayoutFault::Refused(refusal));
        }
        if !is_new(&mut self.names, &item)? {
            return Err(LayoutFault::Refused(LayoutRefusal {
                at: item.at,
                kind: LayoutKind::DuplicateStructure,
            }));
        }
        self.draft.take(item, &self.keep)?;
        Ok(())
    }

    /// The library, once the whole stream was taken; of a part of a stream it is what has come of it.
    pub fn finish(self) -> Library
        ensures { (items : List Item) → Follows items self → IsStream (types_of items) → IsKeptOf self.keep items result }
    {
        self.draft.library()
    }
}

// Takes the name of a structure, where the record is one; false where a structure before has it.
fn is_new(names: &mut Names, item: &Record) -> Result<bool, AllocError>
    ensures new { IfOk result (λ new. IsTrue new → (items : List Item) → Knows items names.old → Knows (items ++ item_of item.now ∷ []) names.new) }
    ensures duplicate { IfOk result (λ new. new ≡ false → (items : List Item) → Knows items names.old → IsDuplicate items (item_of item.now)) }
{
    if !item.has_type(RecordType::StructureName) {
        return Ok(true);
    }
    let new = names.insert(without_padding(&item.body))?;
    Ok(new)
}

fn standing_of(fault: &LayoutFault) -> Standing
    ensures { result ≡ standing_of fault.now }
{
    match fault {
        LayoutFault::Refused(refusal) => Standing::Refused(*refusal),
        LayoutFault::Memory => Standing::OutOfMemory,
    }
}
