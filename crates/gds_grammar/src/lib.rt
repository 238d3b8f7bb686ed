//! The grammar of GDSII streams, by the types of their records: which lists of record types are those of a stream, which
//! are the front of one, and what may come next.
//!
//! The grammar is written in steps, each of one record, with groups that may be left out or repeated. A *slot* is what
//! the records so far leave open; a record's type leads from one to the next, or from none:
//!
//! ```text
//! records    HEADER  BGNLIB  LIBNAME  UNITS  BGNSTR  STRNAME  PATH  LAYER  DATATYPE  XY ..
//! slots      Header  BeginLibrary  LibraryName  Units  Structures  StructureName  Class  Flags(Path) ..
//! ```
#![tactic(auto)]

mod codes;
mod laws;
mod line;
mod slot;
mod walk;

pub use laws::{front_is_a_front, slots_are_of_fronts};
pub use line::{Line, Reference, Shape, Turned};
pub use slot::{PathField, Slot, TextField, TurnField};
pub use walk::slot_behind;

#[cfg(test)]
mod tests;
