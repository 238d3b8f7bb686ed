//! The records of a GDSII stream, cut from pieces of any size.
//!
//! A record is two bytes of length (high byte first, counting the whole record), a byte of record type, a byte of
//! data type, and data. The *framer* is fed the stream piece by piece and gives its records one by one, up to the
//! record ENDLIB:
//!
//! ```text
//! pieces    00 06 00 | 02 02 58 00 1C 01 02 00 | 64 ..
//! records   HEADER 02 58      BGNLIB 00 64 ..
//! ```
#![tactic(auto)]

mod data_form;
mod fault;
mod framer;
mod real;
mod record;
mod record_type;
mod stream;

pub use data_form::DataForm;
pub use fault::{LayoutFault, LayoutKind, LayoutRefusal};
pub use framer::{Framer, LONGEST_LAYOUT};
pub use real::Real8;
pub use record::Record;
pub use record_type::RecordType;
pub use stream::records;

#[cfg(test)]
mod tests;
