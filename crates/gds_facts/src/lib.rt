//! The facts of a stream's records for which it is refused, up to its units: record by record, or over a whole list.
//!
//! ```text
//! records   HEADER  BGNLIB  LIBNAME  UNITS  BGNSTR  STRNAME  SREF  XY
//!                                     |                             UnexpectedRecord: a name is due
//!                                     UnitsMismatch, where they don't agree with the precision
//! ```
#![tactic(auto)]

mod checker;
mod laws;
mod list;
mod opening;

pub use checker::Checker;
pub use laws::one_refusal;
pub use list::first_fact;

#[cfg(test)]
mod tests;
