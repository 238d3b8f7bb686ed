//! Values of a deck in the units of their places: lengths in database units, areas in their squares, and numbers that are
//! counted.
//!
//! ```text
//! PRECISION 1000      a micron is 1000 database units
//! INT M1 < 0.2        200
//! INT M1 < 0.0005     out of range: 0.5 is below 1
//! SIZE M1 BY 0.0005   off grid: 0.5 is in the range, and not whole
//! ```
#![tactic(auto)]

mod measure;
mod place;
mod range;
mod unit_fault;

pub use measure::{in_range, range_of};
pub use place::ValuePlace;
pub use range::Range;
pub use unit_fault::UnitFault;

#[cfg(test)]
mod tests;
