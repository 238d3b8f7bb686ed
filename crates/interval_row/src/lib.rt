//! Rows of intervals: sets of whole places on a line, as ascending spans that neither overlap nor touch.
//!
//! ```text
//! place     0  1  2  3  4  5  6  7
//! row          #  #        #  #  #      the spans 1 to 3 and 5 to 8
//! ```
//!
//! A place is in a row exactly where an odd number of the ends of its spans are at or below it. So one walk over the
//! ends of two rows gives what both have, what either has, what only the first has, and what exactly one has.
#![tactic(auto)]

mod cursor;
mod operation;
mod pen;
mod row;
mod same_places;
mod span;
#[cfg(test)]
mod tests;
mod walk;

pub use row::Row;
pub use same_places::same_places_same_row;
pub use span::Span;
