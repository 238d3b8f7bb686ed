//! A region as bands, for callers who want rows: the rows that stand above one another and are equal, as one row from a
//! line up to another.
//!
//! ```text
//!       +-------+  y=3
//!       |  2    |            two bands: the columns 1 to 6 in rows 0 and 1, and the columns 2 to 5 in row 2
//!    +--+-------+--+  y=2
//!    |      1      |
//!    +-------------+  y=0
//!    1  2       6  7
//! ```
//!
//! Equal regions have equal bands. This is a view: what is done with regions is done with their flips and rows.
#![tactic(auto)]

mod band;
mod cut;
mod last_line;
mod push;
mod same_bands;
#[cfg(test)]
mod tests;

pub use band::Band;
pub use cut::bands;
pub use push::push_band;
pub use same_bands::same_squares_same_bands;
