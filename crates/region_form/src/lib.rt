//! Regions: sets of squares of the grid, in one form each.
//!
//! A region is kept as its *flips*: on line y the squares of the columns x0 to x1 - 1 change, which means that the row
//! above the line differs there from the row below it. A square is in the region exactly where an odd number of flips
//! lie at or below it in its column.
//!
//! ```text
//!       +-------+           y=3:  flip 2 to 6        the row below has the columns 2 to 5, the row above none
//!       |       |
//!    +--+-------+--+        y=2:  flips 1 to 2, 6 to 7
//!    |             |
//!    +-------------+        y=0:  flip 1 to 7
//!    1  2       6  7
//! ```
//!
//! The flips are sorted, two on one line neither overlap nor touch, and each column flips an even number of times. So
//! equal sets have equal flips.
//!
//! A [`Climb`] goes up a region line by line, with the row above the line. A [`Builder`] rises line by line, and is
//! given each row. So what is done with regions is done with rows.
#![tactic(auto)]

mod builder;
mod change;
mod climb;
mod flip;
mod line_flips;
mod region;
mod same_squares;
#[cfg(test)]
mod tests;

pub use builder::Builder;
pub use climb::Climb;
pub use flip::Flip;
pub use line_flips::flips_on;
pub use region::Region;
pub use same_squares::same_squares_same_region;
