//! Points, rectangles, units and runs on the grid of database units.
//!
//! A square (x, y) covers x to x + 1 and y to y + 1. A unit is one side of a square, by the compass. A run is a stretch
//! of units with one side on one line:
//!
//! ```text
//!              N: a run with side N on line 2, in the columns 0 to 2
//!     y=2  +-----+-----+-----+
//!          |(0,1)|(1,1)|(2,1)| E: a run with side E on line 3, in the column 1
//!     y=1  +-----+-----+-----+
//!         x=0   x=1   x=2   x=3
//! ```
#![tactic(auto)]

mod length;
mod name;
mod point;
mod rect;
mod run;
mod run_of_unit;
#[cfg(test)]
mod tests;
mod turn;
mod unit;
mod winding;

pub use length::length_keeps_whole_runs;
pub use name::Name;
pub use point::Pt;
pub use rect::Rect;
pub use run::{Run, run_cmp};
pub use run_of_unit::one_run_of_a_unit;
pub use turn::Turn;
pub use unit::{Side, Unit};
pub use winding::outline_winds_round_its_squares;
