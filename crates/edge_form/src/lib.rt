//! Sets of units, in one form each: their maximal runs, each once, in run order.
//!
//! ```text
//!     y=2  +-----+-----+            the boundary of two squares side by side has six units in four runs:
//!          |(0,1)|(1,1)|            S on line 1, columns 0 to 1; W on line 0, column 1;
//!     y=1  +-----+-----+            E on line 2, column 1; N on line 2, columns 0 to 1
//!         x=0   x=1   x=2
//! ```
//!
//! Equal sets have equal runs. What comes in pieces, which may overlap or touch, is gathered into this form.
#![tactic(auto)]

mod edge_set;
mod gathering;
mod lookup;
mod maximal;
mod same_units;
#[cfg(test)]
mod tests;

pub use edge_set::EdgeSet;
pub use maximal::lists_its_maximal_runs;
pub use same_units::same_units_same_runs;
