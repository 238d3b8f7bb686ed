//! What the crates of plans and layers have in common.
//!
//! A *wiring* says which operations read which: an operation has no input, one or two, and each is the number of an
//! earlier operation. An *input place* is one of an operation's inputs; `A AND A` has two places on one layer.
//!
//! ```text
//! 0  1     operations 0 and 1 read nothing
//!  \ |
//!   2      operation 2 reads 0 at its place 0 and 1 at its place 1, and is reported
//! ```
//!
//! What an operation does is its `Op`, with its values in database units; a `Node` is one with its inputs. `Reads` says
//! which shapes of a layout go to which layer numbers, by the rows of LAYER MAP:
//!
//! ```text
//! LAYER MAP 7 DATATYPE 0 31     layer 7 with data type 0 goes to 31 and to no other number
//!                               layer 7 with data type 1 goes to 7, since no row names it
//! ```
#![tactic(auto)]

mod limits;
mod map_row;
mod node;
mod op;
mod readers;
mod reads;
mod rule;
mod wiring;

pub use limits::{Bound, Limits};
pub use map_row::MapRow;
pub use node::Node;
pub use op::Op;
pub use readers::reader_counts;
pub use reads::Reads;
pub use rule::{Gives, Metric, Polygons, Rule, RuleKind};
pub use wiring::{Wire, Wiring};

#[cfg(test)]
mod tests;
