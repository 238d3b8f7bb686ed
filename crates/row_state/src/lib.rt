//! The state of a row of columns: each column has a value, and nearly all have the value zero.
//!
//! ```text
//!    column    ..   3     7     9        14    ..
//!    value     0    |  1  |  2  |   1    |  0          entries (3, 1) (7, 2) (9, 1) (14, 0)
//!
//!    change of the columns 5 to 11 by one more:
//!    value     0    |1| 2 |  3  | 2 |1|  0            entries (3, 1) (5, 2) (7, 3) (9, 2) (12, 1) (14, 0)
//!    pieces          5-6: 1, 7-8: 2, 9-11: 1
//! ```
//!
//! The one call changes the columns of a stretch, and tells the pieces into which the old values cut it. Its work goes
//! with the entries of the stretch, and no other entry is looked at.
#![tactic(auto)]

mod change;
mod entry;
mod marks;
mod number;
mod piece;
mod row;
#[cfg(test)]
mod tests;
mod value;
mod walk;

pub use change::Change;
pub use entry::Entry;
pub use piece::Piece;
pub use row::RowState;
pub use value::Value;
