//! How the copies of a reference are drawn, and for which facts of its own a reference is refused.
//!
//! ```text
//! a reference      SREF or AREF: reflected, magnified, turned counterclockwise, moved
//! its copies       one, or columns * rows of them, each with an origin of its own
//! a place          where a structure is drawn in the end, which is one step after another
//! ```
#![tactic(auto)]

mod copies;
mod facts;
mod laws;
mod place;
mod said;

pub use copies::Copies;
pub use facts::copies_in;
pub use laws::{facts_by_number, places_follow, reals_are_whole};
pub use place::Placement;

#[cfg(test)]
mod tests;
