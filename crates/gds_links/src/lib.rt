//! Which structures the references of a library name, by number.
//!
//! ```text
//! 0  TOP   SREF A, AREF B, SREF C      links  0, 1 and none: no structure has the name C
//! 1  A     BOUNDARY, SREF B                   2, which stands behind it
//! 2  B     BOX                                nothing
//! ```
//!
//! A structure is its number, in the order of the stream. A name stands for the first structure that has it: there is no
//! other in the library of a stream that is accepted.
#![tactic(auto)]

mod links;
mod naming;
mod references;

pub use links::{Links, links_of};

#[cfg(test)]
mod tests;
