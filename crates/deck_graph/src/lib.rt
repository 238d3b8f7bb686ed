//! Which definitions of a deck the names in them stand for.
//!
//! ```text
//! X = Y AND M1        0: X   uses 1, 2
//! Y = X               1: Y   uses 0
//! LAYER M1 1          2: M1  uses nothing
//! A { M1 = X }        3: M1  uses 0; it repeats 2
//! ```
//!
//! A name stands for the first definition that has it and is seen from the place, wherever in the deck that stands. A
//! name for which there is none is no use.
#![tactic(auto)]

mod graph;
mod naming;
mod uses;

pub use graph::{Graph, graph_of};
pub use uses::names_in;

#[cfg(test)]
mod tests;
