//! The names of layers and of variables that stand for nothing where a deck uses them.
//!
//! ```text
//! X = Y AND M1            Y is defined below: no fact
//! Y = M2                  M2 is defined nowhere: refused at M2
//! A { Z = X
//!     INT Z < W }         W is a variable of no statement: refused at W
//! B { LENGTH Z < 1 }      Z is seen in A alone: refused at Z
//! ```
//!
//! A name stands for a definition wherever in the deck that stands, if it is seen from the place of the name. Names of
//! checks are none of these.
#![tactic(auto)]

mod outputs;
mod undefined;
mod values;

pub use undefined::undefined_names;

#[cfg(test)]
mod tests;
