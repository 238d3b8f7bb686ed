//! The names that values and layers of a deck use, each with its place.
//!
//! ```text
//! (X AND Y) OR (SIZE Z BY W / 2)        X, Y, Z, W
//! INT [M1] M2 < 0.1 ABUT < V            M1, M2, V
//! ```
//!
//! A name may stand for a layer or for a variable; which of them a place wants is not told here.
#![tactic(auto)]

mod distance;
mod layer;
mod push;
mod value;

pub use layer::push_layer_names;
pub use value::push_value_names;

#[cfg(test)]
mod tests;
