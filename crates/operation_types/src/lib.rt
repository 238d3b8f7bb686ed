//! Types of layers: which operation takes layers of which types, and which it gives.
//!
//! ```text
//! M1 AND M2             two polygon layers give one
//! LENGTH M1 < 0.2       a polygon layer or an edge layer gives edges
//! INT M1 < 0.1          gives errors, with REGION polygons and with [M1] edges
//! ```
#![tactic(auto)]

mod input_type;
mod layer_type;
mod signature;
mod table;

pub use input_type::InputType;
pub use layer_type::LayerType;
pub use signature::Signature;
pub use table::{signature_of, type_given};

#[cfg(test)]
mod tests;
