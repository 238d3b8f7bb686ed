//! The structures that references reach from one structure, and how deep they lead, without going along the paths one by
//! one.
//!
//! ```text
//! links[0]  1, 1, 2      0 ══▶ 1 ──▶ 3        two paths lead from 0 to 1, and three to 3
//! links[1]  3            └───▶ 2 ────┘
//! links[2]  3, none
//! links[3]
//! ```
//!
//! A structure is its number, in the order of the stream. `links` has, for each structure, the numbers of those that its
//! references name, in the order of the stream too; none for a name that no structure has.
#![tactic(auto)]

mod depth;
mod first;
mod liveness;
mod mark;
mod reference;
mod spread;
mod within;

pub use depth::too_deep;
pub use first::missing;
pub use liveness::live;
pub use reference::Reference;
pub use spread::{reached, spread_from};
pub use within::are_within;

#[cfg(test)]
mod tests;
