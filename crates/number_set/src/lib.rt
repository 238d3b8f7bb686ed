//! A set of numbers below a bound, whose lowest member is at hand.
//!
//! The numbers stand at the leaves of a tree that lies in one vector; a node has the lowest member below it:
//!
//! ```text
//!            [1] 1            the set of 1 and 2 below 4; 4 stands for no member
//!        [2] 1     [3] 2
//!      [4]4 [5]1 [6]2 [7]4
//! ```
#![tactic(auto)]

mod set;
mod tree;

pub use set::NumberSet;

#[cfg(test)]
mod tests;
