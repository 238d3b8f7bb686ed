//! The set.

ghost use Rattle.std.specs.Prelude.{◌≡◌, ℕ, ◌<◌, ◌^◌, false, true, length, replicate, IfOk, IfSome, IfNone, slice_get, slice_set, Some};
ghost use Rattle.number_set.specs.Members.{IsLowest, IsEmpty};

use crate::tree::{set_leaf, tree_of_none};
use std::alloc::{AllocError, Global};
use std::marker::Model;

/// A set of numbers below a bound. Contracts see it as a list with a flag for each number below the bound.
#[derive(Debug, Drop)]
pub struct NumberSet {
    bound: u32,
    nodes: Vec<u32>,
}

impl Model for NumberSet {
    ghost use Rattle.std.specs.Prelude.{List, Bool};
    ghost use Rattle.number_set.specs.Trees.{IsTree, flags_of};

    ghost Value = { List Bool };

    ghost view = { λ s. flags_of s.bound s.nodes.items };

    ghost invariant = { λ s. IsTree s.bound s.nodes.items };
}

impl NumberSet {
    /// The empty set below the bound. It fails only for want of memory.
    pub fn new(alloc: Global, bound: u32) -> Result<NumberSet, AllocError>
        ensures { IfOk result (λ s. s ≡ replicate bound false) }
    {
        let nodes = tree_of_none(alloc, bound)?;
        Ok(NumberSet { bound, nodes })
    }

    /// The lowest member.
    pub fn lowest(&self) -> Option<u32>
        ensures some { IfSome result (λ n. IsLowest self.now n) }
        ensures none { IfNone result (IsEmpty self.now) }
    {
        if self.bound == 0 {
            return None;
        }
        let lowest = self.nodes[1];
        if lowest < self.bound {
            Some(lowest)
        } else {
            None
        }
    }

    /// Puts the number into the set.
    pub fn insert(&mut self, number: u32)
        requires { number < length self.old }
        ensures { self.new ≡ slice_set self.old number true }
    {
        set_leaf(self.bound, &mut self.nodes, number, number);
    }

    /// Takes the number out of the set.
    pub fn remove(&mut self, number: u32)
        requires { number < length self.old }
        ensures { self.new ≡ slice_set self.old number false }
    {
        set_leaf(self.bound, &mut self.nodes, number, self.bound);
    }
}
