//! The names of structures that have come.

ghost use Rattle.std.specs.Prelude.{◌≡◌, ◌||◌, ℕ, List, [], not, IfOk, OnOk};
ghost use Rattle.std.specs.Str.{bytes_eq};
ghost use Rattle.gds_library.specs.Facts.{has_name};

use std::alloc::{AllocError, Global};
use std::collections::BTreeSet;
use std::marker::Model;

/// A set of names. Contracts see them as a list, in an order that is left open.
#[derive(Drop)]
pub struct Names {
    alloc: Global,
    names: BTreeSet<Vec<u8>>,
}

impl Model for Names {
    ghost use Rattle.std.specs.Prelude.{List, ℕ, map};

    ghost Value = { List (List ℕ) };

    ghost view = { λ n. map (λ name. name.items) n.names.keys };
}

impl Names {
    /// No names.
    pub fn new(alloc: Global) -> Names
        ensures { result ≡ [] }
    {
        Names {
            alloc,
            names: BTreeSet::new(alloc),
        }
    }

    /// Takes one more name; false where it has it already.
    pub fn insert(&mut self, name: &[u8]) -> Result<bool, AllocError>
        ensures fresh { IfOk result (λ fresh. fresh ≡ not (has_name self.old name.now)) }
        ensures taken { OnOk result ((those : List ℕ) → has_name self.new those ≡ (bytes_eq those name.now || has_name self.old those)) }
    {
        if self.names.contains(name) {
            return Ok(false);
        }
        self.names.insert(Vec::from_slice(self.alloc, name)?)?;
        Ok(true)
    }
}
