//! Sets of names.

ghost use Rattle.std.specs.Prelude.{◌≡◌, ◌||◌, ℕ, List, nat_eq, false, OnOk};
ghost use Rattle.std.specs.Cmp.Lexicographic.{pointwise};
ghost use Rattle.deck_selection.specs.Selection.{is_named};
ghost use Rattle.deck_selection.specs.Working.NameSets.{has};

use deck_tree::NameAt;
use std::alloc::{AllocError, Global};
use std::collections::HashSet;

/// A set of names.
#[derive(Drop)]
pub(crate) struct NameSet<'d> {
    names: HashSet<&'d [u8]>,
}

impl<'d> NameSet<'d> {
    /// No name.
    pub(crate) fn new(alloc: Global) -> NameSet<'d>
        ensures { (q : List ℕ) → has result q ≡ false }
    {
        NameSet {
            names: HashSet::new(alloc),
        }
    }

    pub(crate) fn has(&self, name: &[u8]) -> bool
        ensures { result ≡ has self.now name.now }
    {
        self.names.contains(name)
    }

    /// Adds names. It fails only for want of memory.
    pub(crate) fn add_all(&mut self, names: &'d [NameAt]) -> Result<(), AllocError>
        ensures { OnOk result ((q : List ℕ) → has self.new q ≡ (has self.old q || is_named q names.entry.now)) }
    {
        for name in names {
            self.add(name.name.bytes())?;
        }
        Ok(())
    }

    /// Adds a name. It fails only for want of memory.
    pub(crate) fn add(&mut self, name: &'d [u8]) -> Result<(), AllocError>
        ensures { OnOk result ((q : List ℕ) → has self.new q ≡ (has self.old q || pointwise nat_eq q name.entry.now)) }
    {
        self.names.insert(name)?;
        Ok(())
    }
}
