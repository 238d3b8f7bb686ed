//! The first number under each name.

ghost use Rattle.std.specs.Prelude.{◌≡◌, ℕ, List, IfOk, OnOk, Some, None};
ghost use Rattle.deck_names.specs.Tables.{found};
ghost use Rattle.deck_names.specs.Working.Tables.{entered};

use std::alloc::{AllocError, Global};
use std::collections::HashMap;

/// For each name the first number that was entered under it.
#[derive(Drop)]
pub(crate) struct Table<'d> {
    firsts: HashMap<&'d [u8], u32>,
}

impl<'d> Table<'d> {
    /// No name.
    pub(crate) fn new(alloc: Global) -> Table<'d>
        ensures { (q : List ℕ) → found result q ≡ None }
    {
        Table {
            firsts: HashMap::new(alloc),
        }
    }

    /// The number under the name.
    pub(crate) fn find(&self, name: &[u8]) -> Option<u32>
        ensures { result ≡ found self.now name.now }
    {
        self.firsts.get(name).copied()
    }

    /// Enters a number under a name that has none. It fails only for want of memory.
    pub(crate) fn enter(&mut self, name: &'d [u8], number: u32) -> Result<(), AllocError>
        ensures { OnOk result ((q : List ℕ)
            → found self.new q ≡ entered (found self.old) name.entry.now number q) }
    {
        if self.find(name).is_none() {
            self.put(name, number)?;
        }
        Ok(())
    }

    fn put(&mut self, name: &'d [u8], number: u32) -> Result<(), AllocError>
        requires { found self.old name.now ≡ None }
        ensures { OnOk result ((q : List ℕ)
            → found self.new q ≡ entered (found self.old) name.entry.now number q) }
    {
        self.firsts.insert(name, number)?;
        Ok(())
    }
}
