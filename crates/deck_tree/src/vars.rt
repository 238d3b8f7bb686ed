//! What is known of the names of variables.

ghost use Rattle.std.specs.Prelude.{◌≡◌, ◌≢◌, ℕ, List, OnOk, OnErr, Some, None};
ghost use Rattle.deck_tree.specs.KnownNames.{names_of};

use drc_geom::Name;
use drc_num::Frac;
use std::alloc::{AllocError, Global};
use std::collections::HashMap;

/// Variables by their names. Contracts see them as `names_of` them, the function from a name to what is known of it:
/// nothing, that it comes to nothing, or the number to which it comes.
#[derive(Drop)]
pub struct Vars {
    alloc: Global,
    table: HashMap<Vec<u8>, Option<Frac>>,
}

impl Vars {
    /// No variable.
    pub fn new(alloc: Global) -> Vars
        ensures { (name : List ℕ) → names_of result name ≡ None }
    {
        Vars {
            alloc,
            table: HashMap::new(alloc),
        }
    }

    /// Adds a variable that comes to the number. It fails only for want of memory.
    pub fn add(&mut self, name: &Name, value: Frac) -> Result<(), AllocError>
        requires { names_of self.old name.now ≡ None }
        ensures added { OnOk result (names_of self.new name.now ≡ Some (Some value)) }
        ensures others { (q : List ℕ) → q ≢ name.now → names_of self.new q ≡ names_of self.old q }
        ensures unchanged { OnErr result ((q : List ℕ) → names_of self.new q ≡ names_of self.old q) }
    {
        self.put(name, Some(value))
    }

    /// Adds a variable that comes to nothing, since its value is refused: what rests on it comes to nothing, and that is
    /// no fault of its own. It fails only for want of memory.
    pub fn add_refused(&mut self, name: &Name) -> Result<(), AllocError>
        requires { names_of self.old name.now ≡ None }
        ensures added { OnOk result (names_of self.new name.now ≡ Some None) }
        ensures others { (q : List ℕ) → q ≢ name.now → names_of self.new q ≡ names_of self.old q }
        ensures unchanged { OnErr result ((q : List ℕ) → names_of self.new q ≡ names_of self.old q) }
    {
        self.put(name, None)
    }

    /// What is known of the name.
    pub fn find(&self, name: &[u8]) -> Option<Option<Frac>>
        ensures { result ≡ names_of self.now name.now }
    {
        self.table.get(name).copied()
    }

    fn put(&mut self, name: &Name, value: Option<Frac>) -> Result<(), AllocError>
        ensures added { OnOk result (names_of self.new name.now ≡ Some value) }
        ensures others { (q : List ℕ) → q ≢ name.now → names_of self.new q ≡ names_of self.old q }
        ensures unchanged { OnErr result ((q : List ℕ) → names_of self.new q ≡ names_of self.old q) }
    {
        let key = Vec::from_slice(self.alloc, name.bytes())?;
        self.table.insert(key, value)?;
        Ok(())
    }
}
