//! The names of a deck.

ghost use Rattle.std.specs.Prelude.{◌≡◌, ◌↔◌, ◌<◌, ◌^◌, true, length, IfOk, OnOk, OnErr};
ghost use Rattle.deck_names.specs.Definitions.{stands_for, IsRepetition, definition, no_names, one_check_more, one_more, IsPlace};

use crate::definition::{Definition, Scope};
use crate::tables::Tables;
use std::alloc::{AllocError, Global};
use std::marker::Model;

/// The checks that were opened so far, and the definitions in their order, which contracts see as these.
#[derive(Drop)]
pub struct Names<'d> {
    alloc: Global,
    tables: Tables<'d>,
}

impl<'d> Model for Names<'d> {
    ghost use Rattle.std.specs.Prelude.{length};
    ghost use Rattle.deck_names.specs.Definitions.{Known};
    ghost use Rattle.deck_names.specs.Tables.{AreTables};

    ghost Value = { Known };

    ghost view = { λ n. record {
      checks = length n.tables.checks.items;
      definitions = n.tables.definitions.items;
    } };

    ghost invariant = { λ n. AreTables n.tables };
}

impl<'d> Names<'d> {
    /// No check is opened, and nothing is defined.
    pub fn new(alloc: Global) -> Names<'d>
        ensures { result ≡ no_names }
    {
        Names {
            alloc,
            tables: Tables::new(alloc),
        }
    }

    /// The definitions so far, in their order. The number of a definition is its place.
    pub fn definitions(&self) -> &[Definition<'d>]
        ensures { result.now ≡ self.now.definitions }
    {
        &self.tables.definitions
    }

    /// How many checks were opened.
    pub fn checks(&self) -> usize
        ensures { result ≡ self.now.checks }
    {
        self.tables.checks.len()
    }

    /// Whether the place is one of the deck: outside checks, or in a check that is opened.
    pub fn is_place(&self, place: Scope) -> bool
        ensures { (result ≡ true) ↔ IsPlace self.now.checks place }
    {
        match place {
            Scope::Everywhere => true,
            Scope::Check(check) => (check as usize) < self.checks(),
        }
    }

    /// Opens the next check, and gives its number. Only want of memory is an error, and then no check is opened.
    pub fn open_check(&mut self) -> Result<u32, AllocError>
        requires { self.old.checks < 2 ^ 32 }
        ensures number { IfOk result (λ number. number ≡ self.old.checks) }
        ensures opened { OnOk result (self.new ≡ one_check_more self.old) }
        ensures err { OnErr result (self.new ≡ self.old) }
    {
        let number = self.tables.checks.len() as u32;
        self.tables.open_check(self.alloc)?;
        Ok(number)
    }

    /// Defines a name at a place, and says whether that repeats an earlier definition: one with the same name, where both
    /// are seen from some place. Only want of memory is an error, and then no check is opened and nothing defined any
    /// more.
    pub fn define(&mut self, name: &'d [u8], place: Scope) -> Result<bool, AllocError>
        requires few { length self.old.definitions < 2 ^ 32 }
        requires opened { IsPlace self.old.checks place }
        ensures repeated { IfOk result (λ repeated.
            (repeated ≡ true) ↔ IsRepetition self.old.definitions (definition name.entry place)) }
        ensures defined { OnOk result (self.new ≡ one_more self.old (definition name.entry place)) }
        ensures err { OnErr result (self.new ≡ no_names) }
    {
        let done = match place {
            Scope::Everywhere => self.tables.define_outside(name),
            Scope::Check(check) => self.tables.define_inside(name, check),
        };
        if done.is_err() {
            self.tables = Tables::new(self.alloc);
        }
        done
    }

    /// The number of the definition for which the name stands at a place: the first that has it and is seen from there.
    pub fn find(&self, from: Scope, name: &[u8]) -> Option<u32>
        requires { IsPlace self.now.checks from }
        ensures { result ≡ stands_for self.now.definitions from name.now }
    {
        self.tables.find(from, name)
    }
}
