//! The tables of names: that of the names outside checks, that of those in checks, and that of each check.

ghost use Rattle.std.specs.Prelude.{◌≡◌, ◌↔◌, ◌+◌, ◌<◌, ◌^◌, ◌||◌, ◌++◌, ◌∷◌, [], true, length, is_some, slice_get, Some, IfOk, OnOk, OnErr};
ghost use Rattle.deck_names.specs.declared.definition.Scope.TheVariants.{Everywhere, Check};
ghost use Rattle.deck_names.specs.Definitions.{stands_for, IsRepetition, definition, IsPlace};
ghost use Rattle.deck_names.specs.Tables.{found, AreTables};
ghost use Rattle.deck_names.specs.Working.Tables.{least_of, IsEntered};

use crate::definition::{Definition, Scope};
use crate::table::Table;
use std::alloc::{AllocError, Global};

/// The tables, and the definitions that they are of.
#[derive(Drop)]
pub(crate) struct Tables<'d> {
    pub(crate) outside: Table<'d>,
    pub(crate) inside: Table<'d>,
    pub(crate) checks: Vec<Table<'d>>,
    pub(crate) definitions: Vec<Definition<'d>>,
}

impl<'d> Tables<'d> {
    /// No check, and no definition.
    pub(crate) fn new(alloc: Global) -> Tables<'d>
        ensures tables { AreTables result }
        ensures checks { result.checks.items ≡ [] }
        ensures definitions { result.definitions.items ≡ [] }
    {
        Tables {
            outside: Table::new(alloc),
            inside: Table::new(alloc),
            checks: Vec::new(alloc),
            definitions: Vec::new(alloc),
        }
    }

    /// The first definition that has the name and is seen from the place.
    pub(crate) fn find(&self, from: Scope, name: &[u8]) -> Option<u32>
        requires tables { AreTables self.now }
        requires place { IsPlace (length self.now.checks.items) from }
        ensures { result ≡ stands_for self.now.definitions.items from name.now }
    {
        let outside = self.outside.find(name);
        match from {
            Scope::Everywhere => outside,
            Scope::Check(check) => least_of(outside, table_of(&self.checks, check).find(name)),
        }
    }

    /// Adds the table of one check more. It fails only for want of memory, and then changes nothing.
    pub(crate) fn open_check(&mut self, alloc: Global) -> Result<(), AllocError>
        requires { AreTables self.old }
        ensures tables { AreTables self.new }
        ensures checks { OnOk result (length self.new.checks.items ≡ length self.old.checks.items + 1) }
        ensures same { OnErr result (length self.new.checks.items ≡ length self.old.checks.items) }
        ensures definitions { self.new.definitions.items ≡ self.old.definitions.items }
    {
        self.checks.push(Table::new(alloc))?;
        Ok(())
    }

    /// Adds a definition outside checks, and says whether it is a repetition. Where memory is short nothing is known of
    /// the tables any more.
    pub(crate) fn define_outside(&mut self, name: &'d [u8]) -> Result<bool, AllocError>
        requires tables { AreTables self.old }
        requires few { length self.old.definitions.items < 2 ^ 32 }
        ensures tables { OnOk result (AreTables self.new) }
        ensures repeated { IfOk result (λ repeated.
            (repeated ≡ true) ↔ IsRepetition self.old.definitions.items (definition name.entry Everywhere)) }
        ensures checks { OnOk result (length self.new.checks.items ≡ length self.old.checks.items) }
        ensures definitions { OnOk result (self.new.definitions.items
            ≡ self.old.definitions.items ++ definition name.entry Everywhere ∷ []) }
    {
        let number = next_number(&self.definitions);
        let repeated = has_either(&self.outside, &self.inside, name);
        self.outside.enter(name, number)?;
        self.definitions.push(Definition {
            name,
            scope: Scope::Everywhere,
        })?;
        Ok(repeated)
    }

    /// The same in a check.
    pub(crate) fn define_inside(&mut self, name: &'d [u8], check: u32) -> Result<bool, AllocError>
        requires tables { AreTables self.old }
        requires few { length self.old.definitions.items < 2 ^ 32 }
        requires opened { check < length self.old.checks.items }
        ensures tables { OnOk result (AreTables self.new) }
        ensures repeated { IfOk result (λ repeated.
            (repeated ≡ true) ↔ IsRepetition self.old.definitions.items (definition name.entry (Check check))) }
        ensures checks { OnOk result (length self.new.checks.items ≡ length self.old.checks.items) }
        ensures definitions { OnOk result (self.new.definitions.items
            ≡ self.old.definitions.items ++ definition name.entry (Check check) ∷ []) }
    {
        let number = next_number(&self.definitions);
        let repeated = has_either(&self.outside, table_of(&self.checks, check), name);
        enter_in(&mut self.checks, check, name, number)?;
        self.inside.enter(name, number)?;
        self.definitions.push(Definition {
            name,
            scope: Scope::Check(check),
        })?;
        Ok(repeated)
    }
}

// The number of the definition that comes next.
fn next_number(definitions: &Vec<Definition<'_>>) -> u32
    requires { length definitions.now.items < 2 ^ 32 }
    ensures { result ≡ length definitions.now.items }
{
    definitions.len() as u32
}

fn has_either(first: &Table<'_>, second: &Table<'_>, name: &[u8]) -> bool
    ensures { result ≡ (is_some (found first.now name.now) || is_some (found second.now name.now)) }
{
    first.find(name).is_some() || second.find(name).is_some()
}

fn least_of(a: Option<u32>, b: Option<u32>) -> Option<u32>
    ensures { result ≡ least_of a b }
{
    match (a, b) {
        (None, b) => b,
        (Some(a), None) => Some(a),
        (Some(a), Some(b)) => Some(a.min(b)),
    }
}

fn table_of<'a, 'd>(checks: &'a [Table<'d>], check: u32) -> &'a Table<'d>
    requires { check < length checks.now }
    ensures { slice_get checks.now check ≡ Some result.now }
{
    &checks[check as usize]
}

// Enters a number under a name in the table of a check.
fn enter_in<'d>(
    checks: &mut Vec<Table<'d>>,
    check: u32,
    name: &'d [u8],
    number: u32,
) -> Result<(), AllocError>
    requires { check < length checks.old.items }
    ensures { OnOk result (IsEntered checks.old.items check name.entry.now number checks.new.items) }
{
    let table = &mut checks[check as usize];
    table.enter(name, number)
}
