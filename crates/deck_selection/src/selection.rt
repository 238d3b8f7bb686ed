//! What the SELECT and UNSELECT statements of a deck say.

ghost use Rattle.std.specs.Prelude.{◌≡◌, IfOk, OnOk};
ghost use Rattle.deck_selection.specs.Selection.{is_selected};
ghost use Rattle.deck_selection.specs.Working.NameSets.{Says, IsOneMore, chosen};

use crate::name_set::NameSet;
use deck_tree::Statement;
use std::alloc::{AllocError, Global};

/// Whether a SELECT stands, and the names that the SELECT and the UNSELECT statements have.
#[derive(Drop)]
pub(crate) struct Selection<'d> {
    selects: bool,
    selected: NameSet<'d>,
    unselected: NameSet<'d>,
}

impl<'d> Selection<'d> {
    /// What these statements say. Only want of memory is an error.
    pub(crate) fn of(
        alloc: Global,
        statements: &'d [Statement],
    ) -> Result<Selection<'d>, AllocError>
        ensures { IfOk result (λ selection. Says selection statements.entry.now) }
    {
        let mut selection = Selection {
            selects: false,
            selected: NameSet::new(alloc),
            unselected: NameSet::new(alloc),
        };
        for statement in statements {
            selection.note(statement)?;
        }
        Ok(selection)
    }

    fn note(&mut self, statement: &'d Statement) -> Result<(), AllocError>
        ensures { OnOk result (IsOneMore self.old statement.entry.now self.new) }
    {
        match statement {
            Statement::SelectCheck(_, names) => {
                self.selects = true;
                self.selected.add_all(names.as_slice())
            }
            Statement::UnselectCheck(_, names) => self.unselected.add_all(names.as_slice()),
            _ => Ok(()),
        }
    }

    /// Whether a check of this name is selected.
    pub(crate) fn selects(&self, name: &[u8]) -> bool
        ensures { result ≡ chosen self.now name.now }
    {
        (!self.selects || self.selected.has(name)) && !self.unselected.has(name)
    }
}
