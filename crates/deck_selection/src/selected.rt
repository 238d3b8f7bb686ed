//! The checks that are selected.

ghost use Rattle.std.specs.Prelude.{◌≡◌, ◌++◌, ◌∷◌, ◌<◌, ◌^◌, [], length, IfOk, OnOk};
ghost use Rattle.std.specs.List.{filter};
ghost use Rattle.deck_selection.specs.Selection.{shown, checks_from, selected_of};
ghost use Rattle.deck_selection.specs.Working.NameSets.{passes};

use crate::check::Check;
use crate::selection::Selection;
use deck_tree::{Deck, Statement};
use std::alloc::{AllocError, Global};

/// The checks of the deck that are selected, in its order: no SELECT stands in it or one names the check, and no UNSELECT
/// names it. Only want of memory is an error, for which a deck of 2^32 statements counts.
pub fn selected_checks<'d>(alloc: Global, deck: &'d Deck) -> Result<Vec<Check<'d>>, AllocError>
    ensures { IfOk result (λ found. shown found.items ≡ selected_of deck.entry.now) }
{
    let statements = deck.statements.as_slice();
    if statements.len() > u32::MAX as usize {
        return Err(AllocError);
    }
    let selection = Selection::of(alloc, statements)?;
    let mut found = Vec::new(alloc);
    push_checks(&mut found, &selection, statements)?;
    Ok(found)
}

fn push_checks<'d>(
    found: &mut Vec<Check<'d>>,
    selection: &Selection<'d>,
    statements: &'d [Statement],
) -> Result<(), AllocError>
    requires few { length statements.now < 2 ^ 32 }
    ensures { OnOk result (shown found.new.items
        ≡ shown found.old.items ++ filter (passes selection.now) (checks_from 0 statements.entry.now)) }
{
    let mut number = 0;
    for statement in statements {
        if let Statement::Check(name, items) = statement {
            let items = items.as_slice();
            let check = Check {
                number,
                name,
                items,
            };
            push(found, selection, check)?;
            number += 1;
        }
    }
    Ok(())
}

// Adds the check, if it is selected.
fn push<'d>(
    found: &mut Vec<Check<'d>>,
    selection: &Selection<'d>,
    check: Check<'d>,
) -> Result<(), AllocError>
    ensures { OnOk result (shown found.new.items ≡ shown found.old.items ++ filter (passes selection.now) (shown (check.entry ∷ []))) }
{
    if selection.selects(check.name.name.bytes()) {
        found.push(check)?;
    }
    Ok(())
}
