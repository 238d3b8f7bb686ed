//! The facts of the names of checks.

ghost use Rattle.std.specs.Prelude.{◌≡◌, ◌++◌, ℕ, List, [], false, IfOk, OnOk};
ghost use Rattle.std.specs.List.{flat_map};
ghost use Rattle.deck_selection.specs.Selection.{is_named};
ghost use Rattle.deck_selection.specs.CheckNames.{checked_by, picked_by, one_if, repeated, check_name_facts};
ghost use Rattle.deck_selection.specs.Working.NameSets.{has, names_shown, unknown_to};

use crate::name_set::NameSet;
use deck_tree::{Deck, DeckKind, DeckRefusal, NameAt, Statement};
use std::alloc::{AllocError, Global};

/// The facts of the names of checks: that a check has the name of an earlier one, at the name; and that a name of SELECT
/// or UNSELECT is that of no check, at the name. Only want of memory is an error.
pub fn check_name_facts(alloc: Global, deck: &Deck) -> Result<Vec<DeckRefusal>, AllocError>
    ensures { IfOk result (λ facts. facts.items ≡ check_name_facts deck.now) }
{
    let statements = deck.statements.as_slice();
    let mut names = Vec::new(alloc);
    push_names(&mut names, statements)?;
    let mut facts = Vec::new(alloc);
    let mut known = NameSet::new(alloc);
    push_repeated(&mut facts, &mut known, &names)?;
    push_unknown(&mut facts, &known, statements)?;
    Ok(facts)
}

// Adds the names of the checks.
fn push_names<'d>(
    names: &mut Vec<&'d NameAt>,
    statements: &'d [Statement],
) -> Result<(), AllocError>
    ensures { OnOk result (names_shown names.new.items ≡ names_shown names.old.items ++ flat_map checked_by statements.entry.now) }
{
    for statement in statements {
        if let Statement::Check(name, _) = statement {
            names.push(name)?;
        }
    }
    Ok(())
}

// Adds the facts that a name repeats an earlier one, and the names to those that are known.
fn push_repeated<'d>(
    facts: &mut Vec<DeckRefusal>,
    known: &mut NameSet<'d>,
    names: &[&'d NameAt],
) -> Result<(), AllocError>
    requires none { (q : List ℕ) → has known.old q ≡ false }
    ensures facts { OnOk result (facts.new.items ≡ facts.old.items ++ repeated [] (names_shown names.now)) }
    ensures known { OnOk result ((q : List ℕ) → has known.new q ≡ is_named q (names_shown names.now)) }
{
    for name in names {
        let is_repeated = known.has(name.name.bytes());
        push_if(facts, is_repeated, DeckKind::DuplicateName, name)?;
        known.add(name.name.bytes())?;
    }
    Ok(())
}

// Adds the facts that a name of SELECT or UNSELECT isn't known.
fn push_unknown(
    facts: &mut Vec<DeckRefusal>,
    known: &NameSet<'_>,
    statements: &[Statement],
) -> Result<(), AllocError>
    ensures { OnOk result (facts.new.items ≡ facts.old.items ++ flat_map (unknown_to known.now) (flat_map picked_by statements.now)) }
{
    for statement in statements {
        match statement {
            Statement::SelectCheck(_, names) | Statement::UnselectCheck(_, names) => {
                push_unknown_names(facts, known, names.as_slice())?;
            }
            _ => {}
        }
    }
    Ok(())
}

fn push_unknown_names(
    facts: &mut Vec<DeckRefusal>,
    known: &NameSet<'_>,
    names: &[NameAt],
) -> Result<(), AllocError>
    ensures { OnOk result (facts.new.items ≡ facts.old.items ++ flat_map (unknown_to known.now) names.now) }
{
    for name in names {
        let is_known = known.has(name.name.bytes());
        push_if(facts, !is_known, DeckKind::UndefinedName, name)?;
    }
    Ok(())
}

// Adds a fact that stands at a name, if it holds.
fn push_if(
    facts: &mut Vec<DeckRefusal>,
    holds: bool,
    kind: DeckKind,
    name: &NameAt,
) -> Result<(), AllocError>
    ensures { OnOk result (facts.new.items ≡ facts.old.items ++ one_if holds kind name.now) }
{
    if holds {
        facts.push(DeckRefusal { at: name.at, kind })?;
    }
    Ok(())
}
