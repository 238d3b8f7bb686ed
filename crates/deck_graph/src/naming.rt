//! The names of definitions.

ghost use Rattle.std.specs.Prelude.{◌≡◌, ◌+◌, ◌<◌, ◌^◌, [], length, IfOk, OnOk};
ghost use Rattle.std.specs.List.{flat_map};
ghost use Rattle.deck_counts.specs.Outputs.{statement_checks};
ghost use Rattle.deck_definitions.specs.Definitions.{shown};
ghost use Rattle.deck_graph.specs.Graphs.{StandAtPlaces, TellRepeated};
ghost use Rattle.deck_graph.specs.Kept.{AreNames};

use deck_definitions::Defined;
use deck_names::Names;
use deck_tree::Statement;
use std::alloc::{AllocError, Global};

/// Opens a check for each of the statements that is one.
pub fn open_checks(names: &mut Names<'_>, statements: &[Statement]) -> Result<(), AllocError>
    requires { names.old.checks + length statements.now < 2 ^ 32 }
    ensures checks { OnOk result (names.new.checks ≡ names.old.checks + length (flat_map statement_checks statements.now)) }
    ensures same { OnOk result (names.new.definitions ≡ names.old.definitions) }
{
    for statement in statements {
        open_if_check(names, statement)?;
    }
    Ok(())
}

fn open_if_check(names: &mut Names<'_>, statement: &Statement) -> Result<(), AllocError>
    requires { names.old.checks + 1 < 2 ^ 32 }
    ensures checks { OnOk result (names.new.checks ≡ names.old.checks + length (statement_checks statement.now)) }
    ensures same { OnOk result (names.new.definitions ≡ names.old.definitions) }
{
    if let Statement::Check(_, _) = statement {
        names.open_check()?;
    }
    Ok(())
}

/// Defines the names of definitions, in their order, and tells of each whether it repeats an earlier one.
pub fn define_all<'d>(
    alloc: Global,
    names: &mut Names<'d>,
    definitions: &[Defined<'d>],
) -> Result<Vec<bool>, AllocError>
    requires few { length definitions.now < 2 ^ 32 }
    requires none { names.old.definitions ≡ [] }
    requires places { StandAtPlaces names.old.checks (shown definitions.now) }
    ensures names { OnOk result (AreNames names.new.definitions (shown definitions.now)) }
    ensures checks { OnOk result (names.new.checks ≡ names.old.checks) }
    ensures repeated { IfOk result (λ flags. TellRepeated (shown definitions.now) flags.items) }
{
    let mut repeated = Vec::new(alloc);
    for one in definitions {
        repeated.push(names.define(one.name.name.bytes(), one.scope)?)?;
    }
    Ok(repeated)
}
