//! One value more.

ghost use Rattle.std.specs.Prelude.{◌≡◌, ◌++◌, OnOk};
ghost use Rattle.deck_values.specs.Values.{shown, seen_from, one};

use crate::placed::{PlacedValue, Wanted};
use deck_names::Scope;
use deck_tree::Value;
use std::alloc::AllocError;

/// Adds a value.
#[tactic(auto, using(crate::proofs::Shown::one_more))]
pub(crate) fn push<'d>(
    found: &mut Vec<PlacedValue<'d>>,
    scope: Scope,
    wanted: Wanted,
    value: &'d Value,
) -> Result<(), AllocError>
    ensures { OnOk result (shown found.new.items ≡ shown found.old.items ++ seen_from scope (one wanted value.entry.now)) }
{
    found.push(PlacedValue {
        value,
        scope,
        wanted,
    })?;
    Ok(())
}
