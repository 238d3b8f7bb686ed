//! The values of limits and of checks of distances.

ghost use Rattle.std.specs.Prelude.{◌≡◌, ◌++◌, [], OnOk};
ghost use Rattle.std.specs.Option.{option_map_or};
ghost use Rattle.deck_values.specs.Values.{shown, seen_from, one, bound_wants, limits_wants, distance_wants};

use crate::placed::{PlacedValue, Wanted};
use crate::push::push;
use deck_names::Scope;
use deck_tree::{Bound, Distance, Limits, Value};
use deck_units::ValuePlace;
use sqlite_items::Boxed;
use std::alloc::AllocError;

/// Adds the values of limits, each of which wants the same.
pub(crate) fn push_limits<'d>(
    found: &mut Vec<PlacedValue<'d>>,
    scope: Scope,
    wanted: Wanted,
    limits: &'d Limits,
) -> Result<(), AllocError>
    ensures { OnOk result (shown found.new.items ≡ shown found.old.items ++ seen_from scope (limits_wants wanted limits.entry.now)) }
{
    match limits {
        Limits::Below(bound) => push_bound(found, scope, wanted, bound),
        Limits::Equal(value) => push(found, scope, wanted, value),
        Limits::NotEqual(value) => push(found, scope, wanted, value),
        Limits::Above(_, value, bound) => {
            push(found, scope, wanted, value)?;
            push_maybe_bound(found, scope, wanted, bound)
        }
    }
}

fn push_maybe_bound<'d>(
    found: &mut Vec<PlacedValue<'d>>,
    scope: Scope,
    wanted: Wanted,
    bound: &'d Option<Boxed<Bound>>,
) -> Result<(), AllocError>
    ensures { OnOk result (shown found.new.items
        ≡ shown found.old.items ++ seen_from scope (option_map_or (bound_wants wanted) bound.entry.now [])) }
{
    match bound {
        None => Ok(()),
        Some(bound) => push_bound(found, scope, wanted, bound.get()),
    }
}

fn push_bound<'d>(
    found: &mut Vec<PlacedValue<'d>>,
    scope: Scope,
    wanted: Wanted,
    bound: &'d Bound,
) -> Result<(), AllocError>
    ensures { OnOk result (shown found.new.items ≡ shown found.old.items ++ seen_from scope (bound_wants wanted bound.entry.now)) }
{
    push(found, scope, wanted, &bound.value)
}

/// Adds the values of a check of distances.
pub(crate) fn push_distance<'d>(
    found: &mut Vec<PlacedValue<'d>>,
    scope: Scope,
    distance: &'d Distance,
) -> Result<(), AllocError>
    ensures { OnOk result (shown found.new.items ≡ shown found.old.items ++ seen_from scope (distance_wants distance.entry.now)) }
{
    push_bound(
        found,
        scope,
        Wanted::Range(ValuePlace::Distance),
        &distance.bound,
    )?;
    push_maybe(
        found,
        scope,
        Wanted::Range(ValuePlace::Abut),
        &distance.options.abut,
    )
}

/// Adds the value that is there, if there is one.
pub(crate) fn push_maybe<'d>(
    found: &mut Vec<PlacedValue<'d>>,
    scope: Scope,
    wanted: Wanted,
    value: &'d Option<Boxed<Value>>,
) -> Result<(), AllocError>
    ensures { OnOk result (shown found.new.items
        ≡ shown found.old.items ++ seen_from scope (option_map_or (one wanted) value.entry.now [])) }
{
    match value {
        None => Ok(()),
        Some(value) => push(found, scope, wanted, value.get()),
    }
}
