//! The values of layers.

ghost use Rattle.std.specs.Prelude.{◌≡◌, ◌++◌, OnOk};
ghost use Rattle.deck_values.specs.Values.{shown, seen_from, size_place, prefix_wants, primary_wants, term_wants, operation_wants, layer_wants};

use crate::bounds::{push_distance, push_limits};
use crate::placed::{PlacedValue, Wanted};
use crate::push::push;
use deck_names::Scope;
use deck_tree::{Layer, Operation, Prefix, Primary, Term, Turn};
use deck_units::ValuePlace;
use std::alloc::AllocError;

/// Adds the values of a layer whose names are seen from the place, in the order of its text.
#[cycle(layers)]
pub(crate) fn push_layer<'d>(
    found: &mut Vec<PlacedValue<'d>>,
    scope: Scope,
    layer: &'d Layer,
) -> Result<(), AllocError>
    ensures { OnOk result (shown found.new.items ≡ shown found.old.items ++ seen_from scope (layer_wants layer.entry.now)) }
{
    push_primary(found, scope, &layer.first)?;
    for operation in layer.more.as_slice() {
        push_operation(found, scope, operation)?;
    }
    Ok(())
}

#[cycle(layers)]
fn push_operation<'d>(
    found: &mut Vec<PlacedValue<'d>>,
    scope: Scope,
    operation: &'d Operation,
) -> Result<(), AllocError>
    ensures { OnOk result (shown found.new.items ≡ shown found.old.items ++ seen_from scope (operation_wants operation.entry.now)) }
{
    push_primary(found, scope, &operation.right)
}

#[cycle(layers)]
fn push_primary<'d>(
    found: &mut Vec<PlacedValue<'d>>,
    scope: Scope,
    primary: &'d Primary,
) -> Result<(), AllocError>
    ensures { OnOk result (shown found.new.items ≡ shown found.old.items ++ seen_from scope (primary_wants primary.entry.now)) }
{
    match primary {
        Primary::Term(term) => push_term(found, scope, term),
        Primary::Prefix(_, prefix) => push_prefix(found, scope, prefix.get()),
        Primary::Distance(_, distance) => push_distance(found, scope, distance.get()),
    }
}

#[cycle(layers)]
fn push_prefix<'d>(
    found: &mut Vec<PlacedValue<'d>>,
    scope: Scope,
    prefix: &'d Prefix,
) -> Result<(), AllocError>
    ensures { OnOk result (shown found.new.items ≡ shown found.old.items ++ seen_from scope (prefix_wants prefix.entry.now)) }
{
    match prefix {
        Prefix::Copy(term) => push_term(found, scope, term),
        Prefix::Rectangle(term) => push_term(found, scope, term),
        Prefix::Area(term, limits) => {
            push_term(found, scope, term)?;
            push_limits(found, scope, Wanted::Range(ValuePlace::Area), limits)
        }
        Prefix::Length(term, limits) => {
            push_term(found, scope, term)?;
            push_limits(found, scope, Wanted::Range(ValuePlace::Length), limits)
        }
        Prefix::Size(term, value, turn) => {
            push_term(found, scope, term)?;
            push(found, scope, Wanted::Range(size_place(*turn)), value)
        }
        Prefix::Angle(term, value) => {
            push_term(found, scope, term)?;
            push(found, scope, Wanted::RightAngle, value)
        }
        Prefix::Expand(term, _, value) => {
            push_term(found, scope, term)?;
            push(found, scope, Wanted::Range(ValuePlace::Distance), value)
        }
    }
}

// The place of the value of SIZE.
fn size_place(turn: Option<Turn>) -> ValuePlace
    ensures { result ≡ size_place turn }
{
    match turn {
        None => ValuePlace::Size,
        Some(_) => ValuePlace::TurnedSize,
    }
}

#[cycle(layers)]
fn push_term<'d>(
    found: &mut Vec<PlacedValue<'d>>,
    scope: Scope,
    term: &'d Term,
) -> Result<(), AllocError>
    ensures { OnOk result (shown found.new.items ≡ shown found.old.items ++ seen_from scope (term_wants term.entry.now)) }
{
    match term {
        Term::Name(_) => Ok(()),
        Term::Bracketed(_, layer) => push_layer(found, scope, layer.get()),
    }
}
