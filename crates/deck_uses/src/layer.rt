//! The names of layers.

ghost use Rattle.std.specs.Prelude.{◌≡◌, ◌++◌, OnOk};
ghost use Rattle.deck_uses.specs.UsedNames.{shown, prefix_names, primary_names, term_names, operation_names, layer_names};

use crate::distance::{push_distance, push_limits};
use crate::push::push;
use crate::value::push_value_names;
use deck_tree::{Layer, NameAt, Operation, Prefix, Primary, Term};
use std::alloc::AllocError;

/// Adds the names that the layer uses, of layers and of variables, in the order of its text but for the value of ABUT,
/// whose names come last in their check. Only want of memory is an error.
#[cycle(layers)]
pub fn push_layer_names<'d>(names: &mut Vec<&'d NameAt>, layer: &'d Layer) -> Result<(), AllocError>
    ensures { OnOk result (shown names.new.items ≡ shown names.old.items ++ layer_names layer.entry.now) }
{
    push_primary(names, &layer.first)?;
    for operation in layer.more.as_slice() {
        push_operation(names, operation)?;
    }
    Ok(())
}

#[cycle(layers)]
fn push_operation<'d>(
    names: &mut Vec<&'d NameAt>,
    operation: &'d Operation,
) -> Result<(), AllocError>
    ensures { OnOk result (shown names.new.items ≡ shown names.old.items ++ operation_names operation.entry.now) }
{
    push_primary(names, &operation.right)
}

#[cycle(layers)]
fn push_primary<'d>(names: &mut Vec<&'d NameAt>, primary: &'d Primary) -> Result<(), AllocError>
    ensures { OnOk result (shown names.new.items ≡ shown names.old.items ++ primary_names primary.entry.now) }
{
    match primary {
        Primary::Term(term) => push_term(names, term),
        Primary::Prefix(_, prefix) => push_prefix(names, prefix.get()),
        Primary::Distance(_, distance) => push_distance(names, distance.get()),
    }
}

#[cycle(layers)]
fn push_prefix<'d>(names: &mut Vec<&'d NameAt>, prefix: &'d Prefix) -> Result<(), AllocError>
    ensures { OnOk result (shown names.new.items ≡ shown names.old.items ++ prefix_names prefix.entry.now) }
{
    match prefix {
        Prefix::Copy(term) => push_term(names, term),
        Prefix::Rectangle(term) => push_term(names, term),
        Prefix::Area(term, limits) => {
            push_term(names, term)?;
            push_limits(names, limits)
        }
        Prefix::Length(term, limits) => {
            push_term(names, term)?;
            push_limits(names, limits)
        }
        Prefix::Size(term, value, _) => {
            push_term(names, term)?;
            push_value_names(names, value)
        }
        Prefix::Angle(term, value) => {
            push_term(names, term)?;
            push_value_names(names, value)
        }
        Prefix::Expand(term, _, value) => {
            push_term(names, term)?;
            push_value_names(names, value)
        }
    }
}

#[cycle(layers)]
fn push_term<'d>(names: &mut Vec<&'d NameAt>, term: &'d Term) -> Result<(), AllocError>
    ensures { OnOk result (shown names.new.items ≡ shown names.old.items ++ term_names term.entry.now) }
{
    match term {
        Term::Name(name) => push(names, name),
        Term::Bracketed(_, layer) => push_layer_names(names, layer.get()),
    }
}
