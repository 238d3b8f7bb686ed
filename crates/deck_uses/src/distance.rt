//! The names of bounds and of checks of distances.

ghost use Rattle.std.specs.Prelude.{◌≡◌, ◌++◌, ◌∷◌, [], Option, OnOk};
ghost use Rattle.std.specs.Option.{option_map_or};
ghost use Rattle.deck_uses.specs.UsedNames.{shown, value_names, bound_names, limits_names, input_name, second_names, distance_names};

use crate::push::push;
use crate::value::push_value_names;
use deck_tree::{Bound, Distance, Input, Limits, NameAt, Value};
use sqlite_items::Boxed;
use std::alloc::AllocError;

/// Adds the names of limits.
pub(crate) fn push_limits<'d>(
    names: &mut Vec<&'d NameAt>,
    limits: &'d Limits,
) -> Result<(), AllocError>
    ensures { OnOk result (shown names.new.items ≡ shown names.old.items ++ limits_names limits.entry.now) }
{
    match limits {
        Limits::Below(bound) => push_bound(names, bound),
        Limits::Equal(value) => push_value_names(names, value),
        Limits::NotEqual(value) => push_value_names(names, value),
        Limits::Above(_, value, bound) => {
            push_value_names(names, value)?;
            push_maybe_bound(names, bound)
        }
    }
}

fn push_maybe_bound<'d>(
    names: &mut Vec<&'d NameAt>,
    bound: &'d Option<Boxed<Bound>>,
) -> Result<(), AllocError>
    ensures { OnOk result (shown names.new.items
        ≡ shown names.old.items ++ option_map_or bound_names bound.entry.now []) }
{
    match bound {
        None => Ok(()),
        Some(bound) => push_bound(names, bound.get()),
    }
}

fn push_bound<'d>(names: &mut Vec<&'d NameAt>, bound: &'d Bound) -> Result<(), AllocError>
    ensures { OnOk result (shown names.new.items ≡ shown names.old.items ++ bound_names bound.entry.now) }
{
    push_value_names(names, &bound.value)
}

/// Adds the names of a check of distances.
pub(crate) fn push_distance<'d>(
    names: &mut Vec<&'d NameAt>,
    distance: &'d Distance,
) -> Result<(), AllocError>
    ensures { OnOk result (shown names.new.items ≡ shown names.old.items ++ distance_names distance.entry.now) }
{
    push_input(names, &distance.first)?;
    push_second(names, &distance.second)?;
    push_bound(names, &distance.bound)?;
    push_abut(names, &distance.options.abut)
}

fn push_input<'d>(names: &mut Vec<&'d NameAt>, input: &'d Input) -> Result<(), AllocError>
    ensures { OnOk result (shown names.new.items ≡ shown names.old.items ++ input_name input.entry.now ∷ []) }
{
    match input {
        Input::Plain(name) => push(names, name),
        Input::Bracketed(_, name) => push(names, name),
    }
}

fn push_second<'d>(names: &mut Vec<&'d NameAt>, second: &'d Option<Input>) -> Result<(), AllocError>
    ensures { OnOk result (shown names.new.items ≡ shown names.old.items ++ second_names second.entry.now) }
{
    match second {
        None => Ok(()),
        Some(second) => push_input(names, second),
    }
}

fn push_abut<'d>(
    names: &mut Vec<&'d NameAt>,
    abut: &'d Option<Boxed<Value>>,
) -> Result<(), AllocError>
    ensures { OnOk result (shown names.new.items
        ≡ shown names.old.items ++ option_map_or value_names abut.entry.now []) }
{
    match abut {
        None => Ok(()),
        Some(value) => push_value_names(names, value.get()),
    }
}
