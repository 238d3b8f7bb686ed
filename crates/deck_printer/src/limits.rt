//! The text of bounds.

ghost use Rattle.std.specs.Prelude.{◌≡◌, ◌++◌, OnOk};
ghost use Rattle.deck_printer.specs.Values.{below_text, above_text, bound_text, upper_text, limits_text};

use crate::value::push_value;
use deck_tree::{Above, Below, Bound, Limits};
use sqlite_items::Boxed;
use std::alloc::AllocError;

fn push_below(text: &mut Vec<u8>, sign: Below) -> Result<(), AllocError>
    ensures { OnOk result (text.new.items ≡ text.old.items ++ below_text sign) }
{
    match sign {
        Below::Less => text.extend_from_slice(b" < "),
        Below::LessOrEqual => text.extend_from_slice(b" <= "),
    }
}

fn push_above(text: &mut Vec<u8>, sign: Above) -> Result<(), AllocError>
    ensures { OnOk result (text.new.items ≡ text.old.items ++ above_text sign) }
{
    match sign {
        Above::Greater => text.extend_from_slice(b" > "),
        Above::GreaterOrEqual => text.extend_from_slice(b" >= "),
    }
}

pub fn push_bound(text: &mut Vec<u8>, bound: &Bound) -> Result<(), AllocError>
    ensures { OnOk result (text.new.items ≡ text.old.items ++ bound_text bound.now) }
{
    push_below(text, bound.sign)?;
    push_value(text, &bound.value)
}

fn push_upper(text: &mut Vec<u8>, bound: &Option<Boxed<Bound>>) -> Result<(), AllocError>
    ensures { OnOk result (text.new.items ≡ text.old.items ++ upper_text bound.now) }
{
    match bound {
        None => Ok(()),
        Some(bound) => push_bound(text, bound.get()),
    }
}

pub fn push_limits(text: &mut Vec<u8>, limits: &Limits) -> Result<(), AllocError>
    ensures { OnOk result (text.new.items ≡ text.old.items ++ limits_text limits.now) }
{
    match limits {
        Limits::Below(bound) => push_bound(text, bound),
        Limits::Equal(value) => {
            text.extend_from_slice(b" == ")?;
            push_value(text, value)
        }
        Limits::NotEqual(value) => {
            text.extend_from_slice(b" != ")?;
            push_value(text, value)
        }
        Limits::Above(sign, value, bound) => {
            push_above(text, *sign)?;
            push_value(text, value)?;
            push_upper(text, bound)
        }
    }
}
