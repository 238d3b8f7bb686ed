//! The names of values.

ghost use Rattle.std.specs.Prelude.{◌≡◌, ◌++◌, OnOk};
ghost use Rattle.deck_uses.specs.UsedNames.{shown, atom_names, addend_names, exponent_names, factor_names, power_names, product_names, value_names};

use crate::push::push;
use deck_tree::{Addend, Atom, Exponent, Factor, NameAt, Power, Product, Value};
use std::alloc::AllocError;

/// Adds the names that the value uses, in the order of its text. Only want of memory is an error.
#[cycle(values)]
pub fn push_value_names<'d>(names: &mut Vec<&'d NameAt>, value: &'d Value) -> Result<(), AllocError>
    ensures { OnOk result (shown names.new.items ≡ shown names.old.items ++ value_names value.entry.now) }
{
    push_product(names, &value.first)?;
    for addend in value.more.as_slice() {
        push_addend(names, addend)?;
    }
    Ok(())
}

#[cycle(values)]
fn push_addend<'d>(names: &mut Vec<&'d NameAt>, addend: &'d Addend) -> Result<(), AllocError>
    ensures { OnOk result (shown names.new.items ≡ shown names.old.items ++ addend_names addend.entry.now) }
{
    push_product(names, &addend.product)
}

#[cycle(values)]
fn push_product<'d>(names: &mut Vec<&'d NameAt>, product: &'d Product) -> Result<(), AllocError>
    ensures { OnOk result (shown names.new.items ≡ shown names.old.items ++ product_names product.entry.now) }
{
    push_power(names, &product.first)?;
    for factor in product.more.as_slice() {
        push_factor(names, factor)?;
    }
    Ok(())
}

#[cycle(values)]
fn push_factor<'d>(names: &mut Vec<&'d NameAt>, factor: &'d Factor) -> Result<(), AllocError>
    ensures { OnOk result (shown names.new.items ≡ shown names.old.items ++ factor_names factor.entry.now) }
{
    push_power(names, &factor.power)
}

#[cycle(values)]
fn push_power<'d>(names: &mut Vec<&'d NameAt>, power: &'d Power) -> Result<(), AllocError>
    ensures { OnOk result (shown names.new.items ≡ shown names.old.items ++ power_names power.entry.now) }
{
    push_atom(names, &power.base)?;
    match &power.exponent {
        None => Ok(()),
        Some(exponent) => push_exponent(names, exponent.get()),
    }
}

#[cycle(values)]
fn push_exponent<'d>(names: &mut Vec<&'d NameAt>, exponent: &'d Exponent) -> Result<(), AllocError>
    ensures { OnOk result (shown names.new.items ≡ shown names.old.items ++ exponent_names exponent.entry.now) }
{
    push_atom(names, &exponent.atom)
}

#[cycle(values)]
fn push_atom<'d>(names: &mut Vec<&'d NameAt>, atom: &'d Atom) -> Result<(), AllocError>
    ensures { OnOk result (shown names.new.items ≡ shown names.old.items ++ atom_names atom.entry.now) }
{
    match atom {
        Atom::Number(_, _) => Ok(()),
        Atom::Name(_, name) => push(names, name),
        Atom::Bracketed(_, _, value) => push_value_names(names, value.get()),
    }
}
