//! The text of values.

ghost use Rattle.std.specs.Prelude.{◌≡◌, ◌++◌, OnOk};
ghost use Rattle.deck_printer.specs.Values.{fraction_text, number_text, minus_text, atom_text, exponent_text, power_text, product_sign_text, factor_text, product_text, add_sign_text, addend_text, value_text};

use deck_tree::{
    AddSign, Addend, Atom, Exponent, Factor, Number, Power, Product, ProductSign, Value,
};
use std::alloc::AllocError;

fn push_fraction(text: &mut Vec<u8>, digits: &[u8]) -> Result<(), AllocError>
    ensures { OnOk result (text.new.items ≡ text.old.items ++ fraction_text digits.now) }
{
    if digits.is_empty() {
        return Ok(());
    }
    text.extend_from_slice(b".")?;
    text.extend_from_slice(digits)
}

pub fn push_number(text: &mut Vec<u8>, number: &Number) -> Result<(), AllocError>
    ensures { OnOk result (text.new.items ≡ text.old.items ++ number_text number.now) }
{
    text.extend_from_slice(number.whole.as_slice())?;
    push_fraction(text, number.fraction.as_slice())
}

fn push_minus(text: &mut Vec<u8>, minus: Option<u64>) -> Result<(), AllocError>
    ensures { OnOk result (text.new.items ≡ text.old.items ++ minus_text minus) }
{
    match minus {
        None => Ok(()),
        Some(_) => text.extend_from_slice(b"-"),
    }
}

#[cycle(values)]
fn push_atom(text: &mut Vec<u8>, atom: &Atom) -> Result<(), AllocError>
    ensures { OnOk result (text.new.items ≡ text.old.items ++ atom_text atom.now) }
{
    match atom {
        Atom::Number(minus, number) => {
            push_minus(text, *minus)?;
            push_number(text, number)
        }
        Atom::Name(minus, name) => {
            push_minus(text, *minus)?;
            text.extend_from_slice(name.name.bytes())
        }
        Atom::Bracketed(minus, _, value) => {
            push_minus(text, *minus)?;
            text.extend_from_slice(b"(")?;
            push_value(text, value.get())?;
            text.extend_from_slice(b")")
        }
    }
}

#[cycle(values)]
fn push_exponent(text: &mut Vec<u8>, exponent: &Exponent) -> Result<(), AllocError>
    ensures { OnOk result (text.new.items ≡ text.old.items ++ exponent_text exponent.now) }
{
    text.extend_from_slice(b" ^ ")?;
    push_atom(text, &exponent.atom)
}

#[cycle(values)]
fn push_power(text: &mut Vec<u8>, power: &Power) -> Result<(), AllocError>
    ensures { OnOk result (text.new.items ≡ text.old.items ++ power_text power.now) }
{
    push_atom(text, &power.base)?;
    match &power.exponent {
        None => Ok(()),
        Some(exponent) => push_exponent(text, exponent.get()),
    }
}

fn push_product_sign(text: &mut Vec<u8>, sign: ProductSign) -> Result<(), AllocError>
    ensures { OnOk result (text.new.items ≡ text.old.items ++ product_sign_text sign) }
{
    match sign {
        ProductSign::Times => text.extend_from_slice(b" * "),
        ProductSign::Over => text.extend_from_slice(b" / "),
        ProductSign::Modulo => text.extend_from_slice(b" % "),
    }
}

#[cycle(values)]
fn push_factor(text: &mut Vec<u8>, factor: &Factor) -> Result<(), AllocError>
    ensures { OnOk result (text.new.items ≡ text.old.items ++ factor_text factor.now) }
{
    push_product_sign(text, factor.sign)?;
    push_power(text, &factor.power)
}

#[cycle(values)]
fn push_product(text: &mut Vec<u8>, product: &Product) -> Result<(), AllocError>
    ensures { OnOk result (text.new.items ≡ text.old.items ++ product_text product.now) }
{
    push_power(text, &product.first)?;
    for factor in product.more.as_slice() {
        push_factor(text, factor)?;
    }
    Ok(())
}

fn push_add_sign(text: &mut Vec<u8>, sign: AddSign) -> Result<(), AllocError>
    ensures { OnOk result (text.new.items ≡ text.old.items ++ add_sign_text sign) }
{
    match sign {
        AddSign::Plus => text.extend_from_slice(b" + "),
        AddSign::Minus => text.extend_from_slice(b" - "),
    }
}

#[cycle(values)]
fn push_addend(text: &mut Vec<u8>, addend: &Addend) -> Result<(), AllocError>
    ensures { OnOk result (text.new.items ≡ text.old.items ++ addend_text addend.now) }
{
    push_add_sign(text, addend.sign)?;
    push_product(text, &addend.product)
}

#[cycle(values)]
pub fn push_value(text: &mut Vec<u8>, value: &Value) -> Result<(), AllocError>
    ensures { OnOk result (text.new.items ≡ text.old.items ++ value_text value.now) }
{
    push_product(text, &value.first)?;
    for addend in value.more.as_slice() {
        push_addend(text, addend)?;
    }
    Ok(())
}
