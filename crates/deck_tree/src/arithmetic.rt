//! One operation on numbers, at the offset of its sign.

ghost use Rattle.std.specs.Prelude.{◌≡◌, ◌≤◌, ◌^◌};
ghost use Rattle.std.specs.Int.{int_pow};
ghost use Rattle.drc_num.specs.Fractions.{fraction_of};
ghost use Rattle.deck_tree.specs.Worths.{in_range, sum, difference, multiple, quotient, remainder, power, negative, exponent_of, by_add_sign, by_product_sign};

use crate::{AddSign, ProductSign, ValueFault};
use drc_num::Frac;

/// What fits, or a fault at the offset.
pub fn in_range(at: u64, answer: Option<Frac>) -> Result<Frac, ValueFault>
    ensures { result ≡ in_range at answer }
{
    answer.ok_or(ValueFault::ValueRange(at))
}

/// The sum or the difference.
pub fn by_add_sign(sign: AddSign, at: u64, a: &Frac, b: &Frac) -> Result<Frac, ValueFault>
    ensures { result ≡ by_add_sign sign at a.now b.now }
{
    match sign {
        AddSign::Plus => sum(at, a, b),
        AddSign::Minus => difference(at, a, b),
    }
}

/// The product, the quotient or what it leaves.
pub fn by_product_sign(sign: ProductSign, at: u64, a: &Frac, b: &Frac) -> Result<Frac, ValueFault>
    ensures { result ≡ by_product_sign sign at a.now b.now }
{
    match sign {
        ProductSign::Times => multiple(at, a, b),
        ProductSign::Over => quotient(at, a, b),
        ProductSign::Modulo => remainder(at, a, b),
    }
}

/// The power, where the exponent is whole and from 0 to 255.
pub fn power(at: u64, a: &Frac, b: &Frac) -> Result<Frac, ValueFault>
    ensures { result ≡ power at a.now b.now }
{
    match exponent_of(b) {
        None => Err(ValueFault::ValueRange(at)),
        Some(n) => raised(at, a, n),
    }
}

/// The number on the other side of 0.
pub fn negative(at: u64, a: &Frac) -> Result<Frac, ValueFault>
    ensures { result ≡ negative at a.now }
{
    in_range(at, Frac::new(-i128::from(a.num()), u128::from(a.den())))
}

fn sum(at: u64, a: &Frac, b: &Frac) -> Result<Frac, ValueFault>
    ensures { result ≡ sum at a.now b.now }
{
    in_range(at, a.add(b))
}

fn difference(at: u64, a: &Frac, b: &Frac) -> Result<Frac, ValueFault>
    ensures { result ≡ difference at a.now b.now }
{
    in_range(at, a.sub(b))
}

fn multiple(at: u64, a: &Frac, b: &Frac) -> Result<Frac, ValueFault>
    ensures { result ≡ multiple at a.now b.now }
{
    in_range(at, a.mul(b))
}

fn quotient(at: u64, a: &Frac, b: &Frac) -> Result<Frac, ValueFault>
    ensures { result ≡ quotient at a.now b.now }
{
    if b.num() == 0 {
        Err(ValueFault::DivideByZero(at))
    } else {
        in_range(at, a.div(b))
    }
}

fn remainder(at: u64, a: &Frac, b: &Frac) -> Result<Frac, ValueFault>
    ensures { result ≡ remainder at a.now b.now }
{
    if b.num() == 0 {
        Err(ValueFault::DivideByZero(at))
    } else {
        in_range(at, a.rem(b))
    }
}

/// The exponent, where it is one that is allowed.
fn exponent_of(b: &Frac) -> Option<u32>
    ensures { result ≡ exponent_of b.now }
{
    if b.den() == 1 && b.num() >= 0 && b.num() <= 255 {
        Some(b.num() as u32)
    } else {
        None
    }
}

fn raised(at: u64, a: &Frac, n: u32) -> Result<Frac, ValueFault>
    requires { n ≤ 255 }
    ensures { result ≡ in_range at (fraction_of (int_pow a.now.num n) (a.now.den ^ n)) }
{
    in_range(at, a.pow(n))
}
