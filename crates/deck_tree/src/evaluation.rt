//! What values come to.

ghost use Rattle.std.specs.Prelude.{◌≡◌};
ghost use Rattle.deck_tree.specs.KnownNames.{names_of};
ghost use Rattle.deck_tree.specs.Worths.{number_worth, name_worth, by_add_sign, by_product_sign, power, first_of_two, is_before, atom_worth, power_worth, product_worth, value_worth, answer};
ghost use Rattle.deck_tree.specs.Working.Answers.{told, both, parts, behind_minus};

use crate::arithmetic::{by_add_sign, by_product_sign, in_range, negative, power};
use crate::spelled::number_value;
use crate::{AddSign, Atom, NameAt, Number, Power, Product, ProductSign, Value, ValueFault, Vars};
use drc_num::Frac;

/// A number, or the first fault, if there is one.
type Answer = Result<Frac, Option<ValueFault>>;

/// The exact number to which the value comes. Where it has faults, the answer is the first of them: the one of least
/// offset, and at one offset that whose kind has the least number. A value without faults that rests on a variable which
/// comes to nothing comes to nothing itself, which is `Err(None)`. It takes no memory.
pub fn evaluate(value: &Value, vars: &Vars) -> Result<Frac, Option<ValueFault>>
    ensures { result ≡ answer (value_worth (names_of vars.now) value.now) }
{
    value_answer(value, vars)
}

#[cycle(values)]
fn value_answer(value: &Value, vars: &Vars) -> Answer
    ensures { result ≡ answer (value_worth (names_of vars.now) value.now) }
{
    let mut left = product_answer(&value.first, vars);
    for addend in value.more.as_slice() {
        let right = product_answer(&addend.product, vars);
        left = added(addend.sign, addend.at, left, right);
    }
    left
}

#[cycle(values)]
fn product_answer(product: &Product, vars: &Vars) -> Answer
    ensures { result ≡ answer (product_worth (names_of vars.now) product.now) }
{
    let mut left = power_answer(&product.first, vars);
    for factor in product.more.as_slice() {
        let right = power_answer(&factor.power, vars);
        left = multiplied(factor.sign, factor.at, left, right);
    }
    left
}

#[cycle(values)]
fn power_answer(power: &Power, vars: &Vars) -> Answer
    ensures { result ≡ answer (power_worth (names_of vars.now) power.now) }
{
    let base = atom_answer(&power.base, vars);
    match &power.exponent {
        None => base,
        Some(exponent) => {
            let right = atom_answer(&exponent.get().atom, vars);
            raised(exponent.get().at, base, right)
        }
    }
}

#[cycle(values)]
fn atom_answer(atom: &Atom, vars: &Vars) -> Answer
    ensures { result ≡ answer (atom_worth (names_of vars.now) atom.now) }
{
    match atom {
        Atom::Number(minus, number) => behind_minus(*minus, number_answer(number)),
        Atom::Name(minus, name) => behind_minus(*minus, name_answer(name, vars)),
        Atom::Bracketed(minus, _, value) => behind_minus(*minus, value_answer(value.get(), vars)),
    }
}

fn number_answer(number: &Number) -> Answer
    ensures { result ≡ answer (number_worth number.now) }
{
    told(in_range(number.at, number_value(number)))
}

fn name_answer(name: &NameAt, vars: &Vars) -> Answer
    ensures { result ≡ answer (name_worth name.now.at (names_of vars.now name.now.name)) }
{
    match vars.find(name.name.bytes()) {
        None => Err(Some(ValueFault::UndefinedName(name.at))),
        Some(None) => Err(None),
        Some(Some(number)) => Ok(number),
    }
}

fn behind_minus(minus: Option<u64>, part: Answer) -> Answer
    ensures { result ≡ behind_minus minus part }
{
    match (minus, part) {
        (None, part) => part,
        (Some(at), Ok(number)) => told(negative(at, &number)),
        (Some(_), Err(fault)) => Err(fault),
    }
}

fn added(sign: AddSign, at: u64, left: Answer, right: Answer) -> Answer
    ensures { result ≡ both (by_add_sign sign at) left right }
{
    let (a, b) = parts(left, right)?;
    told(by_add_sign(sign, at, &a, &b))
}

fn multiplied(sign: ProductSign, at: u64, left: Answer, right: Answer) -> Answer
    ensures { result ≡ both (by_product_sign sign at) left right }
{
    let (a, b) = parts(left, right)?;
    told(by_product_sign(sign, at, &a, &b))
}

fn raised(at: u64, left: Answer, right: Answer) -> Answer
    ensures { result ≡ both (power at) left right }
{
    let (a, b) = parts(left, right)?;
    told(power(at, &a, &b))
}

/// Both numbers, or the first fault of either side.
fn parts(left: Answer, right: Answer) -> Result<(Frac, Frac), Option<ValueFault>>
    ensures { result ≡ parts left right }
{
    match (left, right) {
        (Ok(a), Ok(b)) => Ok((a, b)),
        (Ok(_), Err(fault)) => Err(fault),
        (Err(fault), Ok(_)) => Err(fault),
        (Err(fault), Err(other)) => Err(first_of_two(fault, other)),
    }
}

fn told(answer: Result<Frac, ValueFault>) -> Answer
    ensures { result ≡ told answer }
{
    match answer {
        Ok(number) => Ok(number),
        Err(fault) => Err(Some(fault)),
    }
}

fn first_of_two(fault: Option<ValueFault>, other: Option<ValueFault>) -> Option<ValueFault>
    ensures { result ≡ first_of_two fault other }
{
    match (fault, other) {
        (None, other) => other,
        (Some(fault), None) => Some(fault),
        (Some(fault), Some(other)) => Some(if is_before(other, fault) {
            other
        } else {
            fault
        }),
    }
}

fn is_before(fault: ValueFault, other: ValueFault) -> bool
    ensures { result ≡ is_before fault other }
{
    fault.at() < other.at()
        || (fault.at() == other.at() && fault.kind().number() < other.kind().number())
}
