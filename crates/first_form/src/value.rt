//! Values that are one number and nothing else.

ghost use Rattle.std.specs.Prelude.{◌≡◌};
ghost use Rattle.first_form.specs.Working.Values.{decimal_in, lone_atom, lone_power, lone_product, lone_value};
ghost use Rattle.first_form.specs.Working.Views.{Gives};

use deck_tree::{Atom, Number, Power, Product, Value};

/// The number, where the value is one with no minus before it.
pub fn lone_value(value: &Value) -> Option<&Number>
    ensures { Gives (λ n. decimal_in n.now) result (lone_value value.now) }
{
    match value.more.as_slice() {
        [] => lone_product(&value.first),
        _ => None,
    }
}

fn lone_product(product: &Product) -> Option<&Number>
    ensures { Gives (λ n. decimal_in n.now) result (lone_product product.now) }
{
    match product.more.as_slice() {
        [] => lone_power(&product.first),
        _ => None,
    }
}

fn lone_power(power: &Power) -> Option<&Number>
    ensures { Gives (λ n. decimal_in n.now) result (lone_power power.now) }
{
    match &power.exponent {
        None => lone_atom(&power.base),
        Some(_) => None,
    }
}

fn lone_atom(atom: &Atom) -> Option<&Number>
    ensures { Gives (λ n. decimal_in n.now) result (lone_atom atom.now) }
{
    match atom {
        Atom::Number(None, number) => Some(number),
        Atom::Number(Some(_), _) => None,
        Atom::Name(_, _) => None,
        Atom::Bracketed(_, _, _) => None,
    }
}
