//! Layers that are the sides of one layer shorter than a bound.

ghost use Rattle.std.specs.Prelude.{◌≡◌};
ghost use Rattle.first_form.specs.Working.Values.{decimal_in};
ghost use Rattle.first_form.specs.Working.Layers.{less_in, bound_in, joined, term_name, prefix_line, primary_line, layer_line};
ghost use Rattle.first_form.specs.Working.Views.{Gives, line_of};

use crate::value::lone_value;
use deck_tree::{Below, Bound, Layer, Limits, Number, Prefix, Primary, Term};

/// `LENGTH input < bound`.
#[derive(Drop)]
pub struct LengthOf<'d> {
    pub input: &'d [u8],
    pub bound: &'d Number,
}

/// The input and the bound, where the layer is of this form and has no more operations.
pub fn layer_line(layer: &Layer) -> Option<LengthOf<'_>>
    ensures { Gives line_of result (layer_line layer.now) }
{
    match layer.more.as_slice() {
        [] => primary_line(&layer.first),
        _ => None,
    }
}

fn primary_line(primary: &Primary) -> Option<LengthOf<'_>>
    ensures { Gives line_of result (primary_line primary.now) }
{
    match primary {
        Primary::Term(_) => None,
        Primary::Prefix(_, prefix) => prefix_line(prefix.get()),
        Primary::Distance(_, _) => None,
    }
}

fn prefix_line(prefix: &Prefix) -> Option<LengthOf<'_>>
    ensures { Gives line_of result (prefix_line prefix.now) }
{
    match prefix {
        Prefix::Length(term, limits) => line_of(term, limits),
        _ => None,
    }
}

fn line_of<'d>(term: &'d Term, limits: &'d Limits) -> Option<LengthOf<'d>>
    ensures { Gives line_of result (joined (term_name term.entry.now) (bound_in limits.entry.now)) }
{
    let input = term_name(term)?;
    let bound = bound_in(limits)?;
    Some(LengthOf { input, bound })
}

fn term_name(term: &Term) -> Option<&[u8]>
    ensures { Gives (λ n. n.now) result (term_name term.now) }
{
    match term {
        Term::Name(name) => Some(name.name.bytes()),
        Term::Bracketed(_, _) => None,
    }
}

fn bound_in(limits: &Limits) -> Option<&Number>
    ensures { Gives (λ n. decimal_in n.now) result (bound_in limits.now) }
{
    match limits {
        Limits::Below(bound) => less_in(bound),
        Limits::Equal(_) => None,
        Limits::NotEqual(_) => None,
        Limits::Above(_, _, _) => None,
    }
}

fn less_in(bound: &Bound) -> Option<&Number>
    ensures { Gives (λ n. decimal_in n.now) result (less_in bound.now.sign bound.now.value) }
{
    match bound.sign {
        Below::Less => lone_value(&bound.value),
        Below::LessOrEqual => None,
    }
}
