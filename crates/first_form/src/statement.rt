//! The statements of a deck of the first form.

ghost use Rattle.std.specs.Prelude.{◌≡◌};
ghost use Rattle.first_form.specs.Working.Parts.{head_in, lone_number, layer_in, items_in, check_in, two_behind, parts_in};
ghost use Rattle.first_form.specs.Working.Views.{Gives, head_of, layer_of, line_of, check_of, parts_of};

use crate::digits::layer_number;
use crate::layer::{LengthOf, layer_line};
use deck_tree::{Item, Number, Statement};

/// The statements above those of the layers.
#[derive(Drop)]
pub struct Preamble<'d> {
    pub layout: &'d [u8],
    pub primary: &'d [u8],
    pub results: &'d [u8],
}

/// A layer's name, and its number in the layout.
#[derive(Drop)]
pub struct NumberedLayer<'d> {
    pub name: &'d [u8],
    pub number: u16,
}

/// The check.
#[derive(Drop)]
pub struct Rule<'d> {
    pub name: &'d [u8],
    pub note: &'d [u8],
    pub input: &'d [u8],
    pub bound: &'d Number,
}

/// What all statements say.
#[derive(Drop)]
pub struct DeckParts<'d> {
    pub preamble: Preamble<'d>,
    pub first: NumberedLayer<'d>,
    pub second: Option<NumberedLayer<'d>>,
    pub rule: Rule<'d>,
}

#[tactic(auto, unfolding(crate::specs::Working::Parts::head_in))]
fn preamble_of<'d>(
    system: &'d Statement,
    path: &'d Statement,
    top: &'d Statement,
    database: &'d Statement,
) -> Option<Preamble<'d>>
    ensures { Gives head_of result (head_in system.entry.now path.entry.now top.entry.now database.entry.now) }
{
    match (system, path, top, database) {
        (
            Statement::LayoutSystem(_),
            Statement::LayoutPath(_, layout),
            Statement::LayoutPrimary(_, primary),
            Statement::ResultsDatabase(_, results),
        ) => Some(Preamble {
            layout: layout.name.bytes(),
            primary: primary.name.bytes(),
            results: results.name.bytes(),
        }),
        _ => None,
    }
}

fn lone_number(numbers: &[Number]) -> Option<u16>
    ensures { Gives (λ n. n) result (lone_number numbers.now) }
{
    match numbers {
        [number] => layer_number(number),
        _ => None,
    }
}

#[tactic(auto, unfolding(crate::specs::Working::Parts::layer_in))]
fn layer_of(statement: &Statement) -> Option<NumberedLayer<'_>>
    ensures { Gives layer_of result (layer_in statement.now) }
{
    match statement {
        Statement::Layer(_, name, numbers) => {
            let number = lone_number(numbers.as_slice())?;
            Some(NumberedLayer {
                name: name.name.bytes(),
                number,
            })
        }
        _ => None,
    }
}

#[tactic(auto, unfolding(crate::specs::Working::Parts::items_in))]
fn items_of(items: &[Item]) -> Option<(&[u8], LengthOf<'_>)>
    ensures { Gives (λ x. (x.0.now, line_of x.1)) result (items_in items.now) }
{
    match items {
        [Item::Note(note), Item::Output(layer)] => {
            let line = layer_line(layer.get())?;
            Some((note.bytes(), line))
        }
        _ => None,
    }
}

#[tactic(auto, unfolding(crate::specs::Working::Parts::check_in))]
fn rule_of(statement: &Statement) -> Option<Rule<'_>>
    ensures { Gives check_of result (check_in statement.now) }
{
    match statement {
        Statement::Check(name, items) => {
            let (note, line) = items_of(items.as_slice())?;
            Some(Rule {
                name: name.name.bytes(),
                note,
                input: line.input,
                bound: line.bound,
            })
        }
        _ => None,
    }
}

fn two_behind<'d>(
    preamble: Preamble<'d>,
    layer: &'d Statement,
    other: &'d Statement,
    check: &'d Statement,
) -> Option<DeckParts<'d>>
    ensures { Gives parts_of result (two_behind (head_of preamble.entry) layer.entry.now other.entry.now check.entry.now) }
{
    let first = layer_of(layer)?;
    let second = layer_of(other)?;
    let rule = rule_of(check)?;
    Some(DeckParts {
        preamble,
        first,
        second: Some(second),
        rule,
    })
}

/// What the statements say, where they are those of a deck of the first form.
#[tactic(auto, unfolding(crate::specs::Working::Parts::parts_in, crate::specs::Working::Parts::one_layer, crate::specs::Working::Parts::two_layers))]
pub fn parts_of(statements: &[Statement]) -> Option<DeckParts<'_>>
    ensures { Gives parts_of result (parts_in statements.now) }
{
    match statements {
        [system, path, top, database, layer, check] => Some(DeckParts {
            preamble: preamble_of(system, path, top, database)?,
            first: layer_of(layer)?,
            second: None,
            rule: rule_of(check)?,
        }),
        [system, path, top, database, layer, other, check] => {
            let preamble = preamble_of(system, path, top, database)?;
            two_behind(preamble, layer, other, check)
        }
        _ => None,
    }
}
