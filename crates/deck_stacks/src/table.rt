//! The alternatives of each rule.

ghost use Rattle.std.specs.Prelude.{◌≡◌, map};
ghost use Rattle.deck_stacks.specs.Working.Tables.{parts_of};
ghost use Rattle.deck_grammar.specs.Rules as r;
ghost use Rattle.deck_stacks.specs.Parts.{rule_of, part_of};

use crate::part::{Part, Rule};
use crate::{distances, layers, statements, values};
use deck_tree::DistanceKind;

fn distance_alternatives(kind: DistanceKind) -> &'static [&'static [Part]]
    ensures { map (λ it. map part_of it.now) result.now ≡ parts_of (r.distance kind) }
{
    match kind {
        DistanceKind::Internal => &distances::INTERNAL,
        DistanceKind::External => &distances::EXTERNAL,
        DistanceKind::Enclosure => &distances::ENCLOSURE,
    }
}

/// The parts of each alternative of a rule.
pub fn alternatives(rule: Rule) -> &'static [&'static [Part]]
    ensures { map (λ it. map part_of it.now) result.now ≡ parts_of (rule_of rule) }
{
    match rule {
        Rule::Statements => &statements::STATEMENTS,
        Rule::Statement => &statements::STATEMENT,
        Rule::File => &statements::FILE,
        Rule::Names => &statements::NAMES,
        Rule::Numbers => &statements::NUMBERS,
        Rule::Ascii => &statements::ASCII,
        Rule::Mode => &statements::MODE,
        Rule::MapKind => &statements::MAP_KIND,
        Rule::Items => &statements::ITEMS,
        Rule::Value => &values::VALUE,
        Rule::Addends => &values::ADDENDS,
        Rule::Product => &values::PRODUCT,
        Rule::Factors => &values::FACTORS,
        Rule::Power => &values::POWER,
        Rule::Exponent => &values::EXPONENT,
        Rule::Atom => &values::ATOM,
        Rule::Layer => &layers::LAYER,
        Rule::Operations => &layers::OPERATIONS,
        Rule::InfixOperation => &layers::INFIX_OPERATION,
        Rule::Primary => &layers::PRIMARY,
        Rule::Term => &layers::TERM,
        Rule::Limits => &layers::LIMITS,
        Rule::Upper => &layers::UPPER,
        Rule::Bound => &layers::BOUND,
        Rule::Turn => &layers::TURN,
        Rule::Side => &layers::SIDE,
        Rule::Distance(kind) => distance_alternatives(kind),
    }
}
