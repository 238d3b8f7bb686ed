//! The alternatives of the rules of values.

use crate::part::{Part, Rule};
use deck_grammar::{Kind, Sign};

pub const VALUE: [&[Part]; 1] = [&[Part::Rule(Rule::Product), Part::Rule(Rule::Addends)]];

pub const ADDENDS: [&[Part]; 3] = [
    &[],
    &[
        Part::Sign(Sign::Plus),
        Part::Rule(Rule::Product),
        Part::Rule(Rule::Addends),
    ],
    &[
        Part::Sign(Sign::Minus),
        Part::Rule(Rule::Product),
        Part::Rule(Rule::Addends),
    ],
];

pub const PRODUCT: [&[Part]; 1] = [&[Part::Rule(Rule::Power), Part::Rule(Rule::Factors)]];

pub const FACTORS: [&[Part]; 4] = [
    &[],
    &[
        Part::Sign(Sign::Times),
        Part::Rule(Rule::Power),
        Part::Rule(Rule::Factors),
    ],
    &[
        Part::Sign(Sign::Over),
        Part::Rule(Rule::Power),
        Part::Rule(Rule::Factors),
    ],
    &[
        Part::Sign(Sign::Modulo),
        Part::Rule(Rule::Power),
        Part::Rule(Rule::Factors),
    ],
];

pub const POWER: [&[Part]; 1] = [&[Part::Rule(Rule::Atom), Part::Rule(Rule::Exponent)]];

pub const EXPONENT: [&[Part]; 2] = [&[], &[Part::Sign(Sign::Power), Part::Rule(Rule::Atom)]];

pub const ATOM: [&[Part]; 6] = [
    &[Part::Token(Kind::Number)],
    &[Part::Token(Kind::Name)],
    &[
        Part::Sign(Sign::LeftRound),
        Part::Rule(Rule::Value),
        Part::Sign(Sign::RightRound),
    ],
    &[Part::Sign(Sign::Minus), Part::Token(Kind::Number)],
    &[Part::Sign(Sign::Minus), Part::Token(Kind::Name)],
    &[
        Part::Sign(Sign::Minus),
        Part::Sign(Sign::LeftRound),
        Part::Rule(Rule::Value),
        Part::Sign(Sign::RightRound),
    ],
];
