//! The alternatives of the rules of layers.

use crate::part::{Part, Rule};
use deck_grammar::{Keyword, Kind, Sign};
use deck_tree::DistanceKind;

pub const LAYER: [&[Part]; 1] = [&[Part::Rule(Rule::Primary), Part::Rule(Rule::Operations)]];

pub const OPERATIONS: [&[Part]; 2] = [
    &[],
    &[
        Part::Rule(Rule::InfixOperation),
        Part::Rule(Rule::Primary),
        Part::Rule(Rule::Operations),
    ],
];

pub const INFIX_OPERATION: [&[Part]; 23] = [
    &[Part::Word(Keyword::And)],
    &[Part::Word(Keyword::Or)],
    &[Part::Word(Keyword::Not)],
    &[Part::Word(Keyword::Xor)],
    &[Part::Word(Keyword::Or), Part::Word(Keyword::Edge)],
    &[Part::Word(Keyword::Inside)],
    &[Part::Word(Keyword::Outside)],
    &[Part::Word(Keyword::Interact)],
    &[Part::Word(Keyword::Touch)],
    &[Part::Word(Keyword::Cut)],
    &[Part::Word(Keyword::Enclose)],
    &[Part::Word(Keyword::Not), Part::Word(Keyword::Inside)],
    &[Part::Word(Keyword::Not), Part::Word(Keyword::Outside)],
    &[Part::Word(Keyword::Not), Part::Word(Keyword::Interact)],
    &[Part::Word(Keyword::Not), Part::Word(Keyword::Touch)],
    &[Part::Word(Keyword::Not), Part::Word(Keyword::Cut)],
    &[Part::Word(Keyword::Not), Part::Word(Keyword::Enclose)],
    &[Part::Word(Keyword::Inside), Part::Word(Keyword::Edge)],
    &[Part::Word(Keyword::Outside), Part::Word(Keyword::Edge)],
    &[Part::Word(Keyword::Coincident), Part::Word(Keyword::Edge)],
    &[
        Part::Word(Keyword::Not),
        Part::Word(Keyword::Inside),
        Part::Word(Keyword::Edge),
    ],
    &[
        Part::Word(Keyword::Not),
        Part::Word(Keyword::Outside),
        Part::Word(Keyword::Edge),
    ],
    &[
        Part::Word(Keyword::Not),
        Part::Word(Keyword::Coincident),
        Part::Word(Keyword::Edge),
    ],
];

pub const PRIMARY: [&[Part]; 12] = [
    &[Part::Token(Kind::Name)],
    &[
        Part::Sign(Sign::LeftRound),
        Part::Rule(Rule::Layer),
        Part::Sign(Sign::RightRound),
    ],
    &[Part::Word(Keyword::Copy), Part::Rule(Rule::Term)],
    &[Part::Word(Keyword::Rectangle), Part::Rule(Rule::Term)],
    &[
        Part::Word(Keyword::Area),
        Part::Rule(Rule::Term),
        Part::Rule(Rule::Limits),
    ],
    &[
        Part::Word(Keyword::Length),
        Part::Rule(Rule::Term),
        Part::Rule(Rule::Limits),
    ],
    &[
        Part::Word(Keyword::Size),
        Part::Rule(Rule::Term),
        Part::Word(Keyword::By),
        Part::Rule(Rule::Value),
        Part::Rule(Rule::Turn),
    ],
    &[
        Part::Word(Keyword::Angle),
        Part::Rule(Rule::Term),
        Part::Sign(Sign::EqualTo),
        Part::Rule(Rule::Value),
    ],
    &[
        Part::Word(Keyword::Expand),
        Part::Word(Keyword::Edge),
        Part::Rule(Rule::Term),
        Part::Rule(Rule::Side),
        Part::Word(Keyword::By),
        Part::Rule(Rule::Value),
    ],
    &[
        Part::Word(Keyword::Int),
        Part::Rule(Rule::Distance(DistanceKind::Internal)),
    ],
    &[
        Part::Word(Keyword::Ext),
        Part::Rule(Rule::Distance(DistanceKind::External)),
    ],
    &[
        Part::Word(Keyword::Enc),
        Part::Rule(Rule::Distance(DistanceKind::Enclosure)),
    ],
];

pub const TERM: [&[Part]; 2] = [
    &[Part::Token(Kind::Name)],
    &[
        Part::Sign(Sign::LeftRound),
        Part::Rule(Rule::Layer),
        Part::Sign(Sign::RightRound),
    ],
];

pub const LIMITS: [&[Part]; 6] = [
    &[Part::Sign(Sign::Less), Part::Rule(Rule::Value)],
    &[Part::Sign(Sign::LessOrEqual), Part::Rule(Rule::Value)],
    &[Part::Sign(Sign::EqualTo), Part::Rule(Rule::Value)],
    &[Part::Sign(Sign::NotEqual), Part::Rule(Rule::Value)],
    &[
        Part::Sign(Sign::Greater),
        Part::Rule(Rule::Value),
        Part::Rule(Rule::Upper),
    ],
    &[
        Part::Sign(Sign::GreaterOrEqual),
        Part::Rule(Rule::Value),
        Part::Rule(Rule::Upper),
    ],
];

pub const UPPER: [&[Part]; 3] = [
    &[],
    &[Part::Sign(Sign::Less), Part::Rule(Rule::Value)],
    &[Part::Sign(Sign::LessOrEqual), Part::Rule(Rule::Value)],
];

pub const BOUND: [&[Part]; 2] = [
    &[Part::Sign(Sign::Less), Part::Rule(Rule::Value)],
    &[Part::Sign(Sign::LessOrEqual), Part::Rule(Rule::Value)],
];

pub const TURN: [&[Part]; 3] = [
    &[],
    &[Part::Word(Keyword::OverUnder)],
    &[Part::Word(Keyword::UnderOver)],
];

pub const SIDE: [&[Part]; 2] = [
    &[Part::Word(Keyword::Inside)],
    &[Part::Word(Keyword::Outside)],
];
