//! The alternatives of the rules of statements.

use crate::part::{Part, Rule};
use deck_grammar::{Keyword, Kind, Sign};

pub const STATEMENTS: [&[Part]; 2] = [
    &[],
    &[Part::Rule(Rule::Statement), Part::Rule(Rule::Statements)],
];

pub const STATEMENT: [&[Part]; 16] = [
    &[
        Part::Word(Keyword::Layout),
        Part::Word(Keyword::System),
        Part::Word(Keyword::Gdsii),
    ],
    &[
        Part::Word(Keyword::Layout),
        Part::Word(Keyword::Path),
        Part::Rule(Rule::File),
    ],
    &[
        Part::Word(Keyword::Layout),
        Part::Word(Keyword::Primary),
        Part::Rule(Rule::File),
    ],
    &[
        Part::Word(Keyword::Drc),
        Part::Word(Keyword::Results),
        Part::Word(Keyword::Database),
        Part::Rule(Rule::File),
        Part::Rule(Rule::Ascii),
    ],
    &[
        Part::Word(Keyword::Drc),
        Part::Word(Keyword::Summary),
        Part::Word(Keyword::Report),
        Part::Rule(Rule::File),
        Part::Rule(Rule::Mode),
    ],
    &[
        Part::Word(Keyword::Drc),
        Part::Word(Keyword::Maximum),
        Part::Word(Keyword::Results),
        Part::Rule(Rule::Value),
    ],
    &[
        Part::Word(Keyword::Drc),
        Part::Word(Keyword::Maximum),
        Part::Word(Keyword::Results),
        Part::Word(Keyword::All),
    ],
    &[
        Part::Word(Keyword::Drc),
        Part::Word(Keyword::Select),
        Part::Word(Keyword::Check),
        Part::Token(Kind::Name),
        Part::Rule(Rule::Names),
    ],
    &[
        Part::Word(Keyword::Drc),
        Part::Word(Keyword::Unselect),
        Part::Word(Keyword::Check),
        Part::Token(Kind::Name),
        Part::Rule(Rule::Names),
    ],
    &[Part::Word(Keyword::Precision), Part::Rule(Rule::Value)],
    &[Part::Word(Keyword::Title), Part::Rule(Rule::File)],
    &[
        Part::Word(Keyword::Variable),
        Part::Token(Kind::Name),
        Part::Rule(Rule::Value),
    ],
    &[
        Part::Word(Keyword::Layer),
        Part::Token(Kind::Name),
        Part::Token(Kind::Number),
        Part::Rule(Rule::Numbers),
    ],
    &[
        Part::Word(Keyword::Layer),
        Part::Word(Keyword::Map),
        Part::Token(Kind::Number),
        Part::Rule(Rule::MapKind),
        Part::Token(Kind::Number),
        Part::Token(Kind::Number),
    ],
    &[
        Part::Token(Kind::Name),
        Part::Sign(Sign::Equals),
        Part::Rule(Rule::Layer),
    ],
    &[
        Part::Token(Kind::Name),
        Part::Sign(Sign::LeftBrace),
        Part::Rule(Rule::Items),
        Part::Sign(Sign::RightBrace),
    ],
];

pub const FILE: [&[Part]; 2] = [&[Part::Token(Kind::Text)], &[Part::Token(Kind::Name)]];

pub const NAMES: [&[Part]; 2] = [&[], &[Part::Token(Kind::Name), Part::Rule(Rule::Names)]];

pub const NUMBERS: [&[Part]; 2] = [&[], &[Part::Token(Kind::Number), Part::Rule(Rule::Numbers)]];

pub const ASCII: [&[Part]; 2] = [&[], &[Part::Word(Keyword::Ascii)]];

pub const MODE: [&[Part]; 3] = [
    &[],
    &[Part::Word(Keyword::Replace)],
    &[Part::Word(Keyword::Append)],
];

pub const MAP_KIND: [&[Part]; 2] = [
    &[Part::Word(Keyword::DataType)],
    &[Part::Word(Keyword::TextType)],
];

pub const ITEMS: [&[Part]; 4] = [
    &[],
    &[Part::Token(Kind::Note), Part::Rule(Rule::Items)],
    &[
        Part::Token(Kind::Name),
        Part::Sign(Sign::Equals),
        Part::Rule(Rule::Layer),
        Part::Rule(Rule::Items),
    ],
    &[Part::Rule(Rule::Layer), Part::Rule(Rule::Items)],
];
