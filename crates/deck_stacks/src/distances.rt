//! The alternatives of the rules of checks of distances. NOTCH and SPACE stand only in EXT with one input, and REGION
//! where no input is bracketed.

use crate::part::{Left, Part, Rule};
use deck_grammar::{Kind, Sign};

// The options that may stand, by the inputs before them.
const PLAIN: Left = Left {
    abut: true,
    singular: true,
    metric: true,
    gap: false,
    region: true,
};

const BRACKETED: Left = Left {
    abut: true,
    singular: true,
    metric: true,
    gap: false,
    region: false,
};

const PLAIN_EXTERNAL: Left = Left {
    abut: true,
    singular: true,
    metric: true,
    gap: true,
    region: true,
};

const BRACKETED_EXTERNAL: Left = Left {
    abut: true,
    singular: true,
    metric: true,
    gap: true,
    region: false,
};

pub const INTERNAL: [&[Part]; 5] = [
    &[
        Part::Token(Kind::Name),
        Part::Rule(Rule::Bound),
        Part::Options(PLAIN),
    ],
    &[
        Part::Sign(Sign::LeftSquare),
        Part::Token(Kind::Name),
        Part::Sign(Sign::RightSquare),
        Part::Rule(Rule::Bound),
        Part::Options(BRACKETED),
    ],
    &[
        Part::Token(Kind::Name),
        Part::Token(Kind::Name),
        Part::Rule(Rule::Bound),
        Part::Options(PLAIN),
    ],
    &[
        Part::Sign(Sign::LeftSquare),
        Part::Token(Kind::Name),
        Part::Sign(Sign::RightSquare),
        Part::Token(Kind::Name),
        Part::Rule(Rule::Bound),
        Part::Options(BRACKETED),
    ],
    &[
        Part::Token(Kind::Name),
        Part::Sign(Sign::LeftSquare),
        Part::Token(Kind::Name),
        Part::Sign(Sign::RightSquare),
        Part::Rule(Rule::Bound),
        Part::Options(BRACKETED),
    ],
];

pub const EXTERNAL: [&[Part]; 5] = [
    &[
        Part::Token(Kind::Name),
        Part::Rule(Rule::Bound),
        Part::Options(PLAIN_EXTERNAL),
    ],
    &[
        Part::Sign(Sign::LeftSquare),
        Part::Token(Kind::Name),
        Part::Sign(Sign::RightSquare),
        Part::Rule(Rule::Bound),
        Part::Options(BRACKETED_EXTERNAL),
    ],
    &[
        Part::Token(Kind::Name),
        Part::Token(Kind::Name),
        Part::Rule(Rule::Bound),
        Part::Options(PLAIN),
    ],
    &[
        Part::Sign(Sign::LeftSquare),
        Part::Token(Kind::Name),
        Part::Sign(Sign::RightSquare),
        Part::Token(Kind::Name),
        Part::Rule(Rule::Bound),
        Part::Options(BRACKETED),
    ],
    &[
        Part::Token(Kind::Name),
        Part::Sign(Sign::LeftSquare),
        Part::Token(Kind::Name),
        Part::Sign(Sign::RightSquare),
        Part::Rule(Rule::Bound),
        Part::Options(BRACKETED),
    ],
];

pub const ENCLOSURE: [&[Part]; 3] = [
    &[
        Part::Token(Kind::Name),
        Part::Token(Kind::Name),
        Part::Rule(Rule::Bound),
        Part::Options(PLAIN),
    ],
    &[
        Part::Sign(Sign::LeftSquare),
        Part::Token(Kind::Name),
        Part::Sign(Sign::RightSquare),
        Part::Token(Kind::Name),
        Part::Rule(Rule::Bound),
        Part::Options(BRACKETED),
    ],
    &[
        Part::Token(Kind::Name),
        Part::Sign(Sign::LeftSquare),
        Part::Token(Kind::Name),
        Part::Sign(Sign::RightSquare),
        Part::Rule(Rule::Bound),
        Part::Options(BRACKETED),
    ],
];
