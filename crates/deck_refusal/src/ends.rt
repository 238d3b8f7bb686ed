//! What tokens end in where an input, a bound or a number of LAYER MAP may start. Each is read from its end.

ghost use Rattle.std.specs.Prelude.{◌≡◌};
ghost use Rattle.deck_refusal.specs.Working.Recent.{begins_with_one};
ghost use Rattle.deck_refusal.specs.Working.Ends.{input_ends, bound_ends, map_ends};

use crate::recent::begins_with_one;
use deck_grammar::{Keyword, Kind, Sign};

// A word of a check; or one and a first input.
const INPUT_ENDS: [&[Kind]; 9] = [
    &[Kind::Keyword(Keyword::Int)],
    &[Kind::Keyword(Keyword::Ext)],
    &[Kind::Keyword(Keyword::Enc)],
    &[Kind::Name, Kind::Keyword(Keyword::Int)],
    &[
        Kind::Sign(Sign::RightSquare),
        Kind::Name,
        Kind::Sign(Sign::LeftSquare),
        Kind::Keyword(Keyword::Int),
    ],
    &[Kind::Name, Kind::Keyword(Keyword::Ext)],
    &[
        Kind::Sign(Sign::RightSquare),
        Kind::Name,
        Kind::Sign(Sign::LeftSquare),
        Kind::Keyword(Keyword::Ext),
    ],
    &[Kind::Name, Kind::Keyword(Keyword::Enc)],
    &[
        Kind::Sign(Sign::RightSquare),
        Kind::Name,
        Kind::Sign(Sign::LeftSquare),
        Kind::Keyword(Keyword::Enc),
    ],
];

// A check of one input or of two; or ABUT.
const BOUND_ENDS: [&[Kind]; 17] = [
    &[Kind::Name, Kind::Keyword(Keyword::Int)],
    &[
        Kind::Sign(Sign::RightSquare),
        Kind::Name,
        Kind::Sign(Sign::LeftSquare),
        Kind::Keyword(Keyword::Int),
    ],
    &[Kind::Name, Kind::Keyword(Keyword::Ext)],
    &[
        Kind::Sign(Sign::RightSquare),
        Kind::Name,
        Kind::Sign(Sign::LeftSquare),
        Kind::Keyword(Keyword::Ext),
    ],
    &[Kind::Name, Kind::Name, Kind::Keyword(Keyword::Int)],
    &[
        Kind::Sign(Sign::RightSquare),
        Kind::Name,
        Kind::Sign(Sign::LeftSquare),
        Kind::Name,
        Kind::Keyword(Keyword::Int),
    ],
    &[
        Kind::Name,
        Kind::Sign(Sign::RightSquare),
        Kind::Name,
        Kind::Sign(Sign::LeftSquare),
        Kind::Keyword(Keyword::Int),
    ],
    &[
        Kind::Sign(Sign::RightSquare),
        Kind::Name,
        Kind::Sign(Sign::LeftSquare),
        Kind::Sign(Sign::RightSquare),
        Kind::Name,
        Kind::Sign(Sign::LeftSquare),
        Kind::Keyword(Keyword::Int),
    ],
    &[Kind::Name, Kind::Name, Kind::Keyword(Keyword::Ext)],
    &[
        Kind::Sign(Sign::RightSquare),
        Kind::Name,
        Kind::Sign(Sign::LeftSquare),
        Kind::Name,
        Kind::Keyword(Keyword::Ext),
    ],
    &[
        Kind::Name,
        Kind::Sign(Sign::RightSquare),
        Kind::Name,
        Kind::Sign(Sign::LeftSquare),
        Kind::Keyword(Keyword::Ext),
    ],
    &[
        Kind::Sign(Sign::RightSquare),
        Kind::Name,
        Kind::Sign(Sign::LeftSquare),
        Kind::Sign(Sign::RightSquare),
        Kind::Name,
        Kind::Sign(Sign::LeftSquare),
        Kind::Keyword(Keyword::Ext),
    ],
    &[Kind::Name, Kind::Name, Kind::Keyword(Keyword::Enc)],
    &[
        Kind::Sign(Sign::RightSquare),
        Kind::Name,
        Kind::Sign(Sign::LeftSquare),
        Kind::Name,
        Kind::Keyword(Keyword::Enc),
    ],
    &[
        Kind::Name,
        Kind::Sign(Sign::RightSquare),
        Kind::Name,
        Kind::Sign(Sign::LeftSquare),
        Kind::Keyword(Keyword::Enc),
    ],
    &[
        Kind::Sign(Sign::RightSquare),
        Kind::Name,
        Kind::Sign(Sign::LeftSquare),
        Kind::Sign(Sign::RightSquare),
        Kind::Name,
        Kind::Sign(Sign::LeftSquare),
        Kind::Keyword(Keyword::Enc),
    ],
    &[Kind::Keyword(Keyword::Abut)],
];

// LAYER MAP; with a number and DATATYPE or TEXTTYPE; with one number more.
const MAP_ENDS: [&[Kind]; 5] = [
    &[Kind::Keyword(Keyword::Map), Kind::Keyword(Keyword::Layer)],
    &[
        Kind::Keyword(Keyword::DataType),
        Kind::Number,
        Kind::Keyword(Keyword::Map),
        Kind::Keyword(Keyword::Layer),
    ],
    &[
        Kind::Keyword(Keyword::TextType),
        Kind::Number,
        Kind::Keyword(Keyword::Map),
        Kind::Keyword(Keyword::Layer),
    ],
    &[
        Kind::Number,
        Kind::Keyword(Keyword::DataType),
        Kind::Number,
        Kind::Keyword(Keyword::Map),
        Kind::Keyword(Keyword::Layer),
    ],
    &[
        Kind::Number,
        Kind::Keyword(Keyword::TextType),
        Kind::Number,
        Kind::Keyword(Keyword::Map),
        Kind::Keyword(Keyword::Layer),
    ],
];

/// Whether the first or the second input of a check may start behind tokens of these kinds, the last first.
pub fn awaits_input(recent: &[Kind]) -> bool
    ensures { result ≡ begins_with_one input_ends recent.now }
{
    begins_with_one(recent, &INPUT_ENDS)
}

/// Whether the bound of a check or of ABUT may start behind tokens of these kinds, the last first.
pub fn awaits_bound(recent: &[Kind]) -> bool
    ensures { result ≡ begins_with_one bound_ends recent.now }
{
    begins_with_one(recent, &BOUND_ENDS)
}

/// Whether a number of LAYER MAP may start behind tokens of these kinds, the last first.
pub fn awaits_map_number(recent: &[Kind]) -> bool
    ensures { result ≡ begins_with_one map_ends recent.now }
{
    begins_with_one(recent, &MAP_ENDS)
}
