//! Kinds of tokens, numbered.

ghost use Rattle.std.specs.Prelude.{◌≡◌, ◌↔◌, IsTrue};
ghost use Rattle.deck_grammar.specs.Working.Numbers.{number, same_kind};

use crate::{Keyword, Kind, Sign};

fn number(kind: Kind) -> u8
    ensures { result ≡ number kind }
{
    match kind {
        Kind::Keyword(Keyword::Abut) => 0,
        Kind::Keyword(Keyword::All) => 1,
        Kind::Keyword(Keyword::And) => 2,
        Kind::Keyword(Keyword::Angle) => 3,
        Kind::Keyword(Keyword::Append) => 4,
        Kind::Keyword(Keyword::Area) => 5,
        Kind::Keyword(Keyword::Ascii) => 6,
        Kind::Keyword(Keyword::By) => 7,
        Kind::Keyword(Keyword::Check) => 8,
        Kind::Keyword(Keyword::Coincident) => 9,
        Kind::Keyword(Keyword::Copy) => 10,
        Kind::Keyword(Keyword::Cut) => 11,
        Kind::Keyword(Keyword::Database) => 12,
        Kind::Keyword(Keyword::DataType) => 13,
        Kind::Keyword(Keyword::Drc) => 14,
        Kind::Keyword(Keyword::Edge) => 15,
        Kind::Keyword(Keyword::Enc) => 16,
        Kind::Keyword(Keyword::Enclose) => 17,
        Kind::Keyword(Keyword::Expand) => 18,
        Kind::Keyword(Keyword::Ext) => 19,
        Kind::Keyword(Keyword::Gdsii) => 20,
        Kind::Keyword(Keyword::Inside) => 21,
        Kind::Keyword(Keyword::Int) => 22,
        Kind::Keyword(Keyword::Interact) => 23,
        Kind::Keyword(Keyword::Layer) => 24,
        Kind::Keyword(Keyword::Layout) => 25,
        Kind::Keyword(Keyword::Length) => 26,
        Kind::Keyword(Keyword::Map) => 27,
        Kind::Keyword(Keyword::Maximum) => 28,
        Kind::Keyword(Keyword::Not) => 29,
        Kind::Keyword(Keyword::Notch) => 30,
        Kind::Keyword(Keyword::Opposite) => 31,
        Kind::Keyword(Keyword::Or) => 32,
        Kind::Keyword(Keyword::Outside) => 33,
        Kind::Keyword(Keyword::OverUnder) => 34,
        Kind::Keyword(Keyword::Path) => 35,
        Kind::Keyword(Keyword::Precision) => 36,
        Kind::Keyword(Keyword::Primary) => 37,
        Kind::Keyword(Keyword::Rectangle) => 38,
        Kind::Keyword(Keyword::Region) => 39,
        Kind::Keyword(Keyword::Replace) => 40,
        Kind::Keyword(Keyword::Report) => 41,
        Kind::Keyword(Keyword::Results) => 42,
        Kind::Keyword(Keyword::Select) => 43,
        Kind::Keyword(Keyword::Singular) => 44,
        Kind::Keyword(Keyword::Size) => 45,
        Kind::Keyword(Keyword::Space) => 46,
        Kind::Keyword(Keyword::Square) => 47,
        Kind::Keyword(Keyword::Summary) => 48,
        Kind::Keyword(Keyword::System) => 49,
        Kind::Keyword(Keyword::TextType) => 50,
        Kind::Keyword(Keyword::Title) => 51,
        Kind::Keyword(Keyword::Touch) => 52,
        Kind::Keyword(Keyword::UnderOver) => 53,
        Kind::Keyword(Keyword::Unselect) => 54,
        Kind::Keyword(Keyword::Variable) => 55,
        Kind::Keyword(Keyword::Xor) => 56,
        Kind::SetAside => 57,
        Kind::Name => 58,
        Kind::Number => 59,
        Kind::Text => 60,
        Kind::Note => 61,
        Kind::Sign(Sign::LeftBrace) => 62,
        Kind::Sign(Sign::RightBrace) => 63,
        Kind::Sign(Sign::LeftRound) => 64,
        Kind::Sign(Sign::RightRound) => 65,
        Kind::Sign(Sign::LeftSquare) => 66,
        Kind::Sign(Sign::RightSquare) => 67,
        Kind::Sign(Sign::Equals) => 68,
        Kind::Sign(Sign::EqualTo) => 69,
        Kind::Sign(Sign::Less) => 70,
        Kind::Sign(Sign::LessOrEqual) => 71,
        Kind::Sign(Sign::Greater) => 72,
        Kind::Sign(Sign::GreaterOrEqual) => 73,
        Kind::Sign(Sign::NotEqual) => 74,
        Kind::Sign(Sign::Plus) => 75,
        Kind::Sign(Sign::Minus) => 76,
        Kind::Sign(Sign::Times) => 77,
        Kind::Sign(Sign::Over) => 78,
        Kind::Sign(Sign::Modulo) => 79,
        Kind::Sign(Sign::Power) => 80,
    }
}

/// Whether two kinds are one.
pub fn is_same(a: Kind, b: Kind) -> bool
    ensures { IsTrue result ↔ (a ≡ b) }
{
    number(a) == number(b)
}
