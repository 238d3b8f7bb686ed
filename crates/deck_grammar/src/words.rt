//! What a word and a sign are to the grammar.

ghost use Rattle.std.specs.Prelude.{◌≡◌, map};
ghost use Rattle.std.specs.Str.{str_eq_ignore_ascii_case};
ghost use Rattle.deck_grammar.specs.Words.{lookup, begins_with_hash, word_kind, sign_kind};

use crate::{Keyword, Kind, Sign};

/// The words of the language, and what each is: the keywords of the grammar, and then those that are set aside.
pub const WORDS: [(&[u8], Kind); 107] = [
    (b"ABUT", Kind::Keyword(Keyword::Abut)),
    (b"ALL", Kind::Keyword(Keyword::All)),
    (b"AND", Kind::Keyword(Keyword::And)),
    (b"ANGLE", Kind::Keyword(Keyword::Angle)),
    (b"APPEND", Kind::Keyword(Keyword::Append)),
    (b"AREA", Kind::Keyword(Keyword::Area)),
    (b"ASCII", Kind::Keyword(Keyword::Ascii)),
    (b"BY", Kind::Keyword(Keyword::By)),
    (b"CHECK", Kind::Keyword(Keyword::Check)),
    (b"COINCIDENT", Kind::Keyword(Keyword::Coincident)),
    (b"COPY", Kind::Keyword(Keyword::Copy)),
    (b"CUT", Kind::Keyword(Keyword::Cut)),
    (b"DATABASE", Kind::Keyword(Keyword::Database)),
    (b"DATATYPE", Kind::Keyword(Keyword::DataType)),
    (b"DRC", Kind::Keyword(Keyword::Drc)),
    (b"EDGE", Kind::Keyword(Keyword::Edge)),
    (b"ENC", Kind::Keyword(Keyword::Enc)),
    (b"ENCLOSE", Kind::Keyword(Keyword::Enclose)),
    (b"ENCLOSURE", Kind::Keyword(Keyword::Enc)),
    (b"EXPAND", Kind::Keyword(Keyword::Expand)),
    (b"EXT", Kind::Keyword(Keyword::Ext)),
    (b"EXTERNAL", Kind::Keyword(Keyword::Ext)),
    (b"GDSII", Kind::Keyword(Keyword::Gdsii)),
    (b"INSIDE", Kind::Keyword(Keyword::Inside)),
    (b"INT", Kind::Keyword(Keyword::Int)),
    (b"INTERACT", Kind::Keyword(Keyword::Interact)),
    (b"INTERNAL", Kind::Keyword(Keyword::Int)),
    (b"LAYER", Kind::Keyword(Keyword::Layer)),
    (b"LAYOUT", Kind::Keyword(Keyword::Layout)),
    (b"LENGTH", Kind::Keyword(Keyword::Length)),
    (b"MAP", Kind::Keyword(Keyword::Map)),
    (b"MAXIMUM", Kind::Keyword(Keyword::Maximum)),
    (b"NOT", Kind::Keyword(Keyword::Not)),
    (b"NOTCH", Kind::Keyword(Keyword::Notch)),
    (b"OPPOSITE", Kind::Keyword(Keyword::Opposite)),
    (b"OR", Kind::Keyword(Keyword::Or)),
    (b"OUTSIDE", Kind::Keyword(Keyword::Outside)),
    (b"OVERUNDER", Kind::Keyword(Keyword::OverUnder)),
    (b"PATH", Kind::Keyword(Keyword::Path)),
    (b"PRECISION", Kind::Keyword(Keyword::Precision)),
    (b"PRIMARY", Kind::Keyword(Keyword::Primary)),
    (b"RECTANGLE", Kind::Keyword(Keyword::Rectangle)),
    (b"REGION", Kind::Keyword(Keyword::Region)),
    (b"REPLACE", Kind::Keyword(Keyword::Replace)),
    (b"REPORT", Kind::Keyword(Keyword::Report)),
    (b"RESULTS", Kind::Keyword(Keyword::Results)),
    (b"SELECT", Kind::Keyword(Keyword::Select)),
    (b"SINGULAR", Kind::Keyword(Keyword::Singular)),
    (b"SIZE", Kind::Keyword(Keyword::Size)),
    (b"SPACE", Kind::Keyword(Keyword::Space)),
    (b"SQUARE", Kind::Keyword(Keyword::Square)),
    (b"SUMMARY", Kind::Keyword(Keyword::Summary)),
    (b"SYSTEM", Kind::Keyword(Keyword::System)),
    (b"TEXTTYPE", Kind::Keyword(Keyword::TextType)),
    (b"TITLE", Kind::Keyword(Keyword::Title)),
    (b"TOUCH", Kind::Keyword(Keyword::Touch)),
    (b"UNDEROVER", Kind::Keyword(Keyword::UnderOver)),
    (b"UNSELECT", Kind::Keyword(Keyword::Unselect)),
    (b"VARIABLE", Kind::Keyword(Keyword::Variable)),
    (b"XOR", Kind::Keyword(Keyword::Xor)),
    (b"ALSO", Kind::SetAside),
    (b"ATTACH", Kind::SetAside),
    (b"CMACRO", Kind::SetAside),
    (b"CONNECT", Kind::SetAside),
    (b"CONNECTED", Kind::SetAside),
    (b"CONVEX", Kind::SetAside),
    (b"CORNER", Kind::SetAside),
    (b"DENSITY", Kind::SetAside),
    (b"DEVICE", Kind::SetAside),
    (b"DFM", Kind::SetAside),
    (b"DMACRO", Kind::SetAside),
    (b"DONUT", Kind::SetAside),
    (b"ERC", Kind::SetAside),
    (b"EXTENDED", Kind::SetAside),
    (b"EXTENT", Kind::SetAside),
    (b"FLAG", Kind::SetAside),
    (b"HOLES", Kind::SetAside),
    (b"ICSTATION", Kind::SetAside),
    (b"INCLUDE", Kind::SetAside),
    (b"KEEP", Kind::SetAside),
    (b"LVS", Kind::SetAside),
    (b"MAGNIFY", Kind::SetAside),
    (b"MDP", Kind::SetAside),
    (b"MEASURE", Kind::SetAside),
    (b"NET", Kind::SetAside),
    (b"OASIS", Kind::SetAside),
    (b"OFFGRID", Kind::SetAside),
    (b"OPC", Kind::SetAside),
    (b"PARALLEL", Kind::SetAside),
    (b"PERC", Kind::SetAside),
    (b"PERPENDICULAR", Kind::SetAside),
    (b"PEX", Kind::SetAside),
    (b"PROJECTING", Kind::SetAside),
    (b"RESOLUTION", Kind::SetAside),
    (b"ROTATE", Kind::SetAside),
    (b"SCONNECT", Kind::SetAside),
    (b"SHIFT", Kind::SetAside),
    (b"SNAP", Kind::SetAside),
    (b"STAMP", Kind::SetAside),
    (b"STEP", Kind::SetAside),
    (b"TEXT", Kind::SetAside),
    (b"TVF", Kind::SetAside),
    (b"UNIT", Kind::SetAside),
    (b"VERTEX", Kind::SetAside),
    (b"VIRTUAL", Kind::SetAside),
    (b"WINDOW", Kind::SetAside),
    (b"WITH", Kind::SetAside),
];

/// The signs, and what each is.
pub const SIGNS: [(&[u8], Kind); 19] = [
    (b"{", Kind::Sign(Sign::LeftBrace)),
    (b"}", Kind::Sign(Sign::RightBrace)),
    (b"(", Kind::Sign(Sign::LeftRound)),
    (b")", Kind::Sign(Sign::RightRound)),
    (b"[", Kind::Sign(Sign::LeftSquare)),
    (b"]", Kind::Sign(Sign::RightSquare)),
    (b"=", Kind::Sign(Sign::Equals)),
    (b"==", Kind::Sign(Sign::EqualTo)),
    (b"<", Kind::Sign(Sign::Less)),
    (b"<=", Kind::Sign(Sign::LessOrEqual)),
    (b">", Kind::Sign(Sign::Greater)),
    (b">=", Kind::Sign(Sign::GreaterOrEqual)),
    (b"!=", Kind::Sign(Sign::NotEqual)),
    (b"+", Kind::Sign(Sign::Plus)),
    (b"-", Kind::Sign(Sign::Minus)),
    (b"*", Kind::Sign(Sign::Times)),
    (b"/", Kind::Sign(Sign::Over)),
    (b"%", Kind::Sign(Sign::Modulo)),
    (b"^", Kind::Sign(Sign::Power)),
];

fn is_same_word(a: &[u8], b: &[u8]) -> bool
    ensures { result ≡ str_eq_ignore_ascii_case a.now b.now }
{
    a.eq_ignore_ascii_case(b)
}

fn begins_with_hash(word: &[u8]) -> bool
    ensures { result ≡ begins_with_hash word.now }
{
    match word {
        [] => false,
        [first, ..] => *first == b'#',
    }
}

fn lookup(mut rows: &[(&[u8], Kind)], word: &[u8], otherwise: Kind) -> Kind
    ensures { result ≡ lookup otherwise (map (λ row. (row.0.now, row.1)) rows.entry.now) word.now }
{
    while let [row, rest @ ..] = rows {
        if is_same_word(row.0, word) {
            return row.1;
        }
        rows = rest;
    }
    otherwise
}

/// What a word is: a keyword or a word that is set aside, in any case of letters, or else a name. A word that begins
/// with `#` is set aside.
#[tactic(auto, unfolding(crate::specs::Words::word_kind))]
pub fn kind_of_word(word: &[u8]) -> Kind
    ensures { result ≡ word_kind word.now }
{
    if begins_with_hash(word) {
        return Kind::SetAside;
    }
    lookup(&WORDS, word, Kind::Name)
}

/// What a sign is. What is no sign is set aside.
pub fn kind_of_sign(sign: &[u8]) -> Kind
    ensures { result ≡ sign_kind sign.now }
{
    lookup(&SIGNS, sign, Kind::SetAside)
}
