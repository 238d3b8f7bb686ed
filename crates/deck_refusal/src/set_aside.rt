//! Which tokens are set aside at their place.

ghost use Rattle.std.specs.Prelude.{◌≡◌};
ghost use Rattle.deck_refusal.specs.Working.SetAside.{is_infix_word, is_other_comparison, is_comparison, comparison_is_set_aside, sign_is_set_aside, is_set_aside};

use crate::ends::{awaits_bound, awaits_input, awaits_map_number};
use deck_grammar::{Keyword, Kind, Sign};

// The first keywords of the operations between layers.
fn is_infix_word(word: Keyword) -> bool
    ensures { result ≡ is_infix_word word }
{
    matches!(
        word,
        Keyword::And
            | Keyword::Or
            | Keyword::Not
            | Keyword::Xor
            | Keyword::Inside
            | Keyword::Outside
            | Keyword::Interact
            | Keyword::Touch
            | Keyword::Cut
            | Keyword::Enclose
            | Keyword::Coincident
    )
}

// Comparisons that bound nothing from above.
fn is_other_comparison(sign: Sign) -> bool
    ensures { result ≡ is_other_comparison sign }
{
    matches!(
        sign,
        Sign::Greater | Sign::GreaterOrEqual | Sign::EqualTo | Sign::NotEqual
    )
}

fn is_comparison(sign: Sign) -> bool
    ensures { result ≡ is_comparison sign }
{
    matches!(sign, Sign::Less | Sign::LessOrEqual) || is_other_comparison(sign)
}

fn comparison_is_set_aside(sign: Sign, recent: &[Kind]) -> bool
    ensures { result ≡ comparison_is_set_aside sign recent.now }
{
    (is_other_comparison(sign) && awaits_bound(recent))
        || (is_comparison(sign) && awaits_map_number(recent))
}

fn sign_is_set_aside(sign: Sign, recent: &[Kind]) -> bool
    ensures { result ≡ sign_is_set_aside sign recent.now }
{
    match sign {
        Sign::LeftRound => awaits_input(recent),
        _ => comparison_is_set_aside(sign, recent),
    }
}

/// Whether a token of this kind is set aside behind tokens of these kinds, the last first, where a layer may start or
/// not.
pub fn is_set_aside(may_start: bool, recent: &[Kind], kind: Kind) -> bool
    ensures { result ≡ is_set_aside may_start recent.now kind }
{
    match kind {
        Kind::SetAside => true,
        Kind::Keyword(word) => is_infix_word(word) && may_start,
        Kind::Sign(sign) => sign_is_set_aside(sign, recent),
        _ => false,
    }
}
