//! The tokens of a text, one at a time, as the grammar sees them.

ghost use Rattle.std.specs.Prelude.{◌≡◌, ◌≢◌, ◌≤◌, ◌∷◌, [], length, IfSome, IfNone};
ghost use Rattle.deck_grammar.specs.Lexemes.{lexeme};
ghost use Rattle.deck_grammar.specs.Refusals.{open_behind};
ghost use Rattle.deck_cursor.specs.Inside.{IsUpcoming};
ghost use Rattle.deck_cursor.specs.Places.{kind_in, bytes_of};

use deck_grammar::{Kind, Sign, kind_of_sign, kind_of_word};
use deck_lexer::{Token, TokenKind, next};

/// How many round brackets may stand inside one another.
pub const MAX_NESTING: u64 = 64;

/// What a token of this kind with these bytes is to the grammar.
pub fn kind_in(kind: TokenKind, bytes: &[u8]) -> Kind
    ensures { result ≡ kind_in kind bytes.now }
{
    match kind {
        TokenKind::Word => kind_of_word(bytes),
        TokenKind::Number => Kind::Number,
        TokenKind::Text => Kind::Text,
        TokenKind::Sign => kind_of_sign(bytes),
        TokenKind::Note => Kind::Note,
    }
}

/// The first token of the text at an offset or behind it. None at the end, and where a fact comes.
pub fn upcoming(text: &[u8], at: usize) -> Option<Token>
    requires { at ≤ length text.now }
    ensures { IsUpcoming text.now at result }
{
    match next(text, at) {
        Ok(Some(token)) => Some(token),
        Ok(None) => None,
        Err(_) => None,
    }
}

/// The bytes of a token of the text.
pub fn bytes_of<'a>(text: &'a [u8], token: Token) -> &'a [u8]
    requires order { token.start ≤ token.end }
    requires within { token.end ≤ length text.now }
    ensures { result.now ≡ bytes_of text.now token }
{
    &text[token.start..token.end]
}

/// How many brackets are open behind a token of this kind, where so many are before it; None for the one that is too
/// many.
pub fn brackets_behind(brackets: u64, kind: Kind) -> Option<u64>
    requires { brackets ≤ 64 }
    ensures few { IfSome result (λ n. n ≤ 64) }
    ensures value { IfSome result (λ n. n ≡ open_behind brackets (lexeme kind 0 [] ∷ [])) }
    ensures too_deep { IfNone result ((kind ≡ Kind.Sign Sign.LeftRound) × (brackets ≡ 64)) }
    ensures not_too_deep { IfSome result (λ n. kind ≡ Kind.Sign Sign.LeftRound → brackets ≢ 64) }
{
    match kind {
        Kind::Sign(Sign::LeftRound) => {
            if brackets < MAX_NESTING {
                Some(brackets + 1)
            } else {
                None
            }
        }
        Kind::Sign(Sign::RightRound) => Some(brackets.saturating_sub(1)),
        _ => Some(brackets),
    }
}
