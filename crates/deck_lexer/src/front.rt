//! What stands at the front of some bytes, where no gap does.

ghost use Rattle.std.specs.Prelude.{◌≡◌, ◌+◌, ◌^◌, ◌<◌, ◌≤◌, length, ◌∷◌};
ghost use Rattle.std.specs.List.{prefix_len};
ghost use Rattle.deck_lexer.specs.Bytes.{is_digit, continues_word, is_text_byte, is_in_line};
ghost use Rattle.deck_lexer.specs.Tokens.{begins_comment, goes_on_as_word, closes_on_line};
ghost use Rattle.deck_lexer.specs.Working.Reading.{kind_of, number_len, sign_len, token, number_at, sign_at, text_at, standing};

use crate::byte::{
    begins_comparison, begins_word, continues_word, is_digit, is_in_line, is_sign, is_text_byte,
};
use crate::{LexFault, Token, TokenKind};

// Which kind of token the byte begins, if any.
fn kind_of(byte: u8) -> TokenKind
    ensures { result ≡ kind_of byte }
{
    if begins_word(byte) {
        TokenKind::Word
    } else if is_digit(byte) || byte == b'.' {
        TokenKind::Number
    } else if byte == b'"' {
        TokenKind::Text
    } else if byte == b'@' {
        TokenKind::Note
    } else {
        TokenKind::Sign
    }
}

fn token(kind: TokenKind, at: usize, len: usize) -> Result<Option<Token>, LexFault>
    requires { at + len < 2 ^ 64 }
    ensures { result ≡ token kind at len }
{
    Ok(Some(Token {
        kind,
        start: at,
        end: at + len,
    }))
}

fn digits_len(bytes: &[u8]) -> usize
    ensures within { result ≤ length bytes.now }
    ensures longest { result ≡ prefix_len is_digit bytes.now }
{
    bytes.iter().take_while(|b| is_digit(**b)).count()
}

fn word_len(bytes: &[u8]) -> usize
    ensures within { result ≤ length bytes.now }
    ensures longest { result ≡ prefix_len continues_word bytes.now }
{
    bytes.iter().take_while(|b| continues_word(**b)).count()
}

fn note_len(bytes: &[u8]) -> usize
    ensures within { result ≤ length bytes.now }
    ensures longest { result ≡ prefix_len is_in_line bytes.now }
{
    bytes.iter().take_while(|b| is_in_line(**b)).count()
}

fn text_len(bytes: &[u8]) -> usize
    ensures within { result ≤ length bytes.now }
    ensures longest { result ≡ prefix_len is_text_byte bytes.now }
{
    bytes.iter().take_while(|b| is_text_byte(**b)).count()
}

// The length of the number at the front, or 0.
#[tactic(auto, unfolding(crate::specs::Working::Reading::number_len))]
fn number_len(bytes: &[u8]) -> usize
    ensures within { result ≤ length bytes.now }
    ensures value { result ≡ number_len bytes.now }
{
    let whole = digits_len(bytes);
    match &bytes[whole..] {
        [b'.', more @ ..] => {
            let fraction = digits_len(more);
            if whole + fraction > 0 {
                whole + 1 + fraction
            } else {
                whole
            }
        }
        _ => whole,
    }
}

// The length of the sign at the front, or 0.
fn sign_len(bytes: &[u8]) -> usize
    ensures within { result ≤ length bytes.now }
    ensures value { result ≡ sign_len bytes.now }
{
    match bytes {
        [first, b'=', ..] if begins_comparison(*first) => 2,
        [first, ..] if is_sign(*first) => 1,
        _ => 0,
    }
}

fn goes_on_as_word(bytes: &[u8]) -> bool
    ensures { result ≡ goes_on_as_word bytes.now }
{
    match bytes {
        [] => false,
        [first, ..] => continues_word(*first),
    }
}

fn begins_comment(bytes: &[u8]) -> bool
    ensures { result ≡ begins_comment bytes.now }
{
    match bytes {
        [b'/', second, ..] => *second == b'/' || *second == b'*',
        _ => false,
    }
}

// Whether a quote stands before the line's end.
fn closes_on_line(bytes: &[u8]) -> bool
    ensures { result ≡ closes_on_line bytes.now }
{
    for byte in bytes {
        if *byte == b'"' {
            return true;
        }
        if *byte == b'\n' {
            return false;
        }
    }
    false
}

#[tactic(auto, unfolding(crate::specs::Working::Reading::number_at))]
fn number_at(bytes: &[u8], at: usize) -> Result<Option<Token>, LexFault>
    requires { at + length bytes.now < 2 ^ 64 }
    ensures { result ≡ number_at at bytes.now }
{
    let len = number_len(bytes);
    if len == 0 {
        return Err(LexFault::BadByte(at));
    }
    if goes_on_as_word(&bytes[len..]) {
        return Err(LexFault::BadByte(at + len));
    }
    token(TokenKind::Number, at, len)
}

#[tactic(auto, unfolding(crate::specs::Working::Reading::sign_at))]
fn sign_at(bytes: &[u8], at: usize) -> Result<Option<Token>, LexFault>
    requires { at + length bytes.now < 2 ^ 64 }
    ensures { result ≡ sign_at at bytes.now }
{
    if begins_comment(bytes) {
        return Err(LexFault::OpenComment(at));
    }
    let len = sign_len(bytes);
    if len == 0 {
        return Err(LexFault::BadByte(at));
    }
    token(TokenKind::Sign, at, len)
}

// The text behind a quote that stands at the offset.
#[tactic(auto, unfolding(crate::specs::Working::Reading::text_at))]
fn text_at(more: &[u8], at: usize) -> Result<Option<Token>, LexFault>
    requires { at + length more.now + 1 < 2 ^ 64 }
    ensures { result ≡ text_at at more.now }
{
    if !closes_on_line(more) {
        return Err(LexFault::OpenText(at));
    }
    let len = text_len(more);
    if len < more.len() && more[len] == b'"' {
        token(TokenKind::Text, at, len + 2)
    } else {
        Err(LexFault::BadByte(at + 1 + len))
    }
}

/// What stands at the front of the bytes, where no gap does: a token, nothing at the end, or a fact.
#[tactic(auto, unfolding(crate::specs::Working::Reading::standing))]
pub fn standing(bytes: &[u8], at: usize) -> Result<Option<Token>, LexFault>
    requires { at + length bytes.now < 2 ^ 64 }
    ensures { result ≡ standing at bytes.now }
{
    let [first, more @ ..] = bytes else {
        return Ok(None);
    };
    match kind_of(*first) {
        TokenKind::Word => token(TokenKind::Word, at, word_len(more) + 1),
        TokenKind::Number => number_at(bytes, at),
        TokenKind::Text => text_at(more, at),
        TokenKind::Sign => sign_at(bytes, at),
        TokenKind::Note => token(TokenKind::Note, at, note_len(more) + 1),
    }
}
