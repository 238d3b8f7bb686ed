//! What a number, a note and a text in quotes say.

ghost use Rattle.std.specs.Prelude.{◌≡◌, ◌+◌, ◌-◌, ◌≤◌, length, take, drop, reverse, IfOk};
ghost use Rattle.std.specs.List.{prefix_len};
ghost use Rattle.deck_grammar.specs.Lexemes.{lexeme, is_zero, is_no_point, before_point, behind_point, is_note_blank, at_least_zero, without_first, without_last, without_quotes, note_text, number_of};
ghost use Rattle.deck_grammar.specs.declared.kind.Kind.TheVariants as kinds;

use deck_tree::Number;
use sqlite_items::Items;
use std::alloc::{AllocError, Global};

fn is_zero(byte: u8) -> bool
    ensures { result ≡ is_zero byte }
{
    byte == b'0'
}

fn is_no_point(byte: u8) -> bool
    ensures { result ≡ is_no_point byte }
{
    byte != b'.'
}

fn is_note_blank(byte: u8) -> bool
    ensures { result ≡ is_note_blank byte }
{
    matches!(byte, b' ' | b'\t' | b'\r')
}

fn zeros_before(digits: &[u8]) -> usize
    ensures within { result ≤ length digits.now }
    ensures longest { result ≡ prefix_len is_zero digits.now }
{
    digits.iter().take_while(|d| is_zero(**d)).count()
}

fn zeros_behind(digits: &[u8]) -> usize
    ensures within { result ≤ length digits.now }
    ensures longest { result ≡ prefix_len is_zero (reverse digits.now) }
{
    digits.iter().rev().take_while(|d| is_zero(**d)).count()
}

fn blanks_before(text: &[u8]) -> usize
    ensures within { result ≤ length text.now }
    ensures longest { result ≡ prefix_len is_note_blank text.now }
{
    text.iter().take_while(|b| is_note_blank(**b)).count()
}

fn blanks_behind(text: &[u8]) -> usize
    ensures within { result ≤ length text.now }
    ensures longest { result ≡ prefix_len is_note_blank (reverse text.now) }
{
    text.iter().rev().take_while(|b| is_note_blank(**b)).count()
}

fn point_at(number: &[u8]) -> usize
    ensures within { result ≤ length number.now }
    ensures longest { result ≡ prefix_len is_no_point number.now }
{
    number.iter().take_while(|b| is_no_point(**b)).count()
}

fn before_point(number: &[u8]) -> &[u8]
    ensures { result.now ≡ before_point number.now }
{
    &number[..point_at(number)]
}

fn behind_point(number: &[u8]) -> &[u8]
    ensures { result.now ≡ behind_point number.now }
{
    let point = point_at(number);
    if point < number.len() {
        &number[point + 1..]
    } else {
        &[]
    }
}

fn at_least_zero(digits: &[u8]) -> &[u8]
    ensures { result.now ≡ at_least_zero digits.now }
{
    match digits {
        [] => b"0",
        _ => digits,
    }
}

fn whole_digits(number: &[u8]) -> &[u8]
    ensures { result.now ≡ at_least_zero (without_first is_zero (before_point number.now)) }
{
    let digits = before_point(number);
    at_least_zero(&digits[zeros_before(digits)..])
}

fn fraction_digits(number: &[u8]) -> &[u8]
    ensures { result.now ≡ without_last is_zero (behind_point number.now) }
{
    let digits = behind_point(number);
    &digits[..digits.len() - zeros_behind(digits)]
}

/// The number that these bytes spell, as canonical text shows it.
pub fn number_of(alloc: Global, at: u64, bytes: &[u8]) -> Result<Number, AllocError>
    ensures { IfOk result (λ number. number ≡ number_of (lexeme kinds.Number at bytes.now)) }
{
    Ok(Number {
        at,
        whole: Items::from_slice(alloc, whole_digits(bytes))?,
        fraction: Items::from_slice(alloc, fraction_digits(bytes))?,
    })
}

/// The text of a note behind its `@`, without blanks at either end.
pub fn note_text(note: &[u8]) -> &[u8]
    ensures { result.now ≡ note_text note.now }
{
    let text = match note {
        [] => note,
        [_, text @ ..] => text,
    };
    let text = &text[blanks_before(text)..];
    &text[..text.len() - blanks_behind(text)]
}

/// A text without its quotes.
pub fn without_quotes(text: &[u8]) -> &[u8]
    requires { 2 ≤ length text.now }
    ensures { result.now ≡ without_quotes text.now }
{
    &text[1..text.len() - 1]
}
