//! The numbers of a line.

ghost use Rattle.std.specs.Prelude.{◌≡◌, ◌≤◌, length, IfSome};
ghost use Rattle.std.specs.Char.{is_ascii_digit};
ghost use Rattle.std.specs.List.{prefix_len, AllPass};
ghost use Rattle.std.specs.Str.Parse.{digits_value};
ghost use Rattle.trace_line.specs.Working.Reading.{Gives, is_numeral, numeral_at, number_at, number_before, most_32};

use crate::word::after;

/// The most digits of a number: those of the greatest one of 64 bits.
const MOST_DIGITS: usize = 20;

fn digits_len(text: &[u8]) -> usize
    ensures within { result ≤ length text.now }
    ensures longest { result ≡ prefix_len is_ascii_digit text.now }
{
    text.iter().take_while(|b| b.is_ascii_digit()).count()
}

#[tactic(auto, unfolding(crate::specs::Working::Reading::is_numeral))]
fn is_numeral(digits: &[u8]) -> bool
    ensures { result ≡ is_numeral digits.now }
{
    !digits.is_empty() && digits.len() <= MOST_DIGITS && (digits[0] != b'0' || digits.len() == 1)
}

#[tactic(auto, unfolding(crate::specs::Working::Reading::numeral_at, crate::specs::Working::Reading::is_numeral))]
fn numeral(text: &[u8]) -> Option<(&[u8], &[u8])>
    ensures field { Gives (λ x. (x.0.now, x.1.now)) result (numeral_at text.now) }
    ensures digits { IfSome result (λ x. AllPass is_ascii_digit x.0.now) }
    ensures few { IfSome result (λ x. length x.0.now ≤ 20) }
{
    let (digits, rest) = text.split_at(digits_len(text));
    if is_numeral(digits) {
        Some((digits, rest))
    } else {
        None
    }
}

fn value(digits: &[u8]) -> u128
    requires few { length digits.now ≤ 20 }
    requires digits { AllPass is_ascii_digit digits.now }
    ensures { result ≡ digits_value 10 digits.now }
{
    let mut value = 0u128;
    for digit in digits {
        value = value * 10 + (*digit - b'0') as u128;
    }
    value
}

/// The number at the front of the text, with no leading zero, where it is at most so much.
#[tactic(auto, unfolding(crate::specs::Working::Reading::number_at))]
fn number(text: &[u8], most: u64) -> Option<(u64, &[u8])>
    ensures number { Gives (λ x. (x.0, x.1.now)) result (number_at most text.now) }
    ensures small { IfSome result (λ x. x.0 ≤ most) }
{
    let (digits, rest) = numeral(text)?;
    let value = value(digits);
    if value <= most as u128 {
        Some((value as u64, rest))
    } else {
        None
    }
}

/// The number at the front of the text, where it is at most so much and these words stand after it.
#[tactic(auto, unfolding(crate::specs::Working::Reading::number_before))]
pub fn number_before<'a>(text: &'a [u8], most: u64, words: &[u8]) -> Option<(u64, &'a [u8])>
    ensures number { Gives (λ x. (x.0, x.1.now)) result (number_before most words.now text.now) }
    ensures small { IfSome result (λ x. x.0 ≤ most) }
{
    let (number, rest) = number(text, most)?;
    let rest = after(rest, words)?;
    Some((number, rest))
}

/// The number of 32 bits at the front of the text, where these words stand after it.
pub fn small_before<'a>(text: &'a [u8], words: &[u8]) -> Option<(u32, &'a [u8])>
    ensures { Gives (λ x. (x.0, x.1.now)) result (number_before most_32 words.now text.now) }
{
    let (number, rest) = number_before(text, u32::MAX as u64, words)?;
    Some((number as u32, rest))
}
