//! What digits are worth.

ghost use Rattle.std.specs.Prelude.{◌≡◌, ◌-◌, ◌<◌, ◌≤◌, length, IfSome};
ghost use Rattle.std.specs.Char.{is_ascii_digit};
ghost use Rattle.std.specs.List.{AllPass, list_all};
ghost use Rattle.std.specs.Str.Parse.{digits_value};
ghost use Rattle.first_form.specs.FirstForm.{thousandths, units_of};
ghost use Rattle.first_form.specs.Working.Values.{decimal_in};
ghost use Rattle.first_form.specs.Working.Parts.{is_numeral, layer_number, is_bound};
ghost use Rattle.first_form.specs.Working.Views.{Gives};

use crate::served::PRECISION;
use deck_tree::Number;

pub fn all_digits(digits: &[u8]) -> bool
    ensures { result ≡ list_all is_ascii_digit digits.now }
{
    digits.iter().all(|b| b.is_ascii_digit())
}

#[tactic(auto, unfolding(crate::specs::Working::Parts::is_numeral))]
fn is_numeral(digits: &[u8]) -> bool
    ensures { result ≡ is_numeral digits.now }
{
    all_digits(digits)
        && !digits.is_empty()
        && digits.len() <= 5
        && (digits[0] != b'0' || digits.len() == 1)
}

fn digits_value(digits: &[u8]) -> u32
    requires few { length digits.now ≤ 9 }
    requires digits { AllPass is_ascii_digit digits.now }
    ensures { result ≡ digits_value 10 digits.now }
{
    let mut value = 0u32;
    for digit in digits {
        value = value * 10 + (*digit - b'0') as u32;
    }
    value
}

/// A number as a layer has one: whole, below 65536, and with no zero before another digit.
#[tactic(auto, unfolding(crate::specs::Working::Parts::layer_number))]
pub fn layer_number(number: &Number) -> Option<u16>
    ensures { Gives (λ n. n) result (layer_number number.now) }
{
    let digits = number.whole.as_slice();
    if !number.fraction.is_empty() || !is_numeral(digits) {
        return None;
    }
    let value = digits_value(digits);
    if value < 65536 {
        Some(value as u16)
    } else {
        None
    }
}

/// Whether a number has at most six digits before the point and three behind it.
#[tactic(auto, unfolding(crate::specs::Working::Parts::is_bound))]
pub fn is_bound(number: &Number) -> bool
    ensures { result ≡ is_bound (decimal_in number.now) }
{
    let whole = number.whole.as_slice();
    let fraction = number.fraction.as_slice();
    whole.len() <= 6 && fraction.len() <= 3 && all_digits(whole) && all_digits(fraction)
}

fn digit(byte: u8) -> u32
    ensures value { result ≡ byte - 48 }
    ensures small { result < 256 }
{
    byte.saturating_sub(b'0') as u32
}

/// What the digits behind a point are worth, in thousandths.
fn thousandths(digits: &[u8]) -> u32
    ensures value { result ≡ thousandths digits.now }
    ensures small { result < 65536 }
{
    match digits {
        [] => 0,
        [a] => 100 * digit(*a),
        [a, b] => 100 * digit(*a) + 10 * digit(*b),
        [a, b, c, ..] => 100 * digit(*a) + 10 * digit(*b) + digit(*c),
    }
}

/// A number in database units.
pub fn units(number: &Number) -> u32
    requires few { length number.now.whole ≤ 6 }
    requires digits { AllPass is_ascii_digit number.now.whole }
    ensures { result ≡ units_of (decimal_in number.now) }
{
    PRECISION * digits_value(number.whole.as_slice()) + thousandths(number.fraction.as_slice())
}
