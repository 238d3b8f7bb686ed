//! The numbers that digits spell.

ghost use Rattle.std.specs.Prelude.{◌≡◌, ◌+◌, ◌*◌, ◌^◌, ◌<◌, ◌≤◌, ◌++◌, length, pos};
ghost use Rattle.drc_num.specs.Fractions.{fraction_of};
ghost use Rattle.deck_tree.specs.Worths.{decimal, decimal_from, number_value};

use crate::Number;
use drc_num::Frac;

/// The most digits that a number has on either side of the point.
const MOST_DIGITS: usize = 18;

/// The exact number, where it has no more than 18 digits on either side of the point and fits.
pub fn number_value(number: &Number) -> Option<Frac>
    ensures { result ≡ number_value number.now }
{
    let whole = number.whole.as_slice();
    let fraction = number.fraction.as_slice();
    if whole.len() <= MOST_DIGITS && fraction.len() <= MOST_DIGITS {
        spelled(whole, fraction)
    } else {
        None
    }
}

fn spelled(whole: &[u8], fraction: &[u8]) -> Option<Frac>
    requires whole { length whole.now ≤ 18 }
    requires fraction { length fraction.now ≤ 18 }
    ensures { result ≡ fraction_of (pos (decimal (whole.now ++ fraction.now))) (10 ^ length fraction.now) }
{
    let digits = behind(behind(0, whole), fraction);
    Frac::new(digits as i128, power_of_ten(fraction.len()))
}

/// The number that the digits spell behind another one.
fn behind(number: u128, digits: &[u8]) -> u128
    requires few { length digits.now ≤ 18 }
    requires number { number + 23 ≤ 23 * 10 ^ 18 + 23 }
    ensures value { result ≡ decimal_from number digits.now }
    ensures bound { result + 23 ≤ (number + 23) * 10 ^ length digits.now }
{
    let mut number = number;
    for digit in digits {
        number = number * 10 + u128::from(digit.saturating_sub(b'0'));
    }
    number
}

fn power_of_ten(n: usize) -> u128
    requires { n ≤ 18 }
    ensures value { result ≡ 10 ^ n }
    ensures some { 0 < result }
    ensures bound { result ≤ 10 ^ 18 }
{
    10u128.pow(n as u32)
}
