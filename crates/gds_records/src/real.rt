//! Eight-byte reals.

ghost use Rattle.std.specs.Prelude.{◌≡◌, ◌↔◌, ◌<◌, ◌≤◌, ◌*◌, ◌%◌, ◌^◌, ℕ, ℤ, IsTrue, IfSome, IfNone, unsigned_abs};
ghost use Rattle.gds_records.specs.Working.RealSizes.{IsNearOne};
ghost use Rattle.gds_records.specs.Reals.{IsNearInverse, IsValue, exponent, fraction, magnitude, scale, sign_byte, signed};

use byteorder::{BigEndian, ByteOrder};

/// A real of a GDSII stream: a sign bit, seven bits of exponent in excess 64, and 56 bits of fraction. Its value is the
/// fraction times 16 to the power of the exponent.
#[derive(Clone, Copy, Debug, PartialEq, Eq)]
pub struct Real8 {
    pub bytes: [u8; 8],
}

/// The greatest whole number that is asked for.
const MOST: u128 = 1 << 40;

/// The scale of all values is 2 to this power.
const SCALE: u32 = 312;

/// A value that is 1, and the power of 2 that it is short of the scale.
const ONE: u128 = 1 << 30;

const SHORT: u32 = 282;

impl Real8 {
    /// The value, where it is a whole number of magnitude at most 2^40.
    pub fn whole(&self) -> Option<i64>
        ensures some { IfSome result (λ n. IsValue self.now n × (unsigned_abs n ≤ 2 ^ 40)) }
        ensures none { IfNone result ((n : ℤ) → IsValue self.now n → 2 ^ 40 < unsigned_abs n) }
    {
        match whole_size(self.fraction(), self.exponent()) {
            Some(size) => Some(self.signed(size)),
            None => None,
        }
    }

    /// Does the value times the precision differ from 1 by at most 2^-30?
    pub fn near_inverse(&self, precision: u32) -> bool
        requires { (1 ≤ precision) × (precision ≤ 1000000) }
        ensures { IsTrue result ↔ IsNearInverse self.now precision }
    {
        let product = self.fraction() as u128 * precision as u128;
        !self.is_negative() && is_near_one(product, self.exponent())
    }

    fn signed(&self, size: u64) -> i64
        requires { size ≤ 2 ^ 40 }
        ensures { result ≡ signed self.now size }
    {
        if self.is_negative() {
            -(size as i64)
        } else {
            size as i64
        }
    }

    fn is_negative(&self) -> bool
        ensures { IsTrue result ↔ (128 ≤ sign_byte self.now) }
    {
        128 <= self.bytes[0]
    }

    fn exponent(&self) -> u32
        ensures exponent { result ≡ exponent self.now }
        ensures small { result < 128 }
    {
        (self.bytes[0] % 128) as u32
    }

    fn fraction(&self) -> u64
        ensures fraction { result ≡ fraction self.now }
        ensures small { result < 2 ^ 56 }
    {
        BigEndian::read_uint(&self.bytes[1..], 7)
    }
}

// The whole number fraction * 16^exponent / 2^312, where there is one that is at most 2^40.
fn whole_size(fraction: u64, exponent: u32) -> Option<u64>
    requires { (fraction < 2 ^ 56) × (exponent < 128) }
    ensures some { IfSome result (λ n. (n * scale ≡ fraction * 2 ^ (4 * exponent)) × (n ≤ 2 ^ 40)) }
    ensures none { IfNone result ((n : ℕ) → n * scale ≡ fraction * 2 ^ (4 * exponent) → 2 ^ 40 < n) }
{
    let power = 4 * exponent;
    if fraction == 0 {
        return Some(0);
    }
    if SCALE <= power {
        raised(fraction, power)
    } else {
        lowered(fraction, power)
    }
}

fn raised(fraction: u64, power: u32) -> Option<u64>
    requires { (0 < fraction) × (fraction < 2 ^ 56) × (312 ≤ power) × (power < 512) }
    ensures some { IfSome result (λ n. (n * scale ≡ fraction * 2 ^ power) × (n ≤ 2 ^ 40)) }
    ensures none { IfNone result ((n : ℕ) → n * scale ≡ fraction * 2 ^ power → 2 ^ 40 < n) }
{
    let by = power - SCALE;
    if 40 < by {
        return None;
    }
    let size = (fraction as u128) << by;
    if MOST < size {
        return None;
    }
    Some(size as u64)
}

fn lowered(fraction: u64, power: u32) -> Option<u64>
    requires { (0 < fraction) × (fraction < 2 ^ 56) × (power < 312) }
    ensures some { IfSome result (λ n. (n * scale ≡ fraction * 2 ^ power) × (n ≤ 2 ^ 40)) }
    ensures none { IfNone result ((n : ℕ) → n * scale ≡ fraction * 2 ^ power → 2 ^ 40 < n) }
{
    let by = SCALE - power;
    if 56 <= by {
        return None;
    }
    let unit = 1u64 << by;
    let size = fraction / unit;
    if size * unit != fraction {
        return None;
    }
    if MOST < size as u128 {
        return None;
    }
    Some(size)
}

// Does product * 16^exponent / 2^312 differ from 1 by at most 2^-30?
fn is_near_one(product: u128, exponent: u32) -> bool
    requires { (product < 2 ^ 76) × (exponent < 128) }
    ensures { IsTrue result ↔ IsNearOne (product * 2 ^ (4 * exponent)) (2 ^ 282) }
{
    let power = 4 * exponent;
    if SHORT <= power {
        is_near_raised(product, power - SHORT)
    } else {
        is_near_lowered(product, SHORT - power)
    }
}

fn is_near_raised(product: u128, by: u32) -> bool
    requires { product < 2 ^ 76 }
    ensures { IsTrue result ↔ IsNearOne (product * 2 ^ by) 1 }
{
    if 31 < by {
        return false;
    }
    let size = product << by;
    ONE - 1 <= size && size <= ONE + 1
}

fn is_near_lowered(product: u128, by: u32) -> bool
    requires { product < 2 ^ 76 }
    ensures { IsTrue result ↔ IsNearOne product (2 ^ by) }
{
    if 76 < by {
        return false;
    }
    (ONE - 1) << by <= product && product <= (ONE + 1) << by
}
