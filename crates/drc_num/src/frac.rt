//! A fraction, and what is computed with it.
ghost use Rattle.std.specs.Prelude.{◌≡◌, ℕ, ◌*◌, ◌^◌, ◌≤◌, ◌<◌, ℤ, pos, ◌+ℤ◌, ◌-ℤ◌, ◌*ℤ◌, IfSome, IfNone, unsigned_abs};
ghost use Rattle.std.specs.Int.{IsGcd, int_pow};
ghost use Rattle.drc_num.specs.Fractions.{IsExact, IsLowest, IsNumber, fraction_of, inverse_num, raised, whole_part, most};
ghost use Rattle.drc_num.specs.Working.Signs.{signed, power_sign};

use crate::division::{product, quotient, remainder};
use crate::gcd::gcd;
use crate::power::power;
use std::marker::Model;

/// The greatest part of a fraction.
pub(crate) const MOST: u128 = 1 << 62;

/// An exact number: a numerator and a denominator in lowest terms. The denominator is at least 1, and both are at most
/// 2^62, the numerator on either side of 0.
#[derive(Clone, Copy, Debug, PartialEq, Eq)]
pub struct Frac {
    num: i64,
    den: u64,
}

impl Model for Frac {
    ghost use Rattle.drc_num.specs.Fractions.{Fraction, IsLowest};

    ghost Value = { Fraction };

    ghost view = { λ f. record { num = f.num; den = f.den } };

    ghost invariant = { λ f. IsLowest (record { num = f.num; den = f.den }) };

    ghost inverse = { λ f. record { num = f.num; den = f.den } };
}

impl Frac {
    /// The number num / den.
    pub fn new(num: i128, den: u128) -> Option<Frac>
        requires size { unsigned_abs num < 2 ^ 126 }
        requires some { 0 < den }
        requires den { den < 2 ^ 126 }
        ensures exact { IsExact num den result }
        ensures fraction { result ≡ fraction_of num den }
    {
        let size = num.unsigned_abs();
        let common = gcd(size, den);
        lowest(num < 0, size / common, den / common)
    }

    /// The numerator, which is below 0 where the number is.
    pub fn num(&self) -> i64
        ensures { result ≡ self.now.num }
    {
        self.num
    }

    /// The denominator, which is at least 1.
    pub fn den(&self) -> u64
        ensures value { result ≡ self.now.den }
        ensures some { 0 < result }
    {
        self.den
    }

    /// The sum.
    pub fn add(&self, other: &Frac) -> Option<Frac>
        ensures exact { IsExact (raised self.now other.now +ℤ raised other.now self.now) (self.now.den * other.now.den) result }
        ensures fraction { result ≡ fraction_of (raised self.now other.now +ℤ raised other.now self.now) (self.now.den * other.now.den) }
    {
        Frac::new(
            raise(self, other) + raise(other, self),
            common_den(self, other),
        )
    }

    /// The difference.
    pub fn sub(&self, other: &Frac) -> Option<Frac>
        ensures exact { IsExact (raised self.now other.now -ℤ raised other.now self.now) (self.now.den * other.now.den) result }
        ensures fraction { result ≡ fraction_of (raised self.now other.now -ℤ raised other.now self.now) (self.now.den * other.now.den) }
    {
        Frac::new(
            raise(self, other) - raise(other, self),
            common_den(self, other),
        )
    }

    /// The product.
    pub fn mul(&self, other: &Frac) -> Option<Frac>
        ensures exact { IsExact (self.now.num *ℤ other.now.num) (self.now.den * other.now.den) result }
        ensures fraction { result ≡ fraction_of (self.now.num *ℤ other.now.num) (self.now.den * other.now.den) }
    {
        let product = product(i128::from(self.num), i128::from(other.num));
        Frac::new(product, common_den(self, other))
    }

    /// The quotient; none, too, where the other is 0.
    pub fn div(&self, other: &Frac) -> Option<Frac>
        ensures zero { other.now.num ≡ pos 0 → result ≡ None }
        ensures exact { (other.now.num ≡ pos 0 → ⊥)
            → IsExact (self.now.num *ℤ inverse_num other.now) (self.now.den * unsigned_abs other.now.num) result }
        ensures fraction { (other.now.num ≡ pos 0 → ⊥)
            → result ≡ fraction_of (self.now.num *ℤ inverse_num other.now) (self.now.den * unsigned_abs other.now.num) }
    {
        if other.num == 0 {
            return None;
        }
        let inverse = i128::from(with_sign(other.num < 0, other.den));
        let product = product(i128::from(self.num), inverse);
        Frac::new(
            product,
            u128::from(self.den) * u128::from(other.num.unsigned_abs()),
        )
    }

    /// What is left of self when the other is taken as often as it goes, the quotient being rounded toward 0; so it has
    /// the sign of self. None, too, where the other is 0.
    pub fn rem(&self, other: &Frac) -> Option<Frac>
        ensures zero { other.now.num ≡ pos 0 → result ≡ None }
        ensures exact { (other.now.num ≡ pos 0 → ⊥)
            → IsExact (raised self.now other.now -ℤ whole_part self.now other.now *ℤ raised other.now self.now)
            (self.now.den * other.now.den) result }
        ensures fraction { (other.now.num ≡ pos 0 → ⊥)
            → result ≡ fraction_of (raised self.now other.now -ℤ whole_part self.now other.now *ℤ raised other.now self.now)
            (self.now.den * other.now.den) }
    {
        if other.num == 0 {
            return None;
        }
        let rest = remainder(raise(self, other), raise(other, self));
        Frac::new(rest, common_den(self, other))
    }

    /// The number multiplied by itself n times, which are at most 255.
    pub fn pow(&self, n: u32) -> Option<Frac>
        requires { n ≤ 255 }
        ensures exact { IsExact (int_pow self.now.num n) (self.now.den ^ n) result }
        ensures fraction { result ≡ fraction_of (int_pow self.now.num n) (self.now.den ^ n) }
    {
        let size = power(u128::from(self.num.unsigned_abs()), n)?;
        let den = power(u128::from(self.den), n)?;
        lowest(is_power_negative(self.num, n), size, den)
    }

    /// The number, where it is whole.
    pub fn whole(&self) -> Option<i64>
        ensures found { IfSome result (λ w. IsNumber w 1 self.now) }
        ensures none { IfNone result ((w : ℤ) → IsNumber w 1 self.now → ⊥) }
    {
        if self.den == 1 { Some(self.num) } else { None }
    }

    /// The number taken k times, which are at most 2^40, where that is whole.
    pub fn times(&self, k: u64) -> Option<i128>
        requires { k ≤ 2 ^ 40 }
        ensures found { IfSome result (λ p. p *ℤ pos self.now.den ≡ self.now.num *ℤ pos k) }
        ensures none { IfNone result ((p : ℤ) → p *ℤ pos self.now.den ≡ self.now.num *ℤ pos k → ⊥) }
    {
        quotient(i128::from(self.num) * i128::from(k), i128::from(self.den))
    }
}

/// The numerator of the first, over the product of both denominators.
fn raise(a: &Frac, b: &Frac) -> i128
    ensures value { result ≡ raised a.now b.now }
    ensures size { unsigned_abs result ≤ 2 ^ 124 }
    ensures den { 0 < b.now.den }
{
    i128::from(a.num) * i128::from(b.den)
}

fn common_den(a: &Frac, b: &Frac) -> u128
    ensures value { result ≡ a.now.den * b.now.den }
    ensures some { 0 < result }
    ensures size { result ≤ 2 ^ 124 }
{
    u128::from(a.den) * u128::from(b.den)
}

/// The fraction of parts in lowest terms, where they fit.
fn lowest(negative: bool, size: u128, den: u128) -> Option<Frac>
    requires some { 0 < den }
    requires lowest { IsGcd size den 1 }
    ensures exact { IsExact (signed negative size) den result }
    ensures lowest { IfSome result IsLowest }
{
    if size <= MOST && den <= MOST {
        Some(Frac {
            num: with_sign(negative, size as u64),
            den: den as u64,
        })
    } else {
        None
    }
}

fn with_sign(negative: bool, size: u64) -> i64
    requires { size ≤ most }
    ensures { result ≡ signed negative size }
{
    if negative {
        -(size as i64)
    } else {
        size as i64
    }
}

fn is_power_negative(base: i64, n: u32) -> bool
    ensures { result ≡ power_sign base n }
{
    base < 0 && n % 2 == 1
}
