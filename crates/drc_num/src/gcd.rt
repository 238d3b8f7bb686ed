//! The greatest common divisor, by Euclid's remainders.
ghost use Rattle.std.specs.Prelude.{ℕ};
ghost use Rattle.std.specs.Int.{IsGcd};

/// The greatest number that divides both; of 0 and b it is b.
pub fn gcd(a: u128, b: u128) -> u128
    ensures { IsGcd a b result }
{
    let mut x = a;
    let mut y = b;
    while y != 0 {
        let rest = x % y;
        x = y;
        y = rest;
    }
    x
}
