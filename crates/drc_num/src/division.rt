//! Products and quotients of whole numbers.
ghost use Rattle.std.specs.Prelude.{◌≡◌, ◌^◌, ◌<◌, ◌≤◌, ℤ, pos, ◌-ℤ◌, ◌*ℤ◌, ◌<ℤ◌, IfSome, IfNone, unsigned_abs, int_div, int_rem};

pub fn product(a: i128, b: i128) -> i128
    requires first { unsigned_abs a ≤ 2 ^ 62 }
    requires second { unsigned_abs b ≤ 2 ^ 62 }
    ensures value { result ≡ a *ℤ b }
    ensures size { unsigned_abs result ≤ 2 ^ 124 }
{
    a * b
}

/// What is left of a when b is taken as often as it goes, the quotient being rounded toward 0.
pub fn remainder(a: i128, b: i128) -> i128
    requires size { unsigned_abs a ≤ 2 ^ 124 }
    requires other { unsigned_abs b ≤ 2 ^ 124 }
    requires some { 0 < unsigned_abs b }
    ensures value { result ≡ a -ℤ int_div a b *ℤ b }
    ensures rest { result ≡ int_rem a b }
    ensures size { unsigned_abs result < 2 ^ 124 }
{
    a % b
}

/// The number of which b times is a, where it is whole.
pub fn quotient(a: i128, b: i128) -> Option<i128>
    requires size { unsigned_abs a ≤ 2 ^ 124 }
    requires some { pos 0 <ℤ b }
    requires other { unsigned_abs b ≤ 2 ^ 124 }
    ensures found { IfSome result (λ q. q *ℤ b ≡ a) }
    ensures none { IfNone result ((q : ℤ) → q *ℤ b ≡ a → ⊥) }
{
    let rest = remainder(a, b);
    if rest == 0 { Some(a / b) } else { None }
}
