//! Powers of whole numbers, as far as they fit.
ghost use Rattle.std.specs.Prelude.{◌≡◌, ◌^◌, ◌<◌, ◌≤◌, IfSome, IfNone};
ghost use Rattle.drc_num.specs.Fractions.{most};

use crate::frac::MOST;

/// The base multiplied by itself n times, or none where that is above 2^62.
pub fn power(base: u128, n: u32) -> Option<u128>
    requires { base ≤ most }
    ensures found { IfSome result (λ p. (p ≡ base ^ n) × (p ≤ most)) }
    ensures none { IfNone result (most < base ^ n) }
{
    let mut product: u128 = 1;
    for _turn in 0..n {
        product *= base;
        if product > MOST {
            return None;
        }
    }
    Some(product)
}
