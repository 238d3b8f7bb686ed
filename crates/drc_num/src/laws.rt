//! A law of the definitions.
ghost use Rattle.std.specs.Prelude.{◌≡◌, ◌<◌, ℕ, ℤ, ◌*ℤ◌, pos, Option, IfSome};
ghost use Rattle.drc_num.specs.Fractions.{Fraction, IsExact, IsLowest, IsNumber, fraction_of};

/// Each number has one fraction at most.
pub fn one_fraction_a_number()
    ensures { (a b : Fraction) → IsLowest a → IsLowest b → IsNumber b.num b.den a → a ≡ b }
{}

/// An exact answer is the fraction of the number, and none where that has none.
pub fn exact_is_the_fraction()
    ensures { (num : ℤ) (den : ℕ) (answer : Option Fraction) → 0 < den → IfSome answer IsLowest → IsExact num den answer
        → answer ≡ fraction_of num den }
{}
