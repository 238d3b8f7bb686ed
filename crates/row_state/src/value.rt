ghost use Rattle.std.specs.Prelude.{◌≡◌, Bool, true};

/// What a column can have.
pub trait Value: Copy {
    ghost zero: { Self };

    ghost same: { Self → Self → Bool };

    /// The value of nearly all columns.
    fn zero() -> Self
        ensures { result ≡ zero };

    /// Whether two values are equal.
    fn is_same(&self, other: &Self) -> bool
        ensures { result ≡ same self.now other.now };

    ghost same_equal: { (a b : Self) → same a b ≡ true → a ≡ b };

    ghost equal_same: { (a : Self) → same a a ≡ true };
}
