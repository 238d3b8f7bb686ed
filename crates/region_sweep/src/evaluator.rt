ghost use Rattle.std.specs.Prelude.{◌≡◌, Bool, false, ℕ, ◌+◌};

use row_state::Value;

/// What flips of two lists do to the value of a column, and which values count as inside.
pub trait Evaluator<V: Value>: Copy {
    ghost first: { Self → V → V };

    ghost second: { Self → V → V };

    ghost inside: { Self → V → Bool };

    // The value of a column that so many flips of the first list and so many of the second have changed.
    ghost counted: { Self → ℕ → ℕ → V };

    /// The value after a flip of the first list.
    fn first(&self, value: V) -> V
        ensures { result ≡ first self.now value };

    /// The value after a flip of the second list.
    fn second(&self, value: V) -> V
        ensures { result ≡ second self.now value };

    /// Whether a column of this value has a square in the region.
    fn is_inside(&self, value: V) -> bool
        ensures { result ≡ inside self.now value };

    ghost counts_none: { (e : Self) → counted e 0 0 ≡ V.zero };

    ghost none_inside: { (e : Self) → inside e (counted e 0 0) ≡ false };

    ghost counts_first: { (e : Self) (a b : ℕ) → first e (counted e a b) ≡ counted e (a + 1) b };

    ghost counts_second: { (e : Self) (a b : ℕ) → second e (counted e a b) ≡ counted e a (b + 1) };
}
