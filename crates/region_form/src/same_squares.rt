//! A region is determined by its squares.

ghost use Rattle.std.specs.Prelude.{List, ℤ, ◌≡◌};
ghost use Rattle.region_form.specs.declared.flip.Flip.{Flip};
ghost use Rattle.region_form.specs.Flips.{IsRegion, squares};

/// The law of regions: two regions that have the same squares are the same list of flips.
/// It is a statement, and does nothing when it is called.
pub fn same_squares_same_region()
    ensures { (a b : List Flip) → IsRegion a → IsRegion b
        → ((x y : ℤ) → squares a x y ≡ squares b x y) → a ≡ b }
{}
