//! Canonical bands are determined by their squares.

ghost use Rattle.std.specs.Prelude.{List, ℤ, ◌≡◌};
ghost use Rattle.region_bands.specs.declared.band.Band.{Band};
ghost use Rattle.region_bands.specs.Bands.{AreBands, squares_of_bands};

/// The law of bands: two lists of canonical bands that have the same squares are the same list.
/// It is a statement, and does nothing when it is called.
pub fn same_squares_same_bands()
    ensures { (a b : List Band) → AreBands a → AreBands b
        → ((x y : ℤ) → squares_of_bands a x y ≡ squares_of_bands b x y) → a ≡ b }
{}
