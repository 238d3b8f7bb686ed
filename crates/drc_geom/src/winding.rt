//! Outlines, and the squares round which they wind.

ghost use Rattle.std.specs.Prelude.{ℤ, pos, ◌≡◌, if◌then◌else◌};
ghost use Rattle.drc_geom.specs.declared.rect.Rect.{Rect};
ghost use Rattle.drc_geom.specs.Squares.{IsRect, squares_of};
ghost use Rattle.drc_geom.specs.Winding.{outline, winding};

/// The law of a rectangle's outline: it winds once round each square that the rectangle covers, and round no other.
/// It is a statement, and does nothing when it is called.
pub fn outline_winds_round_its_squares()
    ensures { (r : Rect) → IsRect r → (x y : ℤ) → winding (outline r) x y ≡ (if squares_of r x y then pos 1 else pos 0) }
{}
