//! The laws of places and of the facts of references. Each is a statement, and does nothing when it is called.

ghost use Rattle.std.specs.Prelude.{◌≡◌, ◌↔◌, ℤ, List, Some};
ghost use Rattle.drc_geom.specs.declared.point.Pt.{Pt};
ghost use Rattle.gds_records.specs.declared.real.Real8.{Real8};
ghost use Rattle.gds_records.specs.Reals.{IsValue};
ghost use Rattle.gds_library.specs.declared.element.Instance.{Instance};
ghost use Rattle.gds_library.specs.declared.element.Point.{Point};
ghost use Rattle.gds_placing.specs.declared.place.Placement.{Placement};
ghost use Rattle.gds_placing.specs.Places.{place_of, then_of, unmoved};
ghost use Rattle.gds_placing.specs.Copies.{whole_of};
ghost use Rattle.gds_placing.specs.Facts.{Rise, facts_of};

/// What is drawn at a place in a structure that is itself drawn at a place, is drawn as one place after the other says.
/// Points that are drawn as they stand stay where they are.
pub fn places_follow()
    ensures follow { (inner outer : Placement) (p : Pt)
        → place_of (then_of inner outer) p ≡ place_of outer (place_of inner p) }
    ensures unmoved { (p : Pt) → place_of unmoved p ≡ p }
{}

/// A real is the whole number that is its value, if there is one.
pub fn reals_are_whole()
    ensures { (real : Real8) (n : ℤ) → (whole_of real ≡ Some n) ↔ IsValue real n }
{}

/// The facts of a reference stand by their numbers, least first.
pub fn facts_by_number()
    ensures { (outer : Placement) (instance : Instance) (points : List Point)
        → Rise 0 (facts_of outer instance points) }
{}
