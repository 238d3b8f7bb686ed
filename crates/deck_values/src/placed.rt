//! A value at its place.

use deck_names::Scope;
use deck_tree::Value;
use deck_units::ValuePlace;

/// What the place of a value wants.
#[derive(Clone, Copy, Debug, PartialEq, Eq)]
pub enum Wanted {
    /// A number in the range of such a place, in its units.
    Range(ValuePlace),
    /// 0 or 90.
    RightAngle,
    /// Any number: the value is that of a variable.
    Anything,
}

/// A value, from where its names are seen, and what its place wants.
#[derive(Clone, Copy)]
pub struct PlacedValue<'d> {
    pub value: &'d Value,
    pub scope: Scope,
    pub wanted: Wanted,
}
