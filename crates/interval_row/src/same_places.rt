//! A row is determined by its places.

ghost use Rattle.std.specs.Prelude.{List, ℤ, ◌≡◌};
ghost use Rattle.interval_row.specs.declared.span.Span.{Span};
ghost use Rattle.interval_row.specs.Rows.{IsRow, has};

/// The law of rows: two rows that have the same places are the same list of spans.
/// It is a statement, and does nothing when it is called.
pub fn same_places_same_row()
    ensures { (a b : List Span) → IsRow a → IsRow b → ((x : ℤ) → has a x ≡ has b x) → a ≡ b }
{}
