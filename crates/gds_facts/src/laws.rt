//! The laws of the facts. Each is a statement, and does nothing when it is called.

ghost use Rattle.std.specs.Prelude.{◌≡◌, ℕ, List};
ghost use Rattle.gds_records.specs.declared.fault.LayoutRefusal.{LayoutRefusal};
ghost use Rattle.gds_records.specs.Records.{Item};
ghost use Rattle.gds_facts.specs.Facts.{AreFine, IsRefused};

/// A list of records is refused in one way at most, and in none where they are the front of a stream without a fact.
pub fn one_refusal()
    ensures one { (precision : ℕ) (items : List Item) (a b : LayoutRefusal) → IsRefused precision items a → IsRefused precision items b → a ≡ b }
    ensures not_both { (precision : ℕ) (items : List Item) (a : LayoutRefusal) → AreFine precision items → IsRefused precision items a → ⊥ }
{}
