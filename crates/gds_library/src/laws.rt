//! The laws of libraries. Each is a statement, and does nothing when it is called.

ghost use Rattle.std.specs.Prelude.{◌≡◌, ◌++◌, ◌∷◌, [], ℕ, List};
ghost use Rattle.gds_records.specs.declared.fault.LayoutRefusal.{LayoutRefusal};
ghost use Rattle.gds_records.specs.Records.{Item, endlib};
ghost use Rattle.gds_grammar.specs.Grammar.{IsStream};
ghost use Rattle.gds_facts.specs.Opened.{types_of};
ghost use Rattle.gds_library.specs.Library.{Library};
ghost use Rattle.gds_library.specs.Streams.{ReadsAs};
ghost use Rattle.gds_library.specs.Facts.{AreAccepted, Follows, IsRefused};
ghost use Rattle.gds_library.specs.declared.builder.Builder.{Builder};

/// The records of each stream say one library.
pub fn one_library()
    ensures one { (items : List Item) (a b : Library) → ReadsAs items a → ReadsAs items b → a ≡ b }
    ensures some { (items : List Item) → IsStream (types_of items) → (library : Library) × ReadsAs items library }
{}

/// A list of records is refused in one way at most, and in none where it is accepted.
pub fn one_refusal()
    ensures one { (precision : ℕ) (items : List Item) (a b : LayoutRefusal) → IsRefused precision items a → IsRefused precision items b → a ≡ b }
    ensures not_both { (precision : ℕ) (items : List Item) (a : LayoutRefusal) → AreAccepted precision items → IsRefused precision items a → ⊥ }
{
    gds_facts::one_refusal();
}

/// What a reader has taken up to an ENDLIB is a whole stream, so `finish` gives its library.
pub fn endlib_ends_a_stream()
    ensures { (items : List Item) (last : Item) (builder : Builder) → last.kind ≡ endlib → Follows (items ++ last ∷ []) builder → IsStream (types_of (items ++ last ∷ [])) }
{
    gds_grammar::slots_are_of_fronts();
}
