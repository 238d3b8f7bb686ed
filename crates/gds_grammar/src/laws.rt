//! The laws of the grammar. Each is a statement, and does nothing when it is called.

ghost use Rattle.std.specs.Prelude.{◌≡◌, ◌↔◌, ℕ, List, ◌++◌};
ghost use Rattle.gds_grammar.specs.declared.slot.Slot.{Slot};
ghost use Rattle.gds_grammar.specs.Grammar.{IsStream, IsFront};
ghost use Rattle.gds_grammar.specs.Slots.{StandsBehind};

/// A list of types is a front of a stream exactly where more types can complete it to those of one.
pub fn front_is_a_front()
    ensures front { (types more : List ℕ) → IsStream (types ++ more) → IsFront types }
    ensures completed { (types : List ℕ) → IsFront types → (more : List ℕ) × IsStream (types ++ more) }
{}

/// A slot stands only behind a front of a stream, and behind each front of a stream stands one; behind a whole stream,
/// and behind nothing else, it is the end.
pub fn slots_are_of_fronts()
    ensures front { (types : List ℕ) (slot : Slot) → StandsBehind types slot → IsFront types }
    ensures slot { (types : List ℕ) → IsFront types → (slot : Slot) × StandsBehind types slot }
    ensures whole { (types : List ℕ) (slot : Slot) → StandsBehind types slot → IsStream types ↔ (slot ≡ Slot.End) }
{}
