//! What holds of all texts. Each law is a statement, and does nothing when it is called.

ghost use Rattle.std.specs.Prelude.{◌≡◌, ◌≤◌, List, ℕ, length};
ghost use Rattle.layer_model.specs.declared.wiring.Wire.{Wire};
ghost use Rattle.ledger_record.specs.declared.history.History.{History};
ghost use Rattle.ledger_record.specs.Records.{IsLegalFor, IsCompleteFor};
ghost use Rattle.trace_text.specs.declared.fault.TraceReason.{TraceReason};
ghost use Rattle.trace_text.specs.declared.fault.TraceRefusal.{TraceRefusal};
ghost use Rattle.trace_text.specs.Traces.{Told, Spells, longest_trace};
ghost use Rattle.trace_text.specs.Refusals.{Terms, IsFault, IsFirstFault};
ghost use Rattle.trace_text.specs.Printed.{told_of, Prints};
ghost use Rattle.trace_replay.specs.Replays.{asking, Meets};

/// The trace of a run that was allowed and went to its end is at no fault.
pub fn replayed_has_no_fault()
    ensures { (terms : Terms) (text : List ℕ) (t : Told) (line : ℕ) (reason : TraceReason)
        → Spells text t → length text ≤ longest_trace → Meets terms t → IsFault terms text line reason → ⊥ }
{}

/// A text has at most one first fault.
pub fn one_first_fault()
    ensures { (terms : Terms) (text : List ℕ) (q r : TraceRefusal) → IsFirstFault terms text q → IsFirstFault terms text r → q ≡ r }
{}

/// What is printed of a history that is legal and complete for a wiring, of 1 to 64 workers, is the trace of a run that
/// was allowed and went to its end.
pub fn a_printed_history_is_replayed()
    ensures { (ws : List Wire) (cost : ℕ → ℕ) (h : History) (text : List ℕ) → IsLegalFor ws cost h → IsCompleteFor ws h
        → 1 ≤ h.workers → h.workers ≤ 64 → Prints h text
        → (costs : List ℕ) × Spells text (told_of h costs) × Meets (asking ws None None) (told_of h costs) }
{}
