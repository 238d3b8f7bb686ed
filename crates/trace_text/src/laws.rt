//! What holds of all texts. Each law is a statement, and does nothing when it is called.

ghost use Rattle.std.specs.Prelude.{◌≡◌, ◌⊎◌, List, ℕ};
ghost use Rattle.trace_text.specs.Traces.{Told, Spells};
ghost use Rattle.trace_text.specs.Refusals.{IsSyntaxFault};

/// A text is that of at most one trace.
pub fn one_trace_a_text()
    ensures { (text : List ℕ) (t u : Told) → Spells text t → Spells text u → t ≡ u }
{}

/// The text of a trace is at fault at no line, and every other one at one line at most.
pub fn spelled_or_at_fault()
    ensures spelled { (text : List ℕ) (t : Told) (line : ℕ) → Spells text t → IsSyntaxFault text line → ⊥ }
    ensures once { (text : List ℕ) (j k : ℕ) → IsSyntaxFault text j → IsSyntaxFault text k → j ≡ k }
{}

/// Every text is that of a trace, or at fault at some line.
pub fn a_trace_or_a_fault()
    ensures { (text : List ℕ) → ((t : Told) × Spells text t) ⊎ ((line : ℕ) × IsSyntaxFault text line) }
{}
