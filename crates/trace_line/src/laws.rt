//! What holds of all lines. The law is a statement, and does nothing when it is called.

ghost use Rattle.std.specs.Prelude.{◌≡◌, List, ℕ};
ghost use Rattle.trace_line.specs.declared.line.Line.{Line};
ghost use Rattle.trace_line.specs.Lines.{Begins};

/// At the front of a text stands at most one line.
pub fn one_line_at_a_front()
    ensures { (text : List ℕ) (k l : Line) (a b : List ℕ) → Begins text k a → Begins text l b → (k ≡ l) × (a ≡ b) }
{}
