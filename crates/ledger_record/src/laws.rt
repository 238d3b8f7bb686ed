//! How a record grows. The law is a statement, and does nothing when it is called.

ghost use Rattle.std.specs.Prelude.{◌≡◌, List, [], ◌∷◌, ◌++◌, length};
ghost use Rattle.ledger_history.specs.declared.event.Event.{Event};
ghost use Rattle.ledger_record.specs.Records.{past_of};

/// An event at the end of the events is the newest one of their past, and the past of a front of them is what the whole
/// past has behind its newest events.
pub fn a_record_grows_at_its_end()
    ensures none { past_of [] ≡ [] }
    ensures one { (events : List Event) (e : Event) → past_of (events ++ e ∷ []) ≡ e ∷ past_of events }
    ensures more { (events later : List Event) → past_of (events ++ later) ≡ past_of later ++ past_of events }
    ensures length { (events : List Event) → length (past_of events) ≡ length events }
{}
