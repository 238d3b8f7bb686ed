//! What holds of every legal history. Each law is a statement, and does nothing when it is called.

ghost use Rattle.std.specs.Prelude.{◌≡◌, ◌⊎◌, ◌↔◌, ℕ, ◌+◌, ◌*◌, ◌<◌, ◌≤◌, List, ◌∷◌, length, count_by, true, false};
ghost use Rattle.layer_model.specs.Wirings.{IsWiring, input, is_reported};
ghost use Rattle.ledger_history.specs.declared.event.Event.{Event};
ghost use Rattle.ledger_history.specs.Histories.{Setup, IsComplete, operations, is_claimed, is_published, is_released, is_finished, is_live, is_stopped, held, total};
ghost use Rattle.ledger_history.specs.Enabled.{Legal, IsNext, AllFinishedBelow};
ghost use Rattle.ledger_history.specs.Totals.{IsLowestUnfinished, live_above, greatest_solo, place_total};
ghost use Rattle.ledger_history.specs.Readers.{HasReader, IsReturnOf, LetsGo};
ghost use Rattle.ledger_history.specs.Steps.{CanGoOn, is_claim, is_charge, is_publish, is_release, is_stop, is_stop_of};

/// No two workers hold one operation, what is held is claimed, and one operation at most is next.
pub fn one_worker_holds()
    ensures one { (s : Setup) (h : List Event) (v w i : ℕ) → Legal s h → held s h v ≡ Some i → held s h w ≡ Some i → v ≡ w }
    ensures claimed { (s : Setup) (h : List Event) (w i : ℕ) → held s h w ≡ Some i → is_claimed h i ≡ true }
    ensures next { (s : Setup) (h : List Event) (i j : ℕ) → IsNext s h i → IsNext s h j → i ≡ j }
{}

/// Each input of a claimed operation is live until the release of its place, also where its worker has dropped it.
pub fn inputs_stay_live()
    ensures { (s : Setup) (h : List Event) (i k j : ℕ) → Legal s h → is_claimed h i ≡ true
        → input s.wires i k ≡ Some j → is_released h i k ≡ false → is_live s h j ≡ true }
{}

/// A published layer is live exactly while it is reported or a place that reads it is out. So a layer is let go at a
/// return of it and at no other event, and an unreported one at its last return.
pub fn layers_live_while_read()
    ensures live { (s : Setup) (h : List Event) (j : ℕ) → Legal s h → is_published h j ≡ true
        → (is_live s h j ≡ true) ↔ ((is_reported s.wires j ≡ true) ⊎ HasReader s h j) }
    ensures by_return { (s : Setup) (h : List Event) (e : Event) (j : ℕ) → IsWiring s.wires → Legal s (e ∷ h)
        → LetsGo s h e j → IsReturnOf s e j }
    ensures at_last_return { (s : Setup) (h : List Event) (e : Event) (j : ℕ) → Legal s (e ∷ h) → IsReturnOf s e j
        → is_reported s.wires j ≡ false → (HasReader s (e ∷ h) j → ⊥) → LetsGo s h e j }
{}

/// After a charge the total is within the budget, or every lower operation is finished.
pub fn charges_are_admitted()
    ensures { (s : Setup) (h : List Event) (w i c : ℕ) → Legal s (Event.Charge w i c ∷ h)
        → (total s (Event.Charge w i c ∷ h) ≤ s.budget) ⊎ AllFinishedBelow s (Event.Charge w i c ∷ h) i }
{}

/// What is live above the lowest unfinished operation stays within the budget. The total stays within the budget and the
/// greatest solo cost.
pub fn budget_holds()
    ensures above { (s : Setup) (h : List Event) (m : ℕ) → Legal s h → IsLowestUnfinished s h m → live_above s h m ≤ s.budget }
    ensures total { (s : Setup) (h : List Event) → Legal s h → total s h ≤ s.budget + greatest_solo s }
{}

/// A complete history has a claim, a charge and a publish for each operation and a release for each place, and exactly
/// the reported layers are live after it.
pub fn complete_histories_have_each_event()
    ensures claims { (s : Setup) (h : List Event) → Legal s h → IsComplete s h → count_by is_claim h ≡ operations s }
    ensures charges { (s : Setup) (h : List Event) → Legal s h → IsComplete s h → count_by is_charge h ≡ operations s }
    ensures publishes { (s : Setup) (h : List Event) → Legal s h → IsComplete s h → count_by is_publish h ≡ operations s }
    ensures releases { (s : Setup) (h : List Event) → IsWiring s.wires → Legal s h → IsComplete s h → count_by is_release h ≡ place_total s }
    ensures live { (s : Setup) (h : List Event) (j : ℕ) → Legal s h → IsComplete s h → j < operations s → is_live s h j ≡ is_reported s.wires j }
{}

/// A legal history has no more events than a complete one, and at most one stop of each worker.
pub fn histories_are_short()
    ensures length { (s : Setup) (h : List Event) → Legal s h → length h ≤ 3 * operations s + place_total s + count_by is_stop h }
    ensures once { (s : Setup) (h : List Event) (w : ℕ) → Legal s h → count_by (is_stop_of w) h ≤ 1 }
    ensures stops { (s : Setup) (h : List Event) → Legal s h → count_by is_stop h ≤ s.workers }
{}

/// Where the run isn't stopped and some operation isn't finished, an event other than a stop may happen, of a worker that
/// has claimed, or nobody has.
pub fn runs_go_on()
    ensures { (s : Setup) (h : List Event) (i : ℕ) → IsWiring s.wires → 0 < s.workers → Legal s h
        → is_stopped h ≡ false → i < operations s → is_finished s h i ≡ false → CanGoOn s h }
{}
