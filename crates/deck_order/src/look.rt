//! How a walk looks at the uses of the last definition on its way.

ghost use Rattle.std.specs.Prelude.{◌≡◌, ℕ, ◌+◌, ◌<◌, ◌^◌, length, Some, slice_get, IfSome, IfNone};
ghost use Rattle.deck_order.specs.declared.mark.Mark.TheVariants.{Unseen};
ghost use Rattle.deck_order.specs.declared.step.Step.{Step};
ghost use Rattle.deck_order.specs.Uses.{used_by, AreWithin};
ghost use Rattle.deck_order.specs.Working.Walks.{stage_of, IsWalk, IsLast, MayOpen, HasNoMore, IsJoined, IsPassed, looked};

use crate::mark::{Mark, is_unseen};
use crate::step::Step;
use crate::walk::Walk;

/// Looks at the uses of the last definition on the way, up to one that the walk hasn't come to.
pub(crate) fn look(uses: &[Vec<u32>], walk: &mut Walk) -> Option<u32>
    requires walk { IsWalk uses.now (stage_of walk.old) }
    requires within { AreWithin uses.now }
    requires way { 0 < length walk.old.path.items }
    ensures walk { IsWalk uses.now (stage_of walk.new) }
    ensures marks { walk.new.marks.items ≡ walk.old.marks.items }
    ensures way { length walk.new.path.items ≡ length walk.old.path.items }
    ensures unseen { IfSome result (λ v. slice_get walk.new.marks.items v ≡ Some Unseen) }
    ensures used { IfSome result (λ v. MayOpen uses.now walk.new.path.items v) }
    ensures none { IfNone result (HasNoMore uses.now walk.new.path.items) }
{
    while let Some(used) = next_use(uses, &walk.path) {
        let mark = walk.marks[used as usize];
        if is_unseen(mark) {
            return Some(used);
        }
        pass(walk, mark);
    }
    None
}

/// Passes a use of the last definition on the way, of a definition with this mark.
fn pass(walk: &mut Walk, mark: Mark)
    requires way { 0 < length walk.old.path.items }
    requires room { (f : Step) → IsLast walk.old.path.items f → f.next + 1 < 2 ^ 64 }
    ensures { IsPassed (stage_of walk.old) (stage_of walk.new) mark }
{
    go_past(&mut walk.path);
    if let Mark::Open(at) = mark {
        join(&mut walk.bounds, at);
    }
}

/// The next use of the last definition on the way.
fn next_use(uses: &[Vec<u32>], path: &[Step]) -> Option<u32>
    requires way { 0 < length path.now }
    requires there { (f : Step) → IsLast path.now f → f.definition < length uses.now }
    ensures next { (f : Step) → IsLast path.now f → result ≡ slice_get (used_by uses.now f.definition) f.next }
    ensures room { IfSome result (λ v. (f : Step) → IsLast path.now f → f.next + 1 < 2 ^ 64) }
{
    let last = path[path.len() - 1];
    let used: &[u32] = &uses[last.definition as usize];
    if last.next < used.len() {
        Some(used[last.next])
    } else {
        None
    }
}

/// Makes one group of all open definitions from a place on, with those of its group.
fn join(bounds: &mut Vec<usize>, at: usize)
    ensures { IsJoined at bounds.old.items bounds.new.items }
{
    while let Some(bound) = bounds.last().copied() {
        if bound <= at {
            return;
        }
        bounds.pop();
    }
}

/// Goes past a use of the last definition on the way.
fn go_past(path: &mut [Step])
    requires way { 0 < length path.old }
    requires room { (f : Step) → IsLast path.old f → f.next + 1 < 2 ^ 64 }
    ensures { path.new ≡ looked path.old }
{
    let last = path.len() - 1;
    path[last].next += 1;
}
