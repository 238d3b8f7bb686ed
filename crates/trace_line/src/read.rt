//! A line at the front of a text.

ghost use Rattle.std.specs.Prelude.{◌≡◌, List, ℕ, ◌≤◌, IfSome, IfNone};
ghost use Rattle.trace_line.specs.declared.line.Line.{Line};
ghost use Rattle.trace_line.specs.Lines.{Begins};
ghost use Rattle.trace_line.specs.Working.Reading.{Gives, two_at, three_at, body_at, line_at, most_32, most_64};

use crate::line::Line;
use crate::number::{number_before, small_before};
use crate::word::{Word, first_word};
use ledger_history::Event;

#[tactic(auto, unfolding(crate::specs::Working::Reading::two_at, crate::specs::Lines::space, crate::specs::Lines::line_feed))]
fn two(text: &[u8]) -> Option<(u32, u32, &[u8])>
    ensures { Gives (λ x. (x.0, x.1, x.2.now)) result (two_at most_32 text.now) }
{
    let (a, rest) = small_before(text, b" ")?;
    let (b, rest) = small_before(rest, b"\n")?;
    Some((a, b, rest))
}

/// Two numbers, of which the second is of 64 bits.
#[tactic(auto, unfolding(crate::specs::Working::Reading::two_at, crate::specs::Lines::space, crate::specs::Lines::line_feed))]
fn two_wide(text: &[u8]) -> Option<(u32, u64, &[u8])>
    ensures { Gives (λ x. (x.0, x.1, x.2.now)) result (two_at most_64 text.now) }
{
    let (a, rest) = small_before(text, b" ")?;
    let (b, rest) = number_before(rest, u64::MAX, b"\n")?;
    Some((a, b, rest))
}

#[tactic(auto, unfolding(crate::specs::Working::Reading::three_at, crate::specs::Lines::space))]
fn three(text: &[u8]) -> Option<(u32, u32, u32, &[u8])>
    ensures { Gives (λ x. (x.0, x.1, x.2, x.3.now)) result (three_at most_32 text.now) }
{
    let (a, rest) = small_before(text, b" ")?;
    let (b, c, rest) = two(rest)?;
    Some((a, b, c, rest))
}

/// Three numbers, of which the last is of 64 bits.
#[tactic(auto, unfolding(crate::specs::Working::Reading::three_at, crate::specs::Lines::space))]
fn three_wide(text: &[u8]) -> Option<(u32, u32, u64, &[u8])>
    ensures { Gives (λ x. (x.0, x.1, x.2, x.3.now)) result (three_at most_64 text.now) }
{
    let (a, rest) = small_before(text, b" ")?;
    let (b, c, rest) = two_wide(rest)?;
    Some((a, b, c, rest))
}

/// What stands after a line's word.
#[tactic(auto, unfolding(crate::specs::Working::Reading::body_at, crate::specs::Lines::line_feed))]
fn body(word: Word, text: &[u8]) -> Option<(Line, &[u8])>
    ensures { Gives (λ x. (x.0, x.1.now)) result (body_at word text.now) }
{
    match word {
        Word::Title => Some((Line::Title, text)),
        Word::Operations => {
            let (count, rest) = small_before(text, b"\n")?;
            Some((Line::Operations(count), rest))
        }
        Word::Workers => {
            let (count, rest) = small_before(text, b"\n")?;
            Some((Line::Workers(count), rest))
        }
        Word::Budget => {
            let (budget, rest) = number_before(text, u64::MAX, b"\n")?;
            Some((Line::Budget(budget), rest))
        }
        Word::Cost => {
            let (op, cost, rest) = two_wide(text)?;
            Some((Line::Cost { op, cost }, rest))
        }
        Word::Claim => {
            let (worker, op, rest) = two(text)?;
            Some((Line::Step(Event::Claim { worker, op }), rest))
        }
        Word::Charge => {
            let (worker, op, cost, rest) = three_wide(text)?;
            Some((Line::Step(Event::Charge { worker, op, cost }), rest))
        }
        Word::Publish => {
            let (worker, op, rest) = two(text)?;
            Some((Line::Step(Event::Publish { worker, op }), rest))
        }
        Word::Release => {
            let (worker, op, place, rest) = three(text)?;
            Some((Line::Step(Event::Release { worker, op, place }), rest))
        }
        Word::End => Some((Line::End, text)),
    }
}

#[tactic(auto, unfolding(crate::specs::Working::Reading::line_at))]
fn any_line(text: &[u8]) -> Option<(Line, &[u8])>
    ensures { Gives (λ x. (x.0, x.1.now)) result (line_at text.now) }
{
    let (word, rest) = first_word(text)?;
    body(word, rest)
}

/// The line at the front of the text, and what stands behind its line feed; nothing where no whole line of a trace
/// stands there. It takes no memory.
pub fn take_line(text: &[u8]) -> Option<(Line, &[u8])>
    ensures found { IfSome result (λ found. Begins text.now found.0 found.1.now) }
    ensures none { IfNone result ((l : Line) (rest : List ℕ) → Begins text.now l rest → ⊥) }
{
    any_line(text)
}
