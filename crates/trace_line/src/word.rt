//! The word at the front of a line.

ghost use Rattle.std.specs.Prelude.{◌≡◌};
ghost use Rattle.trace_line.specs.Working.Reading.{Gives, after_words, word_of_header, word_at};

/// The words with which lines begin.
#[derive(Clone, Copy, Debug, PartialEq, Eq)]
pub enum Word {
    Title,
    Operations,
    Workers,
    Budget,
    Cost,
    Claim,
    Charge,
    Publish,
    Release,
    End,
}

/// The bytes after these words, where the text begins with them.
#[tactic(auto, unfolding(crate::specs::Working::Reading::after_words))]
pub fn after<'a>(text: &'a [u8], words: &[u8]) -> Option<&'a [u8]>
    ensures { Gives (λ x. x.now) result (after_words words.now text.now) }
{
    text.strip_prefix(words)
}

#[tactic(auto, unfolding(crate::specs::Working::Reading::word_of_header, crate::specs::Lines::title, crate::specs::Lines::before_operations, crate::specs::Lines::before_workers, crate::specs::Lines::before_budget, crate::specs::Lines::before_cost))]
fn word_of_header(text: &[u8]) -> Option<(Word, &[u8])>
    ensures { Gives (λ x. (x.0, x.1.now)) result (word_of_header text.now) }
{
    if let Some(rest) = after(text, b"cost ") {
        Some((Word::Cost, rest))
    } else if let Some(rest) = after(text, b"DRCTRACE 1\n") {
        Some((Word::Title, rest))
    } else if let Some(rest) = after(text, b"operations ") {
        Some((Word::Operations, rest))
    } else if let Some(rest) = after(text, b"workers ") {
        Some((Word::Workers, rest))
    } else if let Some(rest) = after(text, b"budget ") {
        Some((Word::Budget, rest))
    } else {
        None
    }
}

/// The word at the front of the text, and the bytes after it: its numbers, or the next line.
#[tactic(auto, unfolding(crate::specs::Working::Reading::word_at, crate::specs::Lines::before_claim, crate::specs::Lines::before_charge, crate::specs::Lines::before_publish, crate::specs::Lines::before_release, crate::specs::Lines::last_line))]
pub fn first_word(text: &[u8]) -> Option<(Word, &[u8])>
    ensures { Gives (λ x. (x.0, x.1.now)) result (word_at text.now) }
{
    if let Some(rest) = after(text, b"claim ") {
        Some((Word::Claim, rest))
    } else if let Some(rest) = after(text, b"charge ") {
        Some((Word::Charge, rest))
    } else if let Some(rest) = after(text, b"publish ") {
        Some((Word::Publish, rest))
    } else if let Some(rest) = after(text, b"release ") {
        Some((Word::Release, rest))
    } else if let Some(rest) = after(text, b"end\n") {
        Some((Word::End, rest))
    } else {
        word_of_header(text)
    }
}
