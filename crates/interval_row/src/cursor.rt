//! A cursor over the ends of a row's spans.

ghost use Rattle.std.specs.Prelude.{◌≡◌};
ghost use Rattle.interval_row.specs.Working.Walk.{next_end, spans_past, inside_past, earlier};

use crate::span::Span;

/// What is left of a row: the spans that have not ended, and whether the first of them has begun.
#[derive(Drop)]
pub struct Cursor<'a> {
    pub spans: &'a [Span],
    pub inside: bool,
}

impl Cursor<'_> {
    /// The next place where a span begins or ends.
    pub fn next_end(&self) -> Option<i64>
        ensures { result ≡ next_end self.now.inside self.now.spans.now }
    {
        match self.spans {
            [] => None,
            [first, ..] => Some(if self.inside { first.hi } else { first.lo }),
        }
    }

    /// Goes past the end at this place, where the next end is there.
    pub fn go_past(&mut self, at: i64)
        ensures spans { self.new.spans.now ≡ spans_past at self.old.inside self.old.spans.now }
        ensures inside { self.new.inside ≡ inside_past at self.old.inside self.old.spans.now }
    {
        if let [first, rest @ ..] = self.spans {
            if !self.inside {
                self.inside = first.lo == at;
            } else if first.hi == at {
                self.spans = rest;
                self.inside = false;
            }
        }
    }
}

/// The lower of two ends, either of which may be wanting.
pub fn earlier(first: Option<i64>, second: Option<i64>) -> Option<i64>
    ensures { result ≡ earlier first second }
{
    match (first, second) {
        (None, end) => end,
        (end, None) => end,
        (Some(x), Some(y)) => Some(if x <= y { x } else { y }),
    }
}
