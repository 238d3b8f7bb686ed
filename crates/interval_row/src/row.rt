//! A row of spans, and what its callers see of it.

ghost use Rattle.std.specs.Prelude.{◌≡◌, ◌<ℤ◌, ℤ, [], ◌∷◌, ◌++◌, ◌&&◌, ◌||◌, not, OnOk, OnErr, IfOk};
ghost use Rattle.list_facts.specs.Between.{between};
ghost use Rattle.list_facts.specs.EitherOr.{exactly_one};
ghost use Rattle.interval_row.specs.Rows.{IsRow, StandsBehind, has};

use crate::operation::Operation;
use crate::span::Span;
use crate::walk::combine;
use std::alloc::{AllocError, Global};
use std::marker::Model;

/// A set of places on a line, as ascending spans that neither overlap nor touch.
#[derive(Debug, Drop)]
pub struct Row {
    alloc: Global,
    spans: Vec<Span>,
}

impl Model for Row {
    ghost use Rattle.std.specs.Prelude.{List};
    ghost use Rattle.interval_row.specs.declared.span.Span.{Span};
    ghost use Rattle.interval_row.specs.Rows.{IsRow};

    ghost Value = { List Span };

    ghost view = { λ r. r.spans.items };

    ghost invariant = { λ r. IsRow r.spans.items };
}

impl Row {
    /// The row that has no place.
    pub fn new(alloc: Global) -> Row
        ensures { result ≡ [] }
    {
        Row {
            alloc,
            spans: Vec::new(alloc),
        }
    }

    /// The row of the places that some span has, in about as many steps for each span as the row has spans by then.
    /// The spans may stand in any order, meet, and have no place. Only want of memory is an error.
    pub fn gather(alloc: Global, spans: &[Span]) -> Result<Row, AllocError>
        ensures { IfOk result (λ row. (x : ℤ) → has row x ≡ has spans.now x) }
    {
        let mut row = Row::new(alloc);
        for &span in spans {
            row = row.with(span)?;
        }
        Ok(row)
    }

    // The row with the places of one span more.
    fn with(&self, span: Span) -> Result<Row, AllocError>
        ensures { IfOk result (λ row. (x : ℤ) → has row x ≡ (has self.now x || between span.lo span.hi x)) }
    {
        let mut one = Row::new(self.alloc);
        if span.lo < span.hi {
            one.push_end(span.lo, span.hi)?;
        }
        self.or(&one)
    }

    /// Adds the places lo to hi - 1, which lie behind all others with a gap between.
    /// Where memory is wanting, nothing changes.
    pub fn push_end(&mut self, lo: i64, hi: i64) -> Result<(), AllocError>
        requires not_empty { lo <ℤ hi }
        requires behind { StandsBehind self.old lo }
        ensures ok { OnOk result (self.new ≡ self.old ++ record { lo = lo; hi = hi } ∷ []) }
        ensures err { OnErr result (self.new ≡ self.old) }
    {
        self.spans.push(Span { lo, hi })?;
        Ok(())
    }

    /// Adds spans that lie behind all others with a gap between. Where memory is wanting, nothing changes.
    pub(crate) fn append(&mut self, spans: &[Span]) -> Result<(), AllocError>
        requires { IsRow (self.old ++ spans.now) }
        ensures ok { OnOk result (self.new ≡ self.old ++ spans.now) }
        ensures err { OnErr result (self.new ≡ self.old) }
    {
        self.spans.extend_from_slice(spans)
    }

    /// The places that both rows have. Only want of memory is an error.
    pub fn and(&self, other: &Row) -> Result<Row, AllocError>
        ensures { IfOk result (λ row. (x : ℤ) → has row x ≡ (has self.now x && has other.now x)) }
    {
        combine(Operation::And, self.list(), other.list(), self.alloc)
    }

    /// The places that at least one of the rows has. Only want of memory is an error.
    pub fn or(&self, other: &Row) -> Result<Row, AllocError>
        ensures { IfOk result (λ row. (x : ℤ) → has row x ≡ (has self.now x || has other.now x)) }
    {
        combine(Operation::Or, self.list(), other.list(), self.alloc)
    }

    /// The places that this row has and the other does not. Only want of memory is an error.
    pub fn not(&self, other: &Row) -> Result<Row, AllocError>
        ensures { IfOk result
            (λ row. (x : ℤ) → has row x ≡ (has self.now x && not (has other.now x))) }
    {
        combine(Operation::Not, self.list(), other.list(), self.alloc)
    }

    /// The places that exactly one of the rows has. Only want of memory is an error.
    pub fn xor(&self, other: &Row) -> Result<Row, AllocError>
        ensures { IfOk result
            (λ row. (x : ℤ) → has row x ≡ exactly_one (has self.now x) (has other.now x)) }
    {
        combine(Operation::Xor, self.list(), other.list(), self.alloc)
    }

    /// Whether the row has this place.
    pub fn covers(&self, x: i64) -> bool
        ensures { result ≡ has self.now x }
    {
        finds(self.list(), x)
    }

    /// The spans, in ascending order.
    pub fn list(&self) -> &[Span]
        ensures spans { result.now ≡ self.now }
        ensures row { IsRow result.now }
    {
        self.spans.as_slice()
    }
}

// Halves the spans that may have the place, those from low to high - 1, until one has it or none is left.
fn finds(spans: &[Span], x: i64) -> bool
    requires { IsRow spans.now }
    ensures { result ≡ has spans.now x }
{
    let mut low = 0;
    let mut high = spans.len();
    while low < high {
        let middle = low + (high - low) / 2;
        let span = spans[middle];
        if x < span.lo {
            high = middle;
        } else if span.hi <= x {
            low = middle + 1;
        } else {
            return true;
        }
    }
    false
}
