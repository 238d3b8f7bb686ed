//! One walk over the ends of two rows.

ghost use Rattle.std.specs.Prelude.{◌≡◌, ◌≤◌, ◌++◌, ℤ, false, length, take, IfOk, OnOk};
ghost use Rattle.interval_row.specs.Working.Operations.{joined};
ghost use Rattle.interval_row.specs.Rows.{IsRow, StandsBehind, has};
ghost use Rattle.interval_row.specs.Working.Walk.{EndBefore, PassesAlone, Skips, rest_of, walk_of};

use crate::cursor::{Cursor, earlier};
use crate::operation::Operation;
use crate::pen::Pen;
use crate::row::Row;
use crate::span::Span;
use std::alloc::{AllocError, Global};

/// The places that the operation keeps of two rows. Only want of memory is an error.
pub fn combine(
    operation: Operation,
    first: &[Span],
    second: &[Span],
    alloc: Global,
) -> Result<Row, AllocError>
    requires first { IsRow first.now }
    requires second { IsRow second.now }
    ensures { IfOk result
        (λ row. (x : ℤ) → has row x ≡ joined operation (has first.now x) (has second.now x)) }
{
    let mut a = Cursor {
        spans: first,
        inside: false,
    };
    let mut b = Cursor {
        spans: second,
        inside: false,
    };
    let mut pen = Pen::new(alloc);
    while let Some(at) = earlier(a.next_end(), b.next_end()) {
        a.go_past(at);
        b.go_past(at);
        pen.turn(at, operation.keeps(a.inside, b.inside))?;
        skip_common(operation, &mut a, &mut b);
        pass_alone(operation, &mut a, &b, &mut pen)?;
    }
    let Pen { row, begun: _ } = pen;
    Ok(row)
}

// Goes past the spans that come next in both rows, where the operation keeps nothing of them. Rows that stand above one
// another mostly have the same spans.
fn skip_common(operation: Operation, a: &mut Cursor<'_>, b: &mut Cursor<'_>)
    ensures { Skips operation (rest_of a.old) (rest_of b.old) (rest_of a.new) (rest_of b.new) }
{
    if a.inside || b.inside || operation.keeps(true, true) {
        return;
    }
    let common = common_front(a.spans, b.spans);
    a.spans = &a.spans[common..];
    b.spans = &b.spans[common..];
}

// Goes past the spans of the first row that end before the second row's next end, and keeps them whole or drops them:
// where one of the rows has few spans, those of the other are not looked at one by one.
fn pass_alone(
    operation: Operation,
    a: &mut Cursor<'_>,
    b: &Cursor<'_>,
    pen: &mut Pen,
) -> Result<(), AllocError>
    requires { a.old.inside ≡ false → b.now.inside ≡ false → IsRow (pen.old.row ++ a.old.spans.now) }
    ensures { OnOk result (PassesAlone operation (walk_of a.old b.now pen.old) (walk_of a.new b.now pen.new)) }
{
    if a.inside || b.inside {
        return Ok(());
    }
    let count = ended_before(a.spans, b.next_end());
    if operation.keeps(true, false) {
        pen.row.append(&a.spans[..count])?;
    }
    a.spans = &a.spans[count..];
    Ok(())
}

// How many spans at the front end before a place, or all where none is given.
fn ended_before(spans: &[Span], place: Option<i64>) -> usize
    ensures within { result ≤ length spans.now }
    ensures ended { EndBefore place (take result spans.now) }
{
    match place {
        None => spans.len(),
        Some(place) => ended_below(spans, place),
    }
}

fn ended_below(spans: &[Span], place: i64) -> usize
    ensures within { result ≤ length spans.now }
    ensures ended { StandsBehind (take result spans.now) place }
{
    let mut count = 0;
    while count < spans.len() && spans[count].hi < place {
        count += 1;
    }
    count
}

// How many spans at the front both rows have.
fn common_front(first: &[Span], second: &[Span]) -> usize
    ensures first { result ≤ length first.now }
    ensures second { result ≤ length second.now }
    ensures same { take result first.now ≡ take result second.now }
{
    let mut common = 0;
    while common < first.len() && common < second.len() && first[common] == second[common] {
        common += 1;
    }
    common
}
