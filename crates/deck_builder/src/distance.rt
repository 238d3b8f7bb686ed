//! Checks of distances.

ghost use Rattle.std.specs.Prelude.{◌≡◌, IfOk};
ghost use Rattle.deck_grammar.specs.Rules as r;
ghost use Rattle.deck_cursor.specs.Steps.{Reads};
ghost use Rattle.deck_builder.specs.Choices.{left_of};
ghost use Rattle.deck_builder.specs.Inputs.{ReadsInput, ReadsSecond, is_bracketed, second_is_bracketed, may_have_gap, go_together, options_with};

use crate::bounds::bound;
use crate::options::{Left, options};
use crate::tokens::{name, sign};
use deck_cursor::{Cursor, Stop};
use deck_grammar::{Kind, Sign};
use deck_tree::{Distance, DistanceKind, Input};
use std::alloc::Global;

// A layer's name, or one in square brackets.
fn input(alloc: Global, cursor: &mut Cursor<'_>) -> Result<Input, Stop>
    ensures { IfOk result (λ it. ReadsInput cursor.old cursor.new it) }
{
    match cursor.peek() {
        Some(Kind::Sign(Sign::LeftSquare)) => {
            let at = sign(cursor, Sign::LeftSquare)?;
            let name = name(alloc, cursor)?;
            sign(cursor, Sign::RightSquare)?;
            Ok(Input::Bracketed(at, name))
        }
        _ => Ok(Input::Plain(name(alloc, cursor)?)),
    }
}

// The second input, if one comes.
fn second_input(alloc: Global, cursor: &mut Cursor<'_>) -> Result<Option<Input>, Stop>
    ensures { IfOk result (λ it. ReadsSecond cursor.old cursor.new it) }
{
    match cursor.peek() {
        Some(Kind::Name | Kind::Sign(Sign::LeftSquare)) => Ok(Some(input(alloc, cursor)?)),
        _ => Ok(None),
    }
}

fn is_bracketed(input: &Input) -> bool
    ensures { result ≡ is_bracketed input.now }
{
    matches!(input, Input::Bracketed(_, _))
}

fn second_is_bracketed(second: &Option<Input>) -> bool
    ensures { result ≡ second_is_bracketed second.now }
{
    match second {
        Some(input) => is_bracketed(input),
        None => false,
    }
}

// ENC has two inputs, and of two inputs one at most is bracketed.
fn go_together(kind: DistanceKind, first: &Input, second: &Option<Input>) -> bool
    ensures { result ≡ go_together kind first.now second.now }
{
    match (kind, second) {
        (DistanceKind::Enclosure, None) => false,
        (_, None) => true,
        (_, Some(second)) => !is_bracketed(first) || !is_bracketed(second),
    }
}

// NOTCH and SPACE stand only in EXT with one input.
fn may_have_gap(kind: DistanceKind, second: &Option<Input>) -> bool
    ensures { result ≡ may_have_gap kind second.now }
{
    matches!((kind, second), (DistanceKind::External, None))
}

// The options that may stand: REGION only where no input is bracketed.
fn options_with(kind: DistanceKind, first: &Input, second: &Option<Input>) -> Left
    ensures { left_of result ≡ options_with kind first.now second.now }
{
    Left {
        abut: true,
        singular: true,
        metric: true,
        gap: may_have_gap(kind, second),
        region: !(is_bracketed(first) || second_is_bracketed(second)),
    }
}

/// A check of this kind, behind its first word.
#[tactic(auto, using(crate::proofs::DistanceRules::read_distance))]
pub fn distance(
    alloc: Global,
    cursor: &mut Cursor<'_>,
    kind: DistanceKind,
) -> Result<Distance, Stop>
    ensures { IfOk result (λ it. Reads (r.distance kind) cursor.old cursor.new it) }
{
    let first = input(alloc, cursor)?;
    let second = second_input(alloc, cursor)?;
    if !go_together(kind, &first, &second) {
        return Err(Stop::Wrong);
    }
    let bound = bound(alloc, cursor)?;
    let left = options_with(kind, &first, &second);
    let options = options(alloc, cursor, left)?;
    Ok(Distance {
        kind,
        first,
        second,
        bound,
        options,
    })
}
