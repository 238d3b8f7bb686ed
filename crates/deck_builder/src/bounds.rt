//! Bounds, and which areas or lengths are kept.

ghost use Rattle.std.specs.Prelude.{IfOk};
ghost use Rattle.deck_grammar.specs.Rules as r;
ghost use Rattle.deck_cursor.specs.Steps.{Reads};

use crate::tokens::sign;
use crate::value::value;
use deck_cursor::{Cursor, Stop};
use deck_grammar::{Kind, Sign};
use deck_tree::{Above, Below, Bound, Limits};
use sqlite_items::Boxed;
use std::alloc::Global;

/// `<` or `<=` and a value.
#[tactic(auto, using(crate::proofs::CheckRules::bound_below, crate::proofs::CheckRules::bound_at_most))]
pub fn bound(alloc: Global, cursor: &mut Cursor<'_>) -> Result<Bound, Stop>
    ensures { IfOk result (λ it. Reads r.bound cursor.old cursor.new it) }
{
    match cursor.peek() {
        Some(Kind::Sign(Sign::Less)) => {
            sign(cursor, Sign::Less)?;
            let value = value(alloc, cursor)?;
            Ok(Bound {
                sign: Below::Less,
                value,
            })
        }
        _ => {
            sign(cursor, Sign::LessOrEqual)?;
            let value = value(alloc, cursor)?;
            Ok(Bound {
                sign: Below::LessOrEqual,
                value,
            })
        }
    }
}

// A bound from above, behind one from below, or nothing.
#[tactic(auto, using(crate::proofs::CheckRules::as_upper, crate::proofs::CheckRules::no_upper))]
fn upper(alloc: Global, cursor: &mut Cursor<'_>) -> Result<Option<Boxed<Bound>>, Stop>
    ensures { IfOk result (λ it. Reads r.upper cursor.old cursor.new it) }
{
    match cursor.peek() {
        Some(Kind::Sign(Sign::Less | Sign::LessOrEqual)) => {
            let bound = bound(alloc, cursor)?;
            Ok(Some(Boxed::new(alloc, bound)?))
        }
        _ => Ok(None),
    }
}

/// Which areas or lengths are kept.
#[tactic(auto, using(crate::proofs::CheckRules::equal_limit, crate::proofs::CheckRules::unequal_limit, crate::proofs::CheckRules::above_limit, crate::proofs::CheckRules::at_least_limit, crate::proofs::CheckRules::as_limits))]
pub fn limits(alloc: Global, cursor: &mut Cursor<'_>) -> Result<Limits, Stop>
    ensures { IfOk result (λ it. Reads r.limits cursor.old cursor.new it) }
{
    match cursor.peek() {
        Some(Kind::Sign(Sign::EqualTo)) => {
            sign(cursor, Sign::EqualTo)?;
            Ok(Limits::Equal(value(alloc, cursor)?))
        }
        Some(Kind::Sign(Sign::NotEqual)) => {
            sign(cursor, Sign::NotEqual)?;
            Ok(Limits::NotEqual(value(alloc, cursor)?))
        }
        Some(Kind::Sign(Sign::Greater)) => {
            sign(cursor, Sign::Greater)?;
            let least = value(alloc, cursor)?;
            Ok(Limits::Above(Above::Greater, least, upper(alloc, cursor)?))
        }
        Some(Kind::Sign(Sign::GreaterOrEqual)) => {
            sign(cursor, Sign::GreaterOrEqual)?;
            let least = value(alloc, cursor)?;
            Ok(Limits::Above(Above::GreaterOrEqual, least, upper(alloc, cursor)?))
        }
        _ => Ok(Limits::Below(bound(alloc, cursor)?)),
    }
}
