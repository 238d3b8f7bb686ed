//! The first fact of a list of records.

ghost use Rattle.std.specs.Prelude.{◌≡◌, ◌≤◌, map, IfNone, IfSome};
ghost use Rattle.gds_records.specs.Stream.{item_of};
ghost use Rattle.gds_facts.specs.Facts.{AreFine, IsRefused};

use crate::Checker;
use gds_records::{LayoutRefusal, Record};

/// The first fact of these records, at the beginning of a stream, for which it is refused up to its units; None where
/// they are the front of a stream and have no such fact.
pub fn first_fact(records: &[Record], precision: u32) -> Option<LayoutRefusal>
    requires { (1 ≤ precision) × (precision ≤ 1000000) }
    ensures fine { IfNone result (AreFine precision (map item_of records.now)) }
    ensures refused { IfSome result (λ refusal. IsRefused precision (map item_of records.now) refusal) }
{
    let mut checker = Checker::new(precision);
    for item in records {
        if let Err(refusal) = checker.take(item) {
            return Some(refusal);
        }
    }
    None
}
