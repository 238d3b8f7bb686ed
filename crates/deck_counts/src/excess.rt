//! What a deck has one more of than it may have.

ghost use Rattle.std.specs.Prelude.{◌≡◌, IfOk};
ghost use Rattle.deck_counts.specs.Excess.{excess, first_of, first_excess};

use crate::check_places::checks;
use crate::operation_places::operations;
use crate::output_places::outputs;
use deck_tree::{Counted, Deck, DeckKind, DeckRefusal};
use std::alloc::{AllocError, Global};

/// How many operations, checks or outputs a deck may have.
const MOST: usize = 4_096;

/// The first of the facts that the deck has an operation, a check or an output too many: each stands at the 4,097th. At
/// one offset they stand in this order. Only want of memory is an error.
pub fn first_excess(alloc: Global, deck: &Deck) -> Result<Option<DeckRefusal>, AllocError>
    ensures { IfOk result (λ found. found ≡ first_excess deck.now) }
{
    let of_operations = excess(Counted::Operations, &operations(alloc, deck)?);
    let of_checks = excess(Counted::Checks, &checks(alloc, deck)?);
    let of_outputs = excess(Counted::Outputs, &outputs(alloc, deck)?);
    Ok(first_of(of_operations, first_of(of_checks, of_outputs)))
}

// The fact that there are too many of them, if so.
fn excess(what: Counted, places: &[u64]) -> Option<DeckRefusal>
    ensures { result ≡ excess what places.now }
{
    match places.get(MOST) {
        None => None,
        Some(at) => Some(DeckRefusal {
            at: *at,
            kind: DeckKind::TooMany(what),
        }),
    }
}

// The one of the lesser offset; at one offset the first.
fn first_of(a: Option<DeckRefusal>, b: Option<DeckRefusal>) -> Option<DeckRefusal>
    ensures { result ≡ first_of a b }
{
    match (a, b) {
        (None, b) => b,
        (Some(a), None) => Some(a),
        (Some(a), Some(b)) => Some(if b.at < a.at { b } else { a }),
    }
}
