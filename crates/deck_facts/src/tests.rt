//! Facts of small decks, and which of them is the first.

use super::*;
use deck_tree::{DeckKind, DeckRefusal};

fn fact(at: u64, kind: DeckKind) -> Option<DeckRefusal> {
    Some(DeckRefusal { at, kind })
}

#[test]
fn the_least_offset_and_then_the_least_number(rt: HostRuntime) {
    let rows: [(Option<DeckRefusal>, Option<DeckRefusal>, bool); 6] = [
        (
            fact(3, DeckKind::WrongType),
            fact(4, DeckKind::ValueRange),
            true,
        ),
        (
            fact(4, DeckKind::ValueRange),
            fact(3, DeckKind::WrongType),
            false,
        ),
        (
            fact(7, DeckKind::DuplicateName),
            fact(7, DeckKind::LayerCycle),
            true,
        ),
        (
            fact(7, DeckKind::LayerCycle),
            fact(7, DeckKind::UndefinedName),
            false,
        ),
        (fact(7, DeckKind::OffGrid), None, true),
        (None, fact(7, DeckKind::DivideByZero), false),
    ];
    for (a, b, is_first) in rows {
        assert_eq!(rt; first_of(a, b), if is_first { a } else { b });
        if let (Some(a), Some(b)) = (a, b) {
            assert_eq!(rt; comes_before(&a, &b), is_first);
        }
    }
    assert_eq!(rt; first_of(None, None), None);
}

#[test]
fn the_first_in_a_list(rt: HostRuntime) {
    let refusal = |at, kind| DeckRefusal { at, kind };
    let facts = [
        refusal(9, DeckKind::ValueRange),
        refusal(5, DeckKind::LayerCycle),
        refusal(5, DeckKind::UndefinedName),
        refusal(6, DeckKind::ValueRange),
    ];
    assert_eq!(rt; first_in(&facts), fact(5, DeckKind::UndefinedName));
    assert_eq!(rt; first_in(&facts[..1]), fact(9, DeckKind::ValueRange));
    assert_eq!(rt; first_in(&[]), None);
}
