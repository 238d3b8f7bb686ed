use super::*;
use deck_printer::print;
use deck_tree::{Counted, Deck, DeckFault, DeckKind, DeckRefusal, Single};

/// The statements that a deck must have, and two layers, in 115 bytes.
const HEAD: &str = "LAYOUT SYSTEM GDSII\nLAYOUT PATH \"a.gds\"\nLAYOUT PRIMARY TOP\n\
    DRC RESULTS DATABASE \"a.db\" ASCII\nLAYER M1 1\nLAYER M2 2\n";

// The head with more behind it.
fn behind_head(rt: HostRuntime, more: &str) -> Option<String> {
    let mut text = String::new(rt.alloc());
    text.push_str(HEAD).ok()?;
    text.push_str(more).ok()?;
    Some(text)
}

fn is_refused(answer: &Result<Deck, DeckFault>, at: u64, kind: DeckKind) -> bool {
    match answer {
        Err(DeckFault::Refused(refusal)) => *refusal == DeckRefusal { at, kind },
        _ => false,
    }
}

#[test]
fn one_deck_for_each_reason(rt: HostRuntime) {
    let rows = [
        ("A ? B", 117, DeckKind::BadByte),
        ("x = m1 /* AND m2", 122, DeckKind::OpenComment),
        ("TITLE \"t", 121, DeckKind::OpenText),
        ("DFM PROPERTY M1", 115, DeckKind::Unsupported),
        ("x = M1 AND )", 126, DeckKind::Syntax),
        ("x = M1 AND AND M2", 126, DeckKind::Unsupported),
        ("x = M1 AND", 125, DeckKind::Syntax),
        (
            "LAYOUT PRIMARY TOP",
            115,
            DeckKind::RepeatedStatement(Single::LayoutPrimary),
        ),
    ];
    for (more, at, kind) in rows {
        let Some(text) = behind_head(rt, more) else {
            return;
        };
        assert!(rt;
            is_refused(&parse(rt.alloc(), text.as_bytes()), at, kind),
            "{more}"
        );
    }
    let empty = parse(rt.alloc(), b"");
    assert!(rt; is_refused(&empty, 0, DeckKind::MissingStatement(Single::LayoutSystem)));
    let path_missing = parse(rt.alloc(), b"LAYOUT SYSTEM GDSII // and no more\n");
    assert!(rt;
        is_refused(
            &path_missing,
            35,
            DeckKind::MissingStatement(Single::LayoutPath)
        )
    );
}

#[test]
fn one_bracket_too_many(rt: HostRuntime) {
    let mut text = [b'('; 68];
    text[0] = b'x';
    text[1] = b'=';
    text[67] = b'a';
    assert!(rt;
        is_refused(
            &parse(rt.alloc(), &text),
            66,
            DeckKind::TooMany(Counted::Nesting)
        )
    );
}

#[test]
fn a_deck_that_is_too_long(rt: HostRuntime) {
    let Ok(text) = Vec::from_elem(rt.alloc(), b' ', 4_194_305) else {
        return;
    };
    assert!(rt; is_refused(&parse(rt.alloc(), &text), 4_194_304, DeckKind::DeckTooLong));
}

// The canonical text of the deck that a text spells; None where it is refused.
fn said(rt: HostRuntime, text: &[u8]) -> Option<Vec<u8>> {
    let deck = parse(rt.alloc(), text).ok()?;
    print(rt.alloc(), &deck).ok()
}

#[test]
fn the_head_alone(rt: HostRuntime) {
    match parse(rt.alloc(), HEAD.as_bytes()) {
        Ok(deck) => assert!(rt; deck.statements.len() == 6 && deck.length == 115),
        Err(fault) => assert!(rt; matches!(fault, DeckFault::Memory)),
    }
}

#[test]
fn canonical_text(rt: HostRuntime) {
    let Some(text) = behind_head(
        rt,
        "x = m1 and (m2 not m3) // c\nA{@ hi\next [m1] <= .25+w square}",
    ) else {
        return;
    };
    let lines = "LAYOUT SYSTEM GDSII\nLAYOUT PATH \"a.gds\"\nLAYOUT PRIMARY \"TOP\"\n\
        DRC RESULTS DATABASE \"a.db\" ASCII\nLAYER M1 1\nLAYER M2 2\nx = m1 AND (m2 NOT m3)\n\
        A {\n@ hi\nEXT [m1] <= 0.25 + w SQUARE\n}\n";
    match said(rt, text.as_bytes()) {
        Some(first) => {
            assert!(rt; first.as_slice() == lines.as_bytes());
            match said(rt, &first) {
                Some(again) => assert!(rt; again.as_slice() == lines.as_bytes()),
                None => assert!(rt; false),
            }
        }
        None => assert!(rt; false),
    }
}
