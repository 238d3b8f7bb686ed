use super::*;
use deck_tree::{Counted, DeckKind, DeckRefusal, Single, Statement};

// Whether the text is refused so, or for want of memory not at all.
fn is_refused(rt: HostRuntime, text: &str, at: u64, kind: DeckKind) -> bool {
    match refusal(rt.alloc(), text.as_bytes()) {
        Ok(Some(it)) => it == DeckRefusal { at, kind },
        Ok(None) => false,
        Err(_) => false,
    }
}

#[test]
fn texts_that_are_refused(rt: HostRuntime) {
    let rows = [
        ("x = m1 ' /*", 7, DeckKind::BadByte),
        ("x m1 /*", 5, DeckKind::OpenComment),
        ("x m1 \"", 5, DeckKind::OpenText),
        ("x = ", 4, DeckKind::Syntax),
        ("layout system gdsii )", 20, DeckKind::Syntax),
        ("x = m1 AND NOT m2", 11, DeckKind::Unsupported),
        ("AND", 0, DeckKind::Syntax),
        ("c { @ note\nNOT m1 }", 11, DeckKind::Unsupported),
        ("x = COPY NOT m1", 9, DeckKind::Syntax),
        ("x = INT (m1) < 1", 8, DeckKind::Unsupported),
        ("x = EXT [m1] (m2", 13, DeckKind::Unsupported),
        ("x = INT m1 m2 (", 14, DeckKind::Syntax),
        ("x = INT m1 > 1", 11, DeckKind::Unsupported),
        ("x = INT m1 m2 >= 1", 14, DeckKind::Unsupported),
        ("x = INT m1 < 1 ABUT == 90", 20, DeckKind::Unsupported),
        ("x = INT m1 < 1 ABUT <= 90", 20, DeckKind::Syntax),
        ("x = INT m1 < > 1", 13, DeckKind::Syntax),
        ("x = ENC m1 > 1", 11, DeckKind::Syntax),
        ("layer map < 1", 10, DeckKind::Unsupported),
        ("layer map 1 datatype >= 1", 21, DeckKind::Unsupported),
        ("layer map 1 texttype 2 == 1", 23, DeckKind::Unsupported),
        ("layer map = 1", 10, DeckKind::Syntax),
        ("x = DENSITY m1", 4, DeckKind::Unsupported),
        ("#define x", 0, DeckKind::Unsupported),
        ("DRC SELECT CHECK a = b", 19, DeckKind::Syntax),
    ];
    for (text, at, kind) in rows {
        assert!(rt; is_refused(rt, text, at, kind), "{text}");
    }
}

#[test]
fn brackets_inside_one_another(rt: HostRuntime) {
    let mut text = [b'('; 69];
    text[0] = b'x';
    text[1] = b'=';
    text[66] = b'a';
    match refusal(rt.alloc(), &text[..67]) {
        Ok(answer) => assert!(rt;
            answer
                == Some(DeckRefusal {
                    at: 67,
                    kind: DeckKind::Syntax
                })
        ),
        Err(_) => assert!(rt; false),
    }
    text[66] = b'(';
    match refusal(rt.alloc(), &text) {
        Ok(answer) => assert!(rt;
            answer
                == Some(DeckRefusal {
                    at: 66,
                    kind: DeckKind::TooMany(Counted::Nesting)
                })
        ),
        Err(_) => assert!(rt; false),
    }
}

#[test]
fn a_deck_is_not_refused(rt: HostRuntime) {
    let text =
        b"layer m1 1 2 // metal\nc { @ note\n ext [m1] m2 < w abut < 90 square w = size m1 by 1 }";
    match refusal(rt.alloc(), text) {
        Ok(answer) => assert!(rt; answer.is_none()),
        Err(_) => assert!(rt; false),
    }
}

// The refusal of a text of no bytes for its statements, of which there are none.
#[tactic(auto, using(crate::proofs::Statements::empty_deck))]
fn refusal_of_nothing(text: &[u8], all: &[Statement]) -> Option<DeckRefusal> {
    if text.is_empty() && all.is_empty() {
        statements_refusal(text, all)
    } else {
        None
    }
}

#[test]
fn an_empty_deck_lacks_a_statement(rt: HostRuntime) {
    let answer = refusal_of_nothing(b"", &[]);
    let lacks = DeckRefusal {
        at: 0,
        kind: DeckKind::MissingStatement(Single::LayoutSystem),
    };
    assert!(rt; answer == Some(lacks));
}
