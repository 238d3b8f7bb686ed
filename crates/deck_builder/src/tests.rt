use super::*;
use deck_cursor::Stop;
use deck_tree::{Item, Statement};

// How many statements a text spells; None where it spells no deck, or memory runs out.
fn count(rt: HostRuntime, text: &[u8]) -> Option<usize> {
    match build(rt.alloc(), text) {
        Ok(all) => Some(all.len()),
        Err(_) => None,
    }
}

#[test]
fn each_statement(rt: HostRuntime) {
    let text = b"layout system gdsii layout path \"a.gds\" layout primary top\n\
        drc results database \"r.db\" ascii drc summary report s replace\n\
        drc maximum results all drc select check a b drc unselect check c\n\
        precision 1000 title \"t\" variable w 0.2 * (3 - 1) ^ 2 % 5\n\
        layer m1 1 2 layer map 3 datatype 4 5\n\
        n = m1 and (m2 not inside edge m3) or edge m4\n\
        c { @ note\n w = size m1 by w overunder area (m1) > 2 <= 3\n\
        ext [m1] m2 < w abut < 90 square int m1 < 2 region }";
    assert_eq!(rt; count(rt, text), Some(15));
    assert_eq!(rt; count(rt, b" // nothing\n"), Some(0));
}

#[test]
fn texts_that_spell_no_deck(rt: HostRuntime) {
    let texts = [
        "layout",
        "layout system gdsii )",
        "drc select check a = b",
        "c { ext m1 < 1 notch space }",
        "c { int [m1] < 1 region }",
        "c { enc m1 < 1 }",
        "c { enc [m1] [m2] < 1 }",
        "c { m1 and }",
        "x = m1 '",
    ];
    for text in texts {
        let answer = build(rt.alloc(), text.as_bytes());
        assert!(rt; matches!(answer, Err(Stop::Wrong)), "{text}");
    }
}

fn is_a_note_and_an_output(items: &[Item]) -> bool {
    match items {
        [Item::Note(note), Item::Output(_)] => note.bytes() == b"hi".as_slice(),
        _ => false,
    }
}

fn is_a_definition_and_a_check(all: &[Statement]) -> bool {
    match all {
        [
            Statement::Definition(name, _),
            Statement::Check(check, items),
        ] => { name.at == 0 && check.at == 28 && is_a_note_and_an_output(items.as_slice()) }
        _ => false,
    }
}

#[test]
fn a_check_with_a_note(rt: HostRuntime) {
    let text = b"x = m1 and (m2 not m3) // c\nA{@ hi \next [m1] <= .25+w square}";
    match build(rt.alloc(), text) {
        Ok(all) => assert!(rt; is_a_definition_and_a_check(all.as_slice())),
        Err(stop) => assert!(rt; stop == Stop::Memory),
    }
}
