use super::*;
use deck_grammar::{Keyword, Kind, Sign};
use std::alloc::{AllocError, Global};

// The stacks behind tokens of these kinds.
fn behind(alloc: Global, kinds: &[Kind]) -> Result<Stacks, AllocError> {
    let mut stacks = Stacks::start(alloc)?;
    for kind in kinds {
        stacks = stacks.next(alloc, *kind)?;
    }
    Ok(stacks)
}

// Whether tokens of these kinds are a front of a deck, and whether they are those of one.
fn answers(alloc: Global, kinds: &[Kind]) -> Result<(bool, bool), AllocError> {
    let stacks = behind(alloc, kinds)?;
    Ok((!stacks.is_none_left(), stacks.may_end()))
}

fn word(word: Keyword) -> Kind {
    Kind::Keyword(word)
}

#[test]
fn statements_one_by_one(rt: HostRuntime) {
    let equals = Kind::Sign(Sign::Equals);
    let rows: [(&[Kind], bool, bool); 8] = [
        (&[], true, true),
        (&[Kind::Number], false, false),
        (&[Kind::Name], true, false),
        (&[Kind::Name, equals], true, false),
        (&[Kind::Name, equals, Kind::Name], true, true),
        (&[Kind::Name, equals, Kind::Name, Kind::Name], true, false),
        (&[Kind::Name, equals, Kind::Name, equals], false, false),
        (
            &[
                word(Keyword::Layout),
                word(Keyword::System),
                word(Keyword::Gdsii),
            ],
            true,
            true,
        ),
    ];
    for (kinds, front, deck) in rows {
        match answers(rt.alloc(), kinds) {
            Ok(answer) => assert!(rt; answer == (front, deck)),
            Err(_) => assert!(rt; false),
        }
    }
}

#[test]
fn options_stand_once(rt: HostRuntime) {
    let head = [
        Kind::Name,
        Kind::Sign(Sign::LeftBrace),
        word(Keyword::Ext),
        Kind::Name,
        Kind::Sign(Sign::Less),
        Kind::Number,
    ];
    let rows: [(&[Keyword], bool); 9] = [
        (&[Keyword::Notch], true),
        (&[Keyword::Notch, Keyword::Space], false),
        (&[Keyword::Opposite, Keyword::Square], false),
        (
            &[
                Keyword::Square,
                Keyword::Singular,
                Keyword::Space,
                Keyword::Region,
            ],
            true,
        ),
        (
            &[Keyword::Region, Keyword::Singular, Keyword::Region],
            false,
        ),
        (&[Keyword::Singular, Keyword::Singular], false),
        (&[Keyword::Abut], true),
        (&[Keyword::Abut, Keyword::Region], false),
        (&[Keyword::And], true),
    ];
    for (words, front) in rows {
        match behind(rt.alloc(), &head) {
            Ok(mut stacks) => {
                for one in words {
                    match stacks.next(rt.alloc(), word(*one)) {
                        Ok(next) => stacks = next,
                        Err(_) => assert!(rt; false),
                    }
                }
                assert!(rt; stacks.is_none_left() == !front);
                assert!(rt; !stacks.may_end());
            }
            Err(_) => assert!(rt; false),
        }
    }
}
