use super::*;
use deck_grammar::{Keyword, Kind, Sign};

#[test]
fn tokens_are_taken(rt: HostRuntime) {
    let mut cursor = Cursor::new(b" layer M1 /* metal */ 5 // end");
    assert!(rt; cursor.peek() == Some(Kind::Keyword(Keyword::Layer)));
    assert!(rt; cursor.peek_behind() == Some(Kind::Name));
    assert_eq!(rt; cursor.left(), 30);
    assert!(rt; cursor.take(Kind::Name).is_err());
    assert!(rt; cursor.take(Kind::Keyword(Keyword::Layer)).is_ok());
    match cursor.take(Kind::Name) {
        Ok(name) => {
            assert_eq!(rt; name.at, 7);
            assert_eq!(rt; name.bytes, b"M1".as_slice());
        }
        Err(stop) => assert!(rt; stop == Stop::Memory),
    }
    assert!(rt; !cursor.is_at_end());
    assert!(rt; cursor.take(Kind::Number).is_ok());
    assert!(rt; cursor.is_at_end());
    assert!(rt; cursor.peek().is_none());
}

#[test]
fn a_bracket_too_many(rt: HostRuntime) {
    let text = [b'('; 65];
    let mut cursor = Cursor::new(&text);
    for _turn in 0..MAX_NESTING {
        assert!(rt; cursor.take(Kind::Sign(Sign::LeftRound)).is_ok());
    }
    assert!(rt; cursor.peek() == Some(Kind::Sign(Sign::LeftRound)));
    assert!(rt; cursor.take(Kind::Sign(Sign::LeftRound)).is_err());
}
