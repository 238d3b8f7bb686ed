use super::*;

const fn token(kind: TokenKind, start: usize, end: usize) -> Result<Option<Token>, LexFault> {
    Ok(Some(Token { kind, start, end }))
}

#[test]
fn first_tokens(rt: HostRuntime) {
    let table = [
        ("AREA.1$_ M1", token(TokenKind::Word, 0, 8)),
        ("#IFDEF", token(TokenKind::Word, 0, 6)),
        (">=5", token(TokenKind::Sign, 0, 2)),
        ("<>", token(TokenKind::Sign, 0, 1)),
        ("a/*b*/c", token(TokenKind::Word, 0, 1)),
        (" // x\n/* @ */@ a b \n", token(TokenKind::Note, 13, 19)),
        ("\r\n\t\x0c\"\"", token(TokenKind::Text, 4, 6)),
        ("0.50<", token(TokenKind::Number, 0, 4)),
        (".5", token(TokenKind::Number, 0, 2)),
        ("5.)", token(TokenKind::Number, 0, 2)),
        ("1#a", token(TokenKind::Number, 0, 1)),
        ("1e5", Err(LexFault::BadByte(1))),
        ("1..2", Err(LexFault::BadByte(2))),
        ("..5", Err(LexFault::BadByte(0))),
        ("'a'", Err(LexFault::BadByte(0))),
        (" !", Err(LexFault::BadByte(1))),
        ("\"a\tb\"", Err(LexFault::BadByte(2))),
        ("\"a\tb\r\n\"", Err(LexFault::OpenText(0))),
        (" /*/", Err(LexFault::OpenComment(1))),
        ("/* a */ // b", Ok(None)),
        ("", Ok(None)),
    ];
    for (text, wanted) in table {
        assert_eq!(rt; next(text.as_bytes(), 0), wanted, "{text}");
    }
}

// How many tokens stand before the end or the first fact, and that fact.
fn count(text: &[u8]) -> (usize, Option<LexFault>) {
    let mut at = 0;
    for n in 0..100 {
        if at > text.len() {
            break;
        }
        match next(text, at) {
            Ok(Some(token)) => at = token.end,
            Ok(None) => return (n, None),
            Err(fault) => return (n, Some(fault)),
        }
    }
    (100, None)
}

#[test]
fn whole_texts(rt: HostRuntime) {
    let check = b"W { @ too thin\n\tINT (M1) < 0.2 ABUT<90 /* right */ SINGULAR\r\n}";
    assert_eq!(rt; count(check), (14, None));
    assert_eq!(rt; count(b"A=B//\n=/*="), (4, Some(LexFault::OpenComment(7))));
}
