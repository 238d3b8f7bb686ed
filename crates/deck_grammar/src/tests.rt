use super::*;
use deck_tree::{NameAt, Single, Statement};
use drc_geom::Name;
use std::test::Fail;

#[test]
fn words_and_signs(rt: HostRuntime) {
    let words = [
        ("layer", Kind::Keyword(Keyword::Layer)),
        ("INTERNAL", Kind::Keyword(Keyword::Int)),
        ("UnderOver", Kind::Keyword(Keyword::UnderOver)),
        ("Connected", Kind::SetAside),
        ("#define", Kind::SetAside),
        ("layers", Kind::Name),
        ("M1.S.1", Kind::Name),
    ];
    for (word, kind) in words {
        assert!(rt; kind_of_word(word.as_bytes()) == kind);
    }
    let signs = [
        ("<=", Sign::LessOrEqual),
        ("=", Sign::Equals),
        ("==", Sign::EqualTo),
        ("%", Sign::Modulo),
    ];
    for (sign, wanted) in signs {
        assert!(rt; kind_of_sign(sign.as_bytes()) == Kind::Sign(wanted));
    }
    assert!(rt; is_same(Kind::Sign(Sign::Less), Kind::Sign(Sign::Less)));
}

#[test]
fn numbers_and_notes(rt: HostRuntime) -> Result<(), Fail> {
    let numbers = [
        ("007", "7", ""),
        (".50", "0", "5"),
        ("0.", "0", ""),
        (".0", "0", ""),
        ("10.050", "10", "05"),
    ];
    for (bytes, whole, fraction) in numbers {
        let number = number_of(rt.alloc(), 3, bytes.as_bytes())?;
        assert_eq!(rt; number.at, 3);
        assert_eq!(rt; number.whole.as_slice(), whole.as_bytes());
        assert_eq!(rt; number.fraction.as_slice(), fraction.as_bytes());
    }
    assert_eq!(rt; note_text(b"@ \ta  b \r"), b"a  b".as_slice());
    assert_eq!(rt; note_text(b"@"), b"".as_slice());
    assert_eq!(rt; without_quotes(b"\"chip.gds\""), b"chip.gds".as_slice());
    Ok(())
}

#[test]
fn statements_that_stand_once(rt: HostRuntime) -> Result<(), Fail> {
    let file = NameAt {
        at: 26,
        name: Name::new(rt.alloc(), b"a")?,
    };
    let all = [
        Statement::LayoutSystem(0),
        Statement::LayoutPath(20, file),
        Statement::LayoutSystem(29),
    ];
    assert!(rt; single_of(&all[1]) == Some(Single::LayoutPath));
    assert!(rt; missing(&all) == Some(Single::LayoutPrimary));
    assert!(rt; repeated(&all) == Some((Single::LayoutSystem, 29)));
    assert!(rt; repeated(&all[..2]).is_none());
    Ok(())
}
