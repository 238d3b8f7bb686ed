use super::*;

#[test]
fn numbers_and_words(rt: HostRuntime) {
    let table = [
        (DeckKind::DeckTooLong, 1, "DeckTooLong"),
        (DeckKind::Syntax, 7, "Syntax"),
        (
            DeckKind::MissingStatement(Single::LayoutPath),
            13,
            "MissingStatement",
        ),
        (
            DeckKind::RepeatedStatement(Single::Title),
            14,
            "RepeatedStatement",
        ),
        (DeckKind::TooMany(Counted::Nesting), 15, "TooMany"),
        (DeckKind::NotBuilt, 90, "NotBuilt"),
    ];
    for (kind, number, word) in table {
        assert_eq!(rt; kind.number(), number);
        assert_eq!(rt; kind.word(), word);
    }
    assert_eq!(rt; Single::ResultsDatabase.words(), "DRC RESULTS DATABASE");
    assert_eq!(rt; Counted::Nesting.word(), "Nesting");
}
