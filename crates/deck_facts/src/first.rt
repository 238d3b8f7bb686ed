//! The first of facts.

ghost use Rattle.std.specs.Prelude.{◌↔◌, IsTrue};
ghost use Rattle.deck_facts.specs.FirstFacts.{Before, IsFirst, IsOneOf, IsIn};

use deck_tree::DeckRefusal;

/// Whether a fact comes before another: it stands at a lesser offset, or at the same and has a lesser number.
pub fn comes_before(a: &DeckRefusal, b: &DeckRefusal) -> bool
    ensures { IsTrue result ↔ Before a.now b.now }
{
    a.at < b.at || (a.at == b.at && a.kind.number() < b.kind.number())
}

/// The first of two facts, of which either may be missing.
pub fn first_of(a: Option<DeckRefusal>, b: Option<DeckRefusal>) -> Option<DeckRefusal>
    ensures { IsFirst (IsOneOf a b) result }
{
    match (a, b) {
        (None, b) => b,
        (a, None) => a,
        (Some(a), Some(b)) => Some(if comes_before(&b, &a) { b } else { a }),
    }
}

/// The first of facts in a list, in whatever order they stand there.
pub fn first_in(facts: &[DeckRefusal]) -> Option<DeckRefusal>
    ensures { IsFirst (IsIn facts.now) result }
{
    let mut first = None;
    for fact in facts {
        first = first_of(first, Some(*fact));
    }
    first
}
