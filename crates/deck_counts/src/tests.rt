//! Small decks with what they have, and decks at and past the bound.

use crate::{checks, first_excess, operations, outputs};
use deck_tree::{
    Atom, Below, Bound, Counted, Deck, DeckKind, DeckRefusal, Infix, Item, Layer, Limits, NameAt,
    Number, Operation, Power, Prefix, Primary, Product, Statement, Term, Value,
};
use drc_geom::Name;
use sqlite_items::{Boxed, Items};
use std::alloc::{AllocError, Global};
use std::test::Fail;

fn name(alloc: Global, at: u64) -> Result<NameAt, AllocError> {
    Ok(NameAt {
        at,
        name: Name::new(alloc, b"M1")?,
    })
}

fn named(alloc: Global, at: u64) -> Result<Layer, AllocError> {
    Ok(Layer {
        first: Primary::Term(Term::Name(name(alloc, at)?)),
        more: Items::new(alloc),
    })
}

fn one(alloc: Global, at: u64) -> Result<Value, AllocError> {
    let number = Number {
        at,
        whole: Items::from_slice(alloc, b"1")?,
        fraction: Items::new(alloc),
    };
    Ok(Value {
        first: Product {
            first: Power {
                base: Atom::Number(None, number),
                exponent: None,
            },
            more: Items::new(alloc),
        },
        more: Items::new(alloc),
    })
}

// `(COPY M1) AND M2`, which begins at the offset
fn copied_and(alloc: Global, from: u32) -> Result<Layer, AllocError> {
    let at = u64::from(from);
    let copy = Prefix::Copy(Term::Name(name(alloc, at + 6)?));
    let inner = Layer {
        first: Primary::Prefix(at + 1, Boxed::new(alloc, copy)?),
        more: Items::new(alloc),
    };
    let mut more = Items::new(alloc);
    more.push(Operation {
        at: at + 10,
        operator: Infix::And,
        right: Primary::Term(Term::Name(name(alloc, at + 14)?)),
    })?;
    Ok(Layer {
        first: Primary::Term(Term::Bracketed(at, Boxed::new(alloc, inner)?)),
        more,
    })
}

// `(LENGTH M1 < 1)`, which begins at the offset
fn bracketed_length(alloc: Global, from: u32) -> Result<Layer, AllocError> {
    let at = u64::from(from);
    let limits = Limits::Below(Bound {
        sign: Below::Less,
        value: one(alloc, at + 13)?,
    });
    let length = Prefix::Length(Term::Name(name(alloc, at + 8)?), limits);
    let inner = Layer {
        first: Primary::Prefix(at + 1, Boxed::new(alloc, length)?),
        more: Items::new(alloc),
    };
    Ok(Layer {
        first: Primary::Term(Term::Bracketed(at, Boxed::new(alloc, inner)?)),
        more: Items::new(alloc),
    })
}

// LAYER M1 1
// X = (COPY M1) AND M2
// A { Y = (LENGTH M1 < 1)
//     (LENGTH M1 < 1)
//     M1 }
fn small(alloc: Global) -> Result<Deck, AllocError> {
    let mut items = Items::new(alloc);
    items.push(Item::Definition(
        name(alloc, 36)?,
        Boxed::new(alloc, bracketed_length(alloc, 40)?)?,
    ))?;
    items.push(Item::Output(Boxed::new(alloc, bracketed_length(alloc, 60)?)?))?;
    items.push(Item::Output(Boxed::new(alloc, named(alloc, 80)?)?))?;
    let mut statements = Items::new(alloc);
    statements.push(Statement::Layer(0, name(alloc, 6)?, Items::new(alloc)))?;
    statements.push(Statement::Definition(
        name(alloc, 11)?,
        Boxed::new(alloc, copied_and(alloc, 15)?)?,
    ))?;
    statements.push(Statement::Check(name(alloc, 32)?, items))?;
    Ok(Deck {
        statements,
        length: 84,
    })
}

#[test]
fn a_small_deck(rt: HostRuntime) -> Result<(), Fail> {
    let alloc = rt.alloc();
    let deck = small(alloc)?;
    assert_eq!(rt;
        operations(alloc, &deck)?.as_slice(),
        [0, 25, 41, 61].as_slice()
    );
    assert_eq!(rt; checks(alloc, &deck)?.as_slice(), [32].as_slice());
    assert_eq!(rt; outputs(alloc, &deck)?.as_slice(), [60, 80].as_slice());
    assert_eq!(rt; first_excess(alloc, &deck)?, None);
    Ok(())
}

// Layers at even offsets, and then checks of one output each, 10 offsets apart.
fn many(alloc: Global, layers: u32, checks: u32) -> Result<Deck, AllocError> {
    let mut statements = Items::new(alloc);
    for number in 0..layers {
        statements.push(Statement::Layer(2 * number as u64, name(alloc, 0)?, Items::new(alloc)))?;
    }
    for number in 0..checks {
        let at = 10_000 + 10 * number as u64;
        let mut items = Items::new(alloc);
        items.push(Item::Output(Boxed::new(alloc, named(alloc, at + 5)?)?))?;
        statements.push(Statement::Check(name(alloc, at)?, items))?;
    }
    Ok(Deck {
        statements,
        length: 100_000,
    })
}

#[test]
fn at_the_bound_and_past_it(rt: HostRuntime) -> Result<(), Fail> {
    let alloc = rt.alloc();
    assert_eq!(rt; first_excess(alloc, &many(alloc, 4_096, 4_096)?)?, None);
    let checks = DeckRefusal {
        at: 10_000 + 10 * 4_096,
        kind: DeckKind::TooMany(Counted::Checks),
    };
    assert_eq!(rt;
        first_excess(alloc, &many(alloc, 4_096, 4_097)?)?,
        Some(checks)
    );
    let layers = DeckRefusal {
        at: 8_192,
        kind: DeckKind::TooMany(Counted::Operations),
    };
    assert_eq!(rt;
        first_excess(alloc, &many(alloc, 4_097, 4_097)?)?,
        Some(layers)
    );
    Ok(())
}
