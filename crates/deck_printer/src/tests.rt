use super::*;
use deck_tree::{
    Atom, Below, Bound, Deck, Distance, DistanceKind, Gap, Input, Item, Layer, NameAt, Number,
    Options, Power, Primary, Product, Statement, Term, Value,
};
use drc_geom::Name;
use sqlite_items::{Boxed, Items};
use std::alloc::{AllocError, Global};
use std::test::Fail;

fn name(alloc: Global, text: &str) -> Result<NameAt, AllocError> {
    Ok(NameAt {
        at: 7,
        name: Name::new(alloc, text.as_bytes())?,
    })
}

fn number(alloc: Global, whole: &str, fraction: &str) -> Result<Number, AllocError> {
    Ok(Number {
        at: 7,
        whole: Items::from_slice(alloc, whole.as_bytes())?,
        fraction: Items::from_slice(alloc, fraction.as_bytes())?,
    })
}

fn value_of(alloc: Global, atom: Atom) -> Value {
    Value {
        first: Product {
            first: Power {
                base: atom,
                exponent: None,
            },
            more: Items::new(alloc),
        },
        more: Items::new(alloc),
    }
}

// `-(0.2)`
fn bracketed(alloc: Global) -> Result<Value, AllocError> {
    let inner = value_of(alloc, Atom::Number(None, number(alloc, "0", "2")?));
    Ok(value_of(
        alloc,
        Atom::Bracketed(Some(1), 2, Boxed::new(alloc, inner)?),
    ))
}

fn layer_of(alloc: Global, text: &str) -> Result<Layer, AllocError> {
    Ok(Layer {
        first: Primary::Term(Term::Name(name(alloc, text)?)),
        more: Items::new(alloc),
    })
}

// `EXT M1 < -(0.2) SPACE`
fn space(alloc: Global) -> Result<Layer, AllocError> {
    let distance = Distance {
        kind: DistanceKind::External,
        first: Input::Plain(name(alloc, "M1")?),
        second: None,
        bound: Bound {
            sign: Below::Less,
            value: bracketed(alloc)?,
        },
        options: Options {
            abut: None,
            singular: false,
            metric: None,
            gap: Some(Gap::Space),
            region: false,
        },
    };
    Ok(Layer {
        first: Primary::Distance(3, Boxed::new(alloc, distance)?),
        more: Items::new(alloc),
    })
}

fn items(alloc: Global) -> Result<Items<Item>, AllocError> {
    let mut items = Items::new(alloc);
    items.push(Item::Note(Name::new(alloc, b"space of  M1")?))?;
    items.push(Item::Note(Name::new(alloc, b"")?))?;
    items.push(Item::Output(Boxed::new(alloc, space(alloc)?)?))?;
    Ok(items)
}

fn deck(alloc: Global) -> Result<Deck, AllocError> {
    let mut statements = Items::new(alloc);
    statements.push(Statement::ResultsDatabase(0, name(alloc, "a.db")?))?;
    statements.push(Statement::MaximumResults(0, None))?;
    statements.push(Statement::Definition(
        name(alloc, "X")?,
        Boxed::new(alloc, layer_of(alloc, "M1")?)?,
    ))?;
    statements.push(Statement::Check(name(alloc, "M1.S")?, items(alloc)?))?;
    Ok(Deck {
        statements,
        length: 99,
    })
}

#[test]
fn a_deck(rt: HostRuntime) -> Result<(), Fail> {
    let alloc = rt.alloc();
    let text = print(alloc, &deck(alloc)?)?;
    let wanted =
        "DRC RESULTS DATABASE \"a.db\" ASCII\nDRC MAXIMUM RESULTS ALL\nX = M1\nM1.S {\n@ space of  M1\n@\nEXT M1 < -(0.2) SPACE\n}\n";
    assert_eq!(rt; text.as_slice(), wanted.as_bytes());
    Ok(())
}
