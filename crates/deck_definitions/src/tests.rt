use super::*;
use deck_names::Scope;
use deck_tree::{
    Atom, Deck, Item, Layer, NameAt, Number, Power, Primary, Product, Statement, Term, Value,
};
use drc_geom::Name;
use sqlite_items::{Boxed, Items};
use std::alloc::{AllocError, Global};

fn name(alloc: Global, text: &str) -> Result<NameAt, AllocError> {
    Ok(NameAt {
        at: 0,
        name: Name::new(alloc, text.as_bytes())?,
    })
}

fn layer(alloc: Global, text: &str) -> Result<Boxed<Layer>, AllocError> {
    let layer = Layer {
        first: Primary::Term(Term::Name(name(alloc, text)?)),
        more: Items::new(alloc),
    };
    Ok(Boxed::new(alloc, layer)?)
}

fn number(alloc: Global) -> Result<Number, AllocError> {
    Ok(Number {
        at: 0,
        whole: Items::from_slice(alloc, b"2")?,
        fraction: Items::new(alloc),
    })
}

fn value(alloc: Global) -> Result<Boxed<Value>, AllocError> {
    let base = Atom::Number(None, number(alloc)?);
    let value = Value {
        first: Product {
            first: Power {
                base,
                exponent: None,
            },
            more: Items::new(alloc),
        },
        more: Items::new(alloc),
    };
    Ok(Boxed::new(alloc, value)?)
}

// `C { @ .. D = L  L }`, with these names.
fn check(alloc: Global, texts: [&str; 3]) -> Result<Statement, AllocError> {
    let [check, defined, used] = texts;
    let mut items = Items::new(alloc);
    items.push(Item::Note(Name::new(alloc, b"note")?))?;
    items.push(Item::Definition(name(alloc, defined)?, layer(alloc, used)?))?;
    items.push(Item::Output(layer(alloc, used)?))?;
    Ok(Statement::Check(name(alloc, check)?, items))
}

// `A { a = M1 .. } PRECISION 2 B { b = M1 .. } LAYER M1 2 VARIABLE W 2 X = M1`
fn deck(alloc: Global) -> Result<Deck, AllocError> {
    let mut numbers = Items::new(alloc);
    numbers.push(number(alloc)?)?;
    let mut statements = Items::new(alloc);
    statements.push(check(alloc, ["A", "a", "M1"])?)?;
    statements.push(Statement::Precision(0, value(alloc)?))?;
    statements.push(check(alloc, ["B", "b", "M1"])?)?;
    statements.push(Statement::Layer(0, name(alloc, "M1")?, numbers))?;
    statements.push(Statement::Variable(0, name(alloc, "W")?, value(alloc)?))?;
    statements.push(Statement::Definition(name(alloc, "X")?, layer(alloc, "M1")?))?;
    Ok(Deck {
        statements,
        length: 0,
    })
}

// The number of the check in which it is defined, if it is in one.
fn check_of(defined: &Defined<'_>) -> Option<u32> {
    match defined.scope {
        Scope::Everywhere => None,
        Scope::Check(check) => Some(check),
    }
}

fn kind_of(defined: &Defined<'_>) -> char {
    match defined.body {
        Body::Drawn(_) => 'n',
        Body::Derived(_) => 'l',
        Body::Variable(_) => 'v',
    }
}

#[test]
fn definitions_in_the_order_of_the_text(rt: HostRuntime) {
    let Ok(deck) = deck(rt.alloc()) else {
        return;
    };
    let Ok(found) = definitions(rt.alloc(), &deck) else {
        return;
    };
    let rows: [(&str, Option<u32>, char); 5] = [
        ("a", Some(0), 'l'),
        ("b", Some(1), 'l'),
        ("M1", None, 'n'),
        ("W", None, 'v'),
        ("X", None, 'l'),
    ];
    assert_eq!(rt; found.len(), rows.len());
    for (defined, (name, check, kind)) in found.iter().zip(rows) {
        assert!(rt; defined.name.name.bytes() == name.as_bytes(), "{name}");
        assert!(rt;
            check_of(defined) == check && kind_of(defined) == kind,
            "{name}"
        );
    }
}
