//! The names of layers made by hand.

use crate::{push_layer_names, push_value_names};
use deck_tree::{
    Atom, Below, Bound, Distance, DistanceKind, Factor, Infix, Input, Layer, NameAt, Number,
    Operation, Options, Power, Prefix, Primary, Product, ProductSign, Term, Value,
};
use drc_geom::Name;
use sqlite_items::{Boxed, Items};
use std::alloc::{AllocError, Global};
use std::test::Fail;

fn name(alloc: Global, at: u64, text: &str) -> Result<NameAt, AllocError> {
    Ok(NameAt {
        at,
        name: Name::new(alloc, text.as_bytes())?,
    })
}

fn power(base: Atom) -> Power {
    Power {
        base,
        exponent: None,
    }
}

fn number(alloc: Global, digits: &str) -> Result<Atom, AllocError> {
    let number = Number {
        at: 0,
        whole: Items::from_slice(alloc, digits.as_bytes())?,
        fraction: Items::new(alloc),
    };
    Ok(Atom::Number(None, number))
}

fn value(alloc: Global, base: Atom) -> Value {
    Value {
        first: Product {
            first: power(base),
            more: Items::new(alloc),
        },
        more: Items::new(alloc),
    }
}

// `-W / 2`, with the name at the offset
fn half(alloc: Global, at: u64, text: &str) -> Result<Value, AllocError> {
    let mut more = Items::new(alloc);
    more.push(Factor {
        at: 0,
        sign: ProductSign::Over,
        power: power(number(alloc, "2")?),
    })?;
    Ok(Value {
        first: Product {
            first: power(Atom::Name(Some(0), name(alloc, at, text)?)),
            more,
        },
        more: Items::new(alloc),
    })
}

fn named(alloc: Global, at: u64, text: &str) -> Result<Primary, AllocError> {
    Ok(Primary::Term(Term::Name(name(alloc, at, text)?)))
}

// `(X AND Y) OR SIZE Z BY -W / 2`
fn sized(alloc: Global) -> Result<Layer, AllocError> {
    let mut inner_more = Items::new(alloc);
    inner_more.push(Operation {
        at: 0,
        operator: Infix::And,
        right: named(alloc, 7, "Y")?,
    })?;
    let inner = Layer {
        first: named(alloc, 1, "X")?,
        more: inner_more,
    };
    let size = Prefix::Size(
        Term::Name(name(alloc, 18, "Z")?),
        half(alloc, 24, "W")?,
        None,
    );
    let mut more = Items::new(alloc);
    more.push(Operation {
        at: 0,
        operator: Infix::Or,
        right: Primary::Prefix(0, Boxed::new(alloc, size)?),
    })?;
    Ok(Layer {
        first: Primary::Term(Term::Bracketed(0, Boxed::new(alloc, inner)?)),
        more,
    })
}

// `ENC [M1] M2 < B ABUT < V`
fn enclosure(alloc: Global) -> Result<Layer, AllocError> {
    let distance = Distance {
        kind: DistanceKind::Enclosure,
        first: Input::Bracketed(4, name(alloc, 5, "M1")?),
        second: Some(Input::Plain(name(alloc, 9, "M2")?)),
        bound: Bound {
            sign: Below::Less,
            value: value(alloc, Atom::Name(None, name(alloc, 14, "B")?)),
        },
        options: Options {
            abut: Some(Boxed::new(alloc, value(alloc, Atom::Name(None, name(alloc, 23, "V")?)))?),
            singular: false,
            metric: None,
            gap: None,
            region: false,
        },
    };
    Ok(Layer {
        first: Primary::Distance(0, Boxed::new(alloc, distance)?),
        more: Items::new(alloc),
    })
}

/// The offsets of names.
fn places(alloc: Global, names: &[&NameAt]) -> Result<Vec<u64>, AllocError> {
    let mut places = Vec::new(alloc);
    for name in names {
        places.push(name.at)?;
    }
    Ok(places)
}

#[test]
fn names_of_layers(rt: HostRuntime) -> Result<(), Fail> {
    let alloc = rt.alloc();
    let first = sized(alloc)?;
    let second = enclosure(alloc)?;
    let mut names = Vec::new(alloc);
    push_layer_names(&mut names, &first)?;
    push_layer_names(&mut names, &second)?;
    let found = places(alloc, &names)?;
    assert_eq!(rt; found.as_slice(), [1, 7, 18, 24, 5, 9, 14, 23].as_slice());
    Ok(())
}

#[test]
fn names_of_values(rt: HostRuntime) -> Result<(), Fail> {
    let alloc = rt.alloc();
    let value = half(alloc, 3, "W")?;
    let mut names = Vec::new(alloc);
    push_value_names(&mut names, &value)?;
    let found = places(alloc, &names)?;
    assert_eq!(rt; found.as_slice(), [3].as_slice());
    Ok(())
}
