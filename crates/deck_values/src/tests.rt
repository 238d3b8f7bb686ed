//! A deck with a value at each place that takes one, made by hand. Each value is a number, known by its offset.

use crate::{PlacedValue, Wanted, layer_numbers, values};
use deck_names::Scope;
use deck_tree::{
    Above, Atom, Below, Bound, Deck, Distance, DistanceKind, ExpandSide, Infix, Input, Item, Layer,
    LayerMap, Limits, MapKind, NameAt, Number, Operation, Options, Power, Prefix, Primary, Product,
    Statement, Term, Turn, Value,
};
use deck_units::ValuePlace;
use drc_geom::Name;
use sqlite_items::{Boxed, Items};
use std::alloc::{AllocError, Global};
use std::test::Fail;

fn name(alloc: Global) -> Result<NameAt, AllocError> {
    Ok(NameAt {
        at: 0,
        name: Name::new(alloc, b"M1")?,
    })
}

fn number(alloc: Global, at: u64) -> Result<Number, AllocError> {
    Ok(Number {
        at,
        whole: Items::from_slice(alloc, b"1")?,
        fraction: Items::new(alloc),
    })
}

fn value(alloc: Global, at: u64) -> Result<Value, AllocError> {
    let base = Atom::Number(None, number(alloc, at)?);
    Ok(Value {
        first: Product {
            first: Power {
                base,
                exponent: None,
            },
            more: Items::new(alloc),
        },
        more: Items::new(alloc),
    })
}

fn boxed(alloc: Global, at: u64) -> Result<Boxed<Value>, AllocError> {
    let value = value(alloc, at)?;
    Ok(Boxed::new(alloc, value)?)
}

fn less(alloc: Global, at: u64) -> Result<Bound, AllocError> {
    Ok(Bound {
        sign: Below::Less,
        value: value(alloc, at)?,
    })
}

fn named(alloc: Global) -> Result<Term, AllocError> {
    Ok(Term::Name(name(alloc)?))
}

fn before(alloc: Global, prefix: Prefix) -> Result<Layer, AllocError> {
    Ok(Layer {
        first: Primary::Prefix(0, Boxed::new(alloc, prefix)?),
        more: Items::new(alloc),
    })
}

fn bracketed(alloc: Global, prefix: Prefix) -> Result<Term, AllocError> {
    let layer = before(alloc, prefix)?;
    Ok(Term::Bracketed(0, Boxed::new(alloc, layer)?))
}

fn output(alloc: Global, layer: Layer) -> Result<Item, AllocError> {
    Ok(Item::Output(Boxed::new(alloc, layer)?))
}

// `(AREA M1 > 11 < 12)`
fn between(alloc: Global) -> Result<Term, AllocError> {
    let upper = Boxed::new(alloc, less(alloc, 12)?)?;
    let limits = Limits::Above(Above::Greater, value(alloc, 11)?, Some(upper));
    bracketed(alloc, Prefix::Area(named(alloc)?, limits))
}

// `LENGTH (AREA M1 == 13) != 14`
fn unequal(alloc: Global) -> Result<Primary, AllocError> {
    let exact = Prefix::Area(named(alloc)?, Limits::Equal(value(alloc, 13)?));
    let inner = bracketed(alloc, exact)?;
    let length = Prefix::Length(inner, Limits::NotEqual(value(alloc, 14)?));
    Ok(Primary::Prefix(0, Boxed::new(alloc, length)?))
}

// `(AREA M1 > 11 < 12) AND LENGTH (AREA M1 == 13) != 14`
fn limited(alloc: Global) -> Result<Layer, AllocError> {
    let mut more = Items::new(alloc);
    more.push(Operation {
        at: 0,
        operator: Infix::And,
        right: unequal(alloc)?,
    })?;
    Ok(Layer {
        first: Primary::Term(between(alloc)?),
        more,
    })
}

// `A { @ note  Y = SIZE M1 BY 21  SIZE M1 BY 22 OVERUNDER  COPY (RECTANGLE (ANGLE M1 == 23)) }`
fn first_check(alloc: Global) -> Result<Statement, AllocError> {
    let size = before(alloc, Prefix::Size(named(alloc)?, value(alloc, 21)?, None))?;
    let turned = Prefix::Size(named(alloc)?, value(alloc, 22)?, Some(Turn::OverUnder));
    let angle = Prefix::Angle(named(alloc)?, value(alloc, 23)?);
    let rectangle = Prefix::Rectangle(bracketed(alloc, angle)?);
    let copy = Prefix::Copy(bracketed(alloc, rectangle)?);
    let mut items = Items::new(alloc);
    items.push(Item::Note(Name::new(alloc, b"note")?))?;
    items.push(Item::Definition(name(alloc)?, Boxed::new(alloc, size)?))?;
    items.push(output(alloc, before(alloc, turned)?)?)?;
    items.push(output(alloc, before(alloc, copy)?)?)?;
    Ok(Statement::Check(name(alloc)?, items))
}

// `INT M1 < V`, or `ENC M1 M1 < V ABUT < W`, with the values at these offsets
fn distance(alloc: Global, at: u64, abut: Option<u64>) -> Result<Layer, AllocError> {
    let (kind, second, abut) = match abut {
        None => (DistanceKind::Internal, None, None),
        Some(at) => {
            let second = Input::Bracketed(0, name(alloc)?);
            (
                DistanceKind::Enclosure,
                Some(second),
                Some(boxed(alloc, at)?),
            )
        }
    };
    let distance = Distance {
        kind,
        first: Input::Plain(name(alloc)?),
        second,
        bound: less(alloc, at)?,
        options: Options {
            abut,
            singular: false,
            metric: None,
            gap: None,
            region: false,
        },
    };
    Ok(Layer {
        first: Primary::Distance(0, Boxed::new(alloc, distance)?),
        more: Items::new(alloc),
    })
}

// `B { EXPAND EDGE M1 INSIDE BY 31  INT M1 < 32  ENC M1 [M1] < 33 ABUT < 34  LENGTH M1 < 35 }`
fn second_check(alloc: Global) -> Result<Statement, AllocError> {
    let expand = Prefix::Expand(named(alloc)?, ExpandSide::Inside, value(alloc, 31)?);
    let length = Prefix::Length(named(alloc)?, Limits::Below(less(alloc, 35)?));
    let mut items = Items::new(alloc);
    items.push(output(alloc, before(alloc, expand)?)?)?;
    items.push(output(alloc, distance(alloc, 32, None)?)?)?;
    items.push(output(alloc, distance(alloc, 33, Some(34))?)?)?;
    items.push(output(alloc, before(alloc, length)?)?)?;
    Ok(Statement::Check(name(alloc)?, items))
}

// `LAYER M1 4 5`
fn drawn(alloc: Global) -> Result<Statement, AllocError> {
    let mut numbers = Items::new(alloc);
    numbers.push(number(alloc, 4)?)?;
    numbers.push(number(alloc, 5)?)?;
    Ok(Statement::Layer(0, name(alloc)?, numbers))
}

// `LAYER MAP 6 DATATYPE 7 8`
fn mapped(alloc: Global) -> Result<Statement, AllocError> {
    let map = LayerMap {
        layer: number(alloc, 6)?,
        kind: MapKind::DataType,
        kind_number: number(alloc, 7)?,
        target: number(alloc, 8)?,
    };
    Ok(Statement::LayerMap(0, Boxed::new(alloc, map)?))
}

fn deck(alloc: Global) -> Result<Deck, AllocError> {
    let mut statements = Items::new(alloc);
    statements.push(Statement::Precision(0, boxed(alloc, 1)?))?;
    statements.push(Statement::MaximumResults(0, Some(boxed(alloc, 2)?)))?;
    statements.push(Statement::MaximumResults(0, None))?;
    statements.push(Statement::Variable(0, name(alloc)?, boxed(alloc, 3)?))?;
    statements.push(drawn(alloc)?)?;
    statements.push(first_check(alloc)?)?;
    statements.push(mapped(alloc)?)?;
    statements.push(Statement::Definition(name(alloc)?, Boxed::new(alloc, limited(alloc)?)?))?;
    statements.push(second_check(alloc)?)?;
    Ok(Deck {
        statements,
        length: 0,
    })
}

// The offset of the number that the value is.
fn place_of(placed: &PlacedValue<'_>) -> Option<u64> {
    match &placed.value.first.first.base {
        Atom::Number(_, number) => Some(number.at),
        _ => None,
    }
}

fn check_of(placed: &PlacedValue<'_>) -> Option<u32> {
    match placed.scope {
        Scope::Everywhere => None,
        Scope::Check(check) => Some(check),
    }
}

#[test]
fn values_in_the_order_of_the_text(rt: HostRuntime) -> Result<(), Fail> {
    let deck = deck(rt.alloc())?;
    let found = values(rt.alloc(), &deck)?;
    let rows: [(u64, Option<u32>, Wanted); 15] = [
        (1, None, Wanted::Range(ValuePlace::Precision)),
        (2, None, Wanted::Range(ValuePlace::MaximumResults)),
        (3, None, Wanted::Anything),
        (21, Some(0), Wanted::Range(ValuePlace::Size)),
        (22, Some(0), Wanted::Range(ValuePlace::TurnedSize)),
        (23, Some(0), Wanted::RightAngle),
        (11, None, Wanted::Range(ValuePlace::Area)),
        (12, None, Wanted::Range(ValuePlace::Area)),
        (13, None, Wanted::Range(ValuePlace::Area)),
        (14, None, Wanted::Range(ValuePlace::Length)),
        (31, Some(1), Wanted::Range(ValuePlace::Distance)),
        (32, Some(1), Wanted::Range(ValuePlace::Distance)),
        (33, Some(1), Wanted::Range(ValuePlace::Distance)),
        (34, Some(1), Wanted::Range(ValuePlace::Abut)),
        (35, Some(1), Wanted::Range(ValuePlace::Length)),
    ];
    assert_eq!(rt; found.len(), rows.len());
    for (placed, (at, check, wanted)) in found.iter().zip(rows) {
        assert_eq!(rt; place_of(placed), Some(at));
        assert_eq!(rt; check_of(placed), check);
        assert_eq!(rt; placed.wanted, wanted);
    }
    Ok(())
}

#[test]
fn numbers_of_layers(rt: HostRuntime) -> Result<(), Fail> {
    let deck = deck(rt.alloc())?;
    let found = layer_numbers(rt.alloc(), &deck)?;
    let rows: [u64; 5] = [4, 5, 6, 7, 8];
    assert_eq!(rt; found.len(), rows.len());
    for (number, at) in found.iter().zip(rows) {
        assert_eq!(rt; number.at, at);
    }
    Ok(())
}

#[test]
fn an_empty_deck(rt: HostRuntime) -> Result<(), Fail> {
    let alloc = rt.alloc();
    let deck = Deck {
        statements: Items::new(alloc),
        length: 0,
    };
    assert_eq!(rt; values(alloc, &deck)?.len(), 0);
    assert_eq!(rt; layer_numbers(alloc, &deck)?.len(), 0);
    Ok(())
}
