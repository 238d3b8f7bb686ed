//! Small layouts, whose numbers are worked out by hand or by a program without proofs.

ghost use Rattle.std.specs.Prelude.{◌<◌, ◌≤◌, ◌^◌};

use crate::layer::merged;
use crate::layout::{Layers, MOST, layers_of};
use crate::made::{FARTHEST, made};
use crate::operation::Operation;
use std::alloc::Global;
use std::test::Fail;

// Two meshes of two wires across two: a square of 300 units with a hole of 100 in its middle, and the same 50 units
// higher and further to the right.
#[test]
fn two_rings(rt: HostRuntime) -> Result<(), Fail> {
    let alloc = rt.alloc();
    let Layers { first, second } = layers_of(alloc, "mesh", 2)?.ok_or("a shape")?;
    assert_eq!(rt; (first.rects().len(), second.rects().len()), (4, 4));
    let first = merged(alloc, first)?;
    let second = merged(alloc, second)?;
    assert_eq!(rt; (first.flips().len(), second.flips().len()), (4, 4));
    let cases = [
        ("and", 0, "flips", 6),
        ("or", 0, "flips", 6),
        ("not", 0, "flips", 6),
        ("xor", 0, "flips", 8),
        ("size", 0, "flips", 4),
        ("size", 50, "flips", 2),
        ("size", -20, "flips", 4),
        ("size", -50, "flips", 0),
        ("rectangles", 0, "rectangles", 4),
        ("boundary", 0, "runs", 8),
    ];
    for (word, by, unit, count) in cases {
        let operation = Operation::of_word(word).ok_or("an operation")?;
        assert!(rt; -FARTHEST <= by && by <= FARTHEST);
        let outcome = made(operation, by, &first, &second)?;
        assert_eq!(rt; outcome.unit(), unit, "{word} {by}");
        assert_eq!(rt; outcome.count(), count, "{word} {by}");
    }
    Ok(())
}

/// A shape and its number; the flips of the first layer, of AND, of OR and of SIZE by 50; and the runs of the boundary.
type Case<'a> = (&'a str, u32, [usize; 5]);

fn counts(alloc: Global, shape: &str, count: u32) -> Result<[usize; 5], Fail>
    requires some { 0 < count }
    requires most { count ≤ 2 ^ 20 }
{
    let Layers { first, second } = layers_of(alloc, shape, count)?.ok_or("a shape")?;
    let first = merged(alloc, first)?;
    let second = merged(alloc, second)?;
    Ok([
        first.flips().len(),
        made(Operation::And, 0, &first, &second)?.count(),
        made(Operation::Or, 0, &first, &second)?.count(),
        made(Operation::Size, 50, &first, &second)?.count(),
        made(Operation::Boundary, 0, &first, &second)?.count(),
    ])
}

#[test]
fn layouts_of_each_shape(rt: HostRuntime) -> Result<(), Fail> {
    let cases: [Case; 7] = [
        ("random", 1000, [986, 407, 1944, 936, 1972]),
        ("fine", 1000, [985, 410, 1932, 985, 1970]),
        ("wires", 500, [20000, 1000, 20000, 19982, 40000]),
        ("mesh", 5, [34, 66, 36, 2, 68]),
        ("comb", 50, [101, 602, 707, 65, 202]),
        ("column", 40, [80, 0, 2, 2, 160]),
        ("array", 4, [64, 32, 64, 64, 128]),
    ];
    for (shape, count, want) in cases {
        assert!(rt; 0 < count && count <= MOST);
        assert_eq!(rt; counts(rt.alloc(), shape, count)?, want, "{shape}");
    }
    assert!(rt; layers_of(rt.alloc(), "circle", 1)?.is_none());
    assert!(rt; Operation::of_word("AND").is_none());
    Ok(())
}
