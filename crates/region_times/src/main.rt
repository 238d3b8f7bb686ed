//! A program that times what is done with regions: `region_times SHAPE COUNT OPERATION [BY]` makes the two layers of a
//! layout, merges each, and does an operation with them. It says how many flips, rectangles or runs come of it.
//! `bench/regions.py` times it.
//!
//! SHAPE is random, fine, wires, mesh, comb, column or array. OPERATION is `none`, where the layers aren't merged
//! either; `merge`; and, or, not and xor, of the first layer and the second; size, rectangles and boundary, of the
//! first. BY is by how many database units `size` grows, or shrinks where it is negative.
#![tactic(auto)]

mod draw;
mod layer;
mod layout;
mod made;
mod operation;
mod outcome;
#[cfg(test)]
mod plain_tests;
mod random;
mod regular;
#[cfg(test)]
mod tests;

use crate::layer::merged;
use crate::layout::{Layers, MOST, layers_of};
use crate::made::{FARTHEST, made};
use crate::operation::Operation;
use anyhow::{Context, bail};
use std::env;

fn main(rt: HostRuntime) -> anyhow::Result<()> {
    let alloc = rt.alloc();
    let mut words = env::args(&rt)?.skip(1);
    let shape = words.next().context("which shape?")?;
    let count = words.next().context("how many?")?;
    let word = words.next().context("which operation?")?;
    let count: u32 = count.as_str().parse()?;
    let by: i64 = match words.next() {
        Some(by) => by.as_str().parse()?,
        None => 0,
    };
    if count == 0 || count > MOST || by < -FARTHEST || by > FARTHEST {
        bail!("1 to {MOST}, by at most {FARTHEST}");
    }
    let Layers { first, second } = layers_of(alloc, shape.as_str(), count)?.context(
        "no such shape",
    )?;
    if word.as_str() == "none" {
        println!(rt;
            "rectangles {} {}",
            first.rects().len(),
            second.rects().len()
        )?;
        return Ok(());
    }
    let first = merged(alloc, first)?;
    let second = merged(alloc, second)?;
    if word.as_str() == "merge" {
        println!(rt; "flips {} {}", first.flips().len(), second.flips().len())?;
        return Ok(());
    }
    let operation = Operation::of_word(word.as_str()).context("no such operation")?;
    let outcome = made(operation, by, &first, &second)?;
    println!(rt; "{} {}", outcome.unit(), outcome.count())?;
    Ok(())
}
