//! A program that replays a trace over a chain of operations, of which each reads the one before and the last is reported:
//! `chain_replay COUNT FILE`. `bench/replay.py` times it.
#![tactic(auto)]

use anyhow::Context;
use layer_model::{Wire, Wiring};
use std::alloc::{AllocError, Global};
use std::{env, fs};
use trace_replay::replay;

/// The wires of a chain of so many operations.
fn chain(alloc: Global, count: u32) -> Result<Vec<Wire>, AllocError> {
    let mut wires = Vec::new(alloc);
    for op in 0..count {
        wires.push(Wire {
            first: if op > 0 { Some(op - 1) } else { None },
            second: None,
            reported: op == count - 1,
        })?;
    }
    Ok(wires)
}

fn main(rt: HostRuntime) -> anyhow::Result<()> {
    let alloc = rt.alloc();
    let mut words = env::args(&rt)?.skip(1);
    let count = words.next().context("how many operations?")?;
    let name = words.next().context("which trace?")?;
    let count: u32 = count.as_str().parse()?;
    let text = fs::read(&rt, name.as_str())?;
    let wiring = Wiring::checked(alloc, chain(alloc, count)?)?.context("no chain")?;
    let summary = replay(alloc, &wiring, None, None, &text)?;
    println!(rt;
        "replay ok operations {} events {} peak {}",
        summary.operations, summary.events, summary.peak
    )?;
    Ok(())
}
