//! A program that runs a wiring by 64 workers, each of which takes an operation in turn: `ledger_rounds SHAPE COUNT BUDGET`,
//! where SHAPE is chain, fan or comb. It says how many operations and events the run had. `bench/ledger.py` times it.
#![tactic(auto)]

#[cfg(test)]
mod drop_tests;
#[cfg(test)]
mod hand;
mod numbers;
#[cfg(test)]
mod pair;
mod run;
mod shapes;
#[cfg(test)]
mod tests;
#[cfg(test)]
mod text_tests;
#[cfg(test)]
mod walk_tests;

use crate::run::run_rounds;
use crate::shapes::{chain, comb, fan};
use anyhow::{Context, bail};
use layer_model::Wiring;
use std::env;

fn main(rt: HostRuntime) -> anyhow::Result<()> {
    let alloc = rt.alloc();
    let mut words = env::args(&rt)?.skip(1);
    let shape = words.next().context("which shape?")?;
    let count = words.next().context("how many operations?")?;
    let budget = words.next().context("which budget?")?;
    let count: u32 = count.as_str().parse()?;
    let budget: u64 = budget.as_str().parse()?;
    let wires = match shape.as_str() {
        "chain" => chain(alloc, count)?,
        "fan" => fan(alloc, count)?,
        "comb" => comb(alloc, count)?,
        _ => bail!("chain, fan or comb?"),
    };
    let wiring = Wiring::checked(alloc, wires)?.context("no wiring")?;
    let history = run_rounds(alloc, &wiring, budget)?.context("it was stopped")?;
    println!(rt;
        "ledger ok operations {} events {}",
        history.operations,
        history.events.len()
    )?;
    Ok(())
}
