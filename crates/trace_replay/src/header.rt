//! The header of a trace against what is asked for.

ghost use Rattle.std.specs.Prelude.{◌↔◌, ◌⊎◌, ◌<◌, IsTrue, IfSome, IfNone};
ghost use Rattle.trace_text.specs.Traces.{told};
ghost use Rattle.trace_text.specs.Refusals.{Differs};
ghost use Rattle.trace_replay.specs.Working.Headers.{terms_of, HeaderFits, IsOffAt};

use layer_model::Wire;
use trace_text::Trace;

/// What a trace is held against: the wires, and the number of workers and the budget, where they are asked for.
#[derive(Clone, Copy)]
pub struct Asked<'a> {
    pub wires: &'a [Wire],
    pub workers: Option<u32>,
    pub budget: Option<u64>,
}

fn differs(asked: Option<u64>, given: u64) -> bool
    ensures { IsTrue result ↔ Differs asked given }
{
    match asked {
        Some(asked) => asked != given,
        None => false,
    }
}

fn workers_are_off(asked: Option<u32>, given: u32) -> bool
    ensures { IsTrue result ↔ (((given < 1) ⊎ (64 < given)) ⊎ Differs asked given) }
{
    match asked {
        Some(asked) => given < 1 || given > 64 || asked != given,
        None => given < 1 || given > 64,
    }
}

/// The line of the header's first number that isn't as it should be, of the lines that were read.
pub fn mismatch(asked: &Asked<'_>, lines: u64, trace: &Trace) -> Option<u64>
    ensures some { IfSome result (λ line. IsOffAt (terms_of asked.now) lines (told trace.now) line) }
    ensures none { IfNone result (HeaderFits (terms_of asked.now) lines (told trace.now)) }
{
    let header = &trace.history;
    if lines >= 2 && header.operations as usize != asked.wires.len() {
        Some(2)
    } else if lines >= 3 && workers_are_off(asked.workers, header.workers) {
        Some(3)
    } else if lines >= 4 && differs(asked.budget, header.budget) {
        Some(4)
    } else {
        None
    }
}
