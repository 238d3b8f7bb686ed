//! The results of one output, in the order in which they are written.

ghost use Rattle.std.specs.Prelude.{◌≡◌, ◌+◌, ◌<◌, ◌≤◌, ◌^◌, ◌++◌, length, map, take, IfOk, OnOk};
ghost use Rattle.std.specs.List.{sum_by};
ghost use Rattle.results_db.specs.Results.{run, lines_of, results_from};
ghost use Rattle.results_db.specs.Contents.{results_in};

use crate::push::push_runs;
use drc_geom::Run;
use edge_form::EdgeSet;
use std::alloc::{AllocError, Global};
use std::marker::Model;

/// The results of one output. Contracts see the list of them.
#[derive(Debug, Drop)]
pub struct Lines {
    content: Content,
    /// How many lines the results take in the file.
    count: u64,
}

/// Results of one kind.
#[derive(Debug, Drop)]
enum Content {
    Runs(Vec<Run>),
}

impl Model for Lines {
    ghost use Rattle.std.specs.Prelude.{List};
    ghost use Rattle.results_db.specs.Results.{Result};

    ghost Value = { List Result };

    ghost use Rattle.std.specs.Prelude.{◌≡◌};
    ghost use Rattle.std.specs.List.{sum_by};
    ghost use Rattle.results_db.specs.Results.{lines_of};
    ghost use Rattle.results_db.specs.Contents.{results_in};

    ghost view = { λ l. results_in l.content };

    ghost invariant = { λ l. l.count ≡ sum_by lines_of (results_in l.content) };
}

/// The results of a set of units: each of its runs, in run order. Errs only where memory runs out, also where more
/// lines than a number of 64 bits tells would be wanted.
pub fn lines_edge(alloc: Global, edges: &EdgeSet) -> Result<Lines, AllocError>
    ensures { IfOk result (λ lines. lines ≡ map run edges.now) }
{
    let runs = edges.runs();
    let count = (runs.len() as u64).checked_mul(2).ok_or(AllocError)?;
    Ok(Lines {
        content: Content::Runs(Vec::from_slice(alloc, runs)?),
        count,
    })
}

impl Lines {
    /// How many results there are.
    pub fn found(&self) -> u64
        ensures { result ≡ length self.now }
    {
        match &self.content {
            Content::Runs(runs) => runs.len() as u64,
        }
    }

    /// How many lines the results take in the file.
    pub fn count(&self) -> u64
        ensures { result ≡ sum_by lines_of self.now }
    {
        self.count
    }

    /// The first so many results at the end of a text, numbered from the given one.
    pub(crate) fn push_first(
        &self,
        text: &mut Vec<u8>,
        first: u128,
        most: u128,
    ) -> Result<(), AllocError>
        requires { first < 2 ^ 100 }
        ensures { OnOk result (text.new.items ≡ text.old.items ++ results_from first (take most self.now)) }
    {
        match &self.content {
            Content::Runs(runs) => push_runs(text, first, first_of(runs, most)),
        }
    }
}

// The first so many runs, or all where there are no more.
fn first_of(runs: &[Run], most: u128) -> &[Run]
    ensures { result.now ≡ take most runs.now }
{
    if most < runs.len() as u128 {
        &runs[..most as usize]
    } else {
        runs
    }
}
