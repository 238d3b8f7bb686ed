//! A pen that draws a row from left to right.

ghost use Rattle.std.specs.Prelude.{◌≡◌, IfOk, None, []};
ghost use Rattle.interval_row.specs.Working.Walk.{CanTurn, spans_turned, begun_turned};

use crate::row::Row;
use std::alloc::{AllocError, Global};

/// What is drawn so far: whole spans, and where the one that is being drawn began.
#[derive(Drop)]
pub struct Pen {
    pub row: Row,
    pub begun: Option<i64>,
}

impl Pen {
    /// A pen that has drawn nothing.
    pub fn new(alloc: Global) -> Pen
        ensures row { result.row ≡ [] }
        ensures begun { result.begun ≡ None }
    {
        Pen {
            row: Row::new(alloc),
            begun: None,
        }
    }

    /// From this place on draws, or leaves off.
    pub fn turn(&mut self, at: i64, on: bool) -> Result<(), AllocError>
        requires { CanTurn at self.old.begun self.old.row }
        ensures { IfOk result
            (λ _. (self.new.row ≡ spans_turned on at self.old.begun self.old.row)
            × (self.new.begun ≡ begun_turned on at self.old.begun)) }
    {
        if on {
            if self.begun.is_none() {
                self.begun = Some(at);
            }
        } else if let Some(lo) = self.begun {
            self.row.push_end(lo, at)?;
            self.begun = None;
        }
        Ok(())
    }
}
