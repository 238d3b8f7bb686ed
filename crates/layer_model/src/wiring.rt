//! Which operations read which.

ghost use Rattle.std.specs.Prelude.{◌≡◌, ◌↔◌, IsTrue, IfOk, SomeIff};
ghost use Rattle.layer_model.specs.Wirings.{CountsReaders, IsWiring};
ghost use Rattle.layer_model.specs.Working.Forms.{AllFormed, AllUsed, IsFormed};

use crate::readers::reader_counts;
use std::alloc::{AllocError, Global};
use std::marker::Model;

/// The inputs of an operation, by their numbers, and whether its layer is reported.
#[derive(Clone, Copy, Debug, PartialEq, Eq)]
pub struct Wire {
    pub first: Option<u32>,
    pub second: Option<u32>,
    pub reported: bool,
}

/// The wires of all operations, by number. Contracts see it as their list.
#[derive(Debug, Drop)]
pub struct Wiring {
    pub wires: Vec<Wire>,
}

impl Model for Wiring {
    ghost use Rattle.std.specs.Prelude.{List};
    ghost use Rattle.layer_model.specs.declared.wiring.Wire.{Wire};
    ghost use Rattle.layer_model.specs.Wirings.{IsWiring};

    ghost Value = { List Wire };

    ghost view = { λ w. w.wires.items };

    ghost invariant = { λ w. IsWiring w.wires.items };
}

impl Wiring {
    /// The wiring of these wires, if they are one. It fails only for want of memory.
    pub fn checked(alloc: Global, wires: Vec<Wire>) -> Result<Option<Wiring>, AllocError>
        ensures { IfOk result (λ w. SomeIff w (IsWiring wires.items) wires.items) }
    {
        let counts = reader_counts(alloc, &wires)?;
        if is_wiring(&wires, &counts) {
            Ok(Some(Wiring { wires }))
        } else {
            Ok(None)
        }
    }

    /// The wires, by the numbers of their operations.
    pub fn list(&self) -> &[Wire]
        ensures same { result.now ≡ self.now }
        ensures formed { IsWiring self.now }
    {
        self.wires.as_slice()
    }
}

fn is_formed(wire: Wire, op: usize) -> bool
    ensures { IsTrue result ↔ IsFormed wire op }
{
    match (wire.first, wire.second) {
        (None, None) => true,
        (Some(first), None) => (first as usize) < op,
        (None, Some(_)) => false,
        (Some(first), Some(second)) => (first as usize) < op && (second as usize) < op,
    }
}

fn all_formed(wires: &[Wire]) -> bool
    ensures { IsTrue result ↔ AllFormed wires.now }
{
    for op in 0..wires.len() {
        if !is_formed(wires[op], op) {
            return false;
        }
    }
    true
}

fn all_used(wires: &[Wire], counts: &[u64]) -> bool
    requires { CountsReaders wires.now counts.now }
    ensures { IsTrue result ↔ AllUsed wires.now }
{
    for op in 0..wires.len() {
        if !wires[op].reported && counts[op] == 0 {
            return false;
        }
    }
    true
}

fn is_wiring(wires: &[Wire], counts: &[u64]) -> bool
    requires { CountsReaders wires.now counts.now }
    ensures { IsTrue result ↔ IsWiring wires.now }
{
    if wires.len() > u32::MAX as usize {
        return false;
    }
    if !all_formed(wires) {
        return false;
    }
    all_used(wires, counts)
}
