//! The input places, by number: place k of operation i is 2 i + k.

ghost use Rattle.std.specs.Prelude.{◌≡◌, ℕ, ◌+◌, ◌*◌, ◌<◌, ◌≤◌, ◌^◌, length, Some, IfOk};
ghost use Rattle.layer_model.specs.Wirings.{IsWiring};
ghost use Rattle.ledger_table.specs.Working.Places.{read_at, IsLastBelow, AreLinked};

use layer_model::{Wire, Wiring};
use std::alloc::{AllocError, Global};
use std::marker::Model;

/// The wires, with the places that read one operation linked downwards. Contracts see the wires.
#[derive(Debug, Drop)]
pub(crate) struct Places {
    wires: Vec<Wire>,
    last: Vec<Option<usize>>,
    earlier: Vec<Option<usize>>,
}

impl Model for Places {
    ghost use Rattle.std.specs.Prelude.{◌*◌, List, length};
    ghost use Rattle.layer_model.specs.declared.wiring.Wire.{Wire};
    ghost use Rattle.layer_model.specs.Wirings.{IsWiring};
    ghost use Rattle.ledger_table.specs.Working.Places.{AreLinked};

    ghost Value = { List Wire };

    ghost view = { λ p. p.wires.items };

    ghost invariant = { λ p. IsWiring p.wires.items × AreLinked p.wires.items p.last.items p.earlier.items (2 * length p.wires.items) };
}

impl Places {
    /// The places of a wiring. It fails only for want of memory.
    pub(crate) fn new(alloc: Global, wiring: &Wiring) -> Result<Places, AllocError>
        ensures { IfOk result (λ p. p ≡ wiring.now) }
    {
        let list = wiring.list();
        let wires = Vec::from_slice(alloc, list)?;
        let mut last = vec![in alloc; None; list.len()]?;
        let mut earlier = vec![in alloc; None; 2 * list.len()]?;
        link_all(list, &mut last, &mut earlier);
        Ok(Places {
            wires,
            last,
            earlier,
        })
    }

    /// The wires.
    pub(crate) fn wires(&self) -> &[Wire]
        ensures same { result.now ≡ self.now }
        ensures formed { IsWiring self.now }
    {
        self.wires.as_slice()
    }

    /// The last place that reads the operation.
    pub(crate) fn last_reader(&self, op: usize) -> Option<usize>
        requires { op < length self.now }
        ensures { IsLastBelow self.now op (2 * length self.now) result }
    {
        self.last[op]
    }

    /// The place before this one that reads the same operation.
    pub(crate) fn earlier_reader(&self, place: usize) -> Option<usize>
        requires { place < 2 * length self.now }
        ensures { (j : ℕ) → read_at self.now place ≡ Some j → IsLastBelow self.now j place result }
    {
        self.earlier[place]
    }
}

/// The operation that the place reads.
fn read_at(wires: &[Wire], place: usize) -> Option<u32>
    ensures { result ≡ read_at wires.now place }
{
    let wire = wires.get(place / 2)?;
    if place % 2 == 0 {
        wire.first
    } else {
        wire.second
    }
}

fn link_all(wires: &[Wire], last: &mut [Option<usize>], earlier: &mut [Option<usize>])
    requires wiring { IsWiring wires.now }
    requires none { AreLinked wires.now last.old earlier.old 0 }
    ensures { AreLinked wires.now last.new earlier.new (2 * length wires.now) }
{
    for place in 0..2 * wires.len() {
        link(wires, last, earlier, place);
    }
}

/// Links one more place.
fn link(wires: &[Wire], last: &mut [Option<usize>], earlier: &mut [Option<usize>], place: usize)
    requires wiring { IsWiring wires.now }
    requires there { place < 2 * length wires.now }
    requires below { AreLinked wires.now last.old earlier.old place }
    ensures { AreLinked wires.now last.new earlier.new (place + 1) }
{
    if let Some(op) = read_at(wires, place) {
        let op = op as usize;
        earlier[place] = last[op];
        last[op] = Some(place);
    }
}
