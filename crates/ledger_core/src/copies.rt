//! Copies of a layer: one for the state, and one for each place that reads it.

ghost use Rattle.std.specs.Prelude.{◌≡◌, ℕ, ◌+◌, ◌<◌, ◌≤◌, IfOk, IfSome, is_some, nat_lt};
ghost use Rattle.std.specs.List.{All};
ghost use Rattle.std.specs.Arc.{arc_value};
ghost use Rattle.ledger_core.specs.Tokens.{Stock};

use crate::job::Job;
use std::alloc::{AllocError, Global};
use std::marker::Model;
use std::sync::Arc;

/// A layer that is lent to one input place. Contracts see the operation that it is of.
#[derive(Drop)]
pub struct Loan<J: Job> {
    op: u32,
    layer: Arc<J::Layer>,
}

impl<J: Job> Model for Loan<J> {
    ghost use Rattle.std.specs.Prelude.{ℕ};
    ghost use Rattle.std.specs.Arc.{arc_value};

    ghost Value = { ℕ };

    ghost view = { λ l. l.op };

    ghost invariant = { λ l. J.right l.op (arc_value l.layer) };
}

impl<J: Job> Loan<J> {
    /// The layer.
    pub fn layer(&self) -> &J::Layer
        ensures { J.right self.now result.now }
    {
        &*self.layer
    }
}

/// Copies of the layer of one operation. Contracts see the operation, and how many copies there are.
#[derive(Drop)]
pub struct Copies<J: Job> {
    op: u32,
    list: Vec<Arc<J::Layer>>,
}

impl<J: Job> Model for Copies<J> {
    ghost use Rattle.std.specs.Prelude.{length};
    ghost use Rattle.std.specs.List.{All};
    ghost use Rattle.std.specs.Arc.{arc_value};
    ghost use Rattle.ledger_core.specs.Tokens.{Stock};

    ghost Value = { Stock };

    ghost view = { λ c. record { op = c.op; count = length c.list.items } };

    ghost invariant = { λ c. All (λ a. J.right c.op (arc_value a)) c.list.items };
}

impl<J: Job> Copies<J> {
    /// No copy.
    pub(crate) fn none(alloc: Global, op: u32) -> Copies<J>
        ensures { result ≡ record { op = op; count = 0 } }
    {
        Copies {
            op,
            list: Vec::new(alloc),
        }
    }

    /// A copy for each place that reads the layer, and one more. It fails only for want of memory.
    pub(crate) fn of(
        alloc: Global,
        op: u32,
        layer: J::Layer,
        readers: u64,
    ) -> Result<Copies<J>, AllocError>
        requires { J.right op layer }
        ensures { IfOk result (λ c. c ≡ record { op = op; count = readers + 1 }) }
    {
        let first = Arc::new(alloc, layer)?;
        let mut list = Vec::new(alloc);
        for _reader in 0..readers {
            list.push(Arc::try_clone(&first)?)?;
        }
        list.push(first)?;
        Ok(Copies { op, list })
    }

    /// The layer.
    pub(crate) fn layer(&self) -> Option<&J::Layer>
        ensures some { is_some result ≡ nat_lt 0 self.now.count }
        ensures right { IfSome result (λ l. J.right self.now.op l.now) }
    {
        match self.list.first() {
            Some(layer) => Some(&**layer),
            None => None,
        }
    }

    /// Takes one copy out, to lend it.
    pub(crate) fn take(&mut self) -> Loan<J>
        requires { 0 < self.old.count }
        ensures loan { result ≡ self.old.op }
        ensures rest { self.old ≡ record { op = self.new.op; count = self.new.count + 1 } }
    {
        let op = self.op;
        match self.list.pop() {
            Some(layer) => Loan { op, layer },
            None => unreachable!(),
        }
    }

    /// The operation.
    pub(crate) fn op(&self) -> u32
        ensures { result ≡ self.now.op }
    {
        self.op
    }

    /// Drops all copies.
    pub(crate) fn clear(&mut self)
        ensures { self.new ≡ record { op = self.old.op; count = 0 } }
    {
        self.list.clear();
    }
}
