//! The copies of all layers.

ghost use Rattle.std.specs.Prelude.{◌≡◌, ℕ, ◌+◌, ◌<◌, List, length, Some, slice_get, slice_set, is_some, nat_lt, IfOk, IfSome};
ghost use Rattle.layer_model.specs.Wirings.{one_if_at};
ghost use Rattle.ledger_history.specs.declared.event.Event.{Event};
ghost use Rattle.ledger_history.specs.Histories.{Setup};
ghost use Rattle.ledger_core.specs.Tokens.{Stock};
ghost use Rattle.ledger_core.specs.States.{StocksWith};

use crate::copies::{Copies, Loan};
use crate::job::Job;
use std::alloc::{AllocError, Global};
use std::marker::Model;

/// The copies of each operation's layer, by operation.
#[derive(Drop)]
pub(crate) struct Shelf<J: Job> {
    stocks: Vec<Copies<J>>,
}

impl<J: Job> Model for Shelf<J> {
    ghost use Rattle.std.specs.Prelude.{List};
    ghost use Rattle.ledger_core.specs.Tokens.{Stock};

    ghost Value = { List Stock };

    ghost view = { λ s. s.stocks.items };
}

impl<J: Job> Shelf<J> {
    /// No copy of any layer. It fails only for want of memory.
    pub(crate) fn new(alloc: Global, operations: u32) -> Result<Shelf<J>, AllocError>
        ensures all { IfOk result (λ s. length s ≡ operations) }
        ensures none { IfOk result (λ s. (j : ℕ) (x : Stock) → slice_get s j ≡ Some x → x ≡ record { op = j; count = 0 }) }
    {
        let mut stocks = Vec::new(alloc);
        for op in 0..operations {
            stocks.push(Copies::none(alloc, op))?;
        }
        Ok(Shelf { stocks })
    }

    /// The number of operations.
    pub(crate) fn len(&self) -> usize
        ensures { result ≡ length self.now }
    {
        self.stocks.len()
    }

    /// The layer of the operation, if there is a copy of it.
    pub(crate) fn layer(&self, op: u32) -> Option<&J::Layer>
        requires { op < length self.now }
        ensures some { (x : Stock) → slice_get self.now op ≡ Some x → is_some result ≡ nat_lt 0 x.count }
        ensures right { IfSome result (λ l. (x : Stock) → slice_get self.now op ≡ Some x → J.right x.op l.now) }
    {
        let stock = &self.stocks[op as usize];
        stock.layer()
    }

    /// Lends a copy of the input's layer, if there is an input.
    pub(crate) fn lend(&mut self, input: Option<u32>) -> Option<Loan<J>>
        requires there { (j : ℕ) → input ≡ Some j → j < length self.old }
        requires some { (j : ℕ) (x : Stock) → input ≡ Some j → slice_get self.old j ≡ Some x → (x.op ≡ j) × (0 < x.count) }
        ensures loan { result ≡ input }
        ensures stocks { (s : Setup) (h : List Event) (places : ℕ → ℕ) → StocksWith s h (λ j. one_if_at input j + places j) self.old
            → StocksWith s h places self.new }
    {
        match input {
            Some(op) => {
                let stock = &mut self.stocks[op as usize];
                Some(stock.take())
            }
            None => None,
        }
    }

    /// Puts the copies in the place of those of their operation.
    pub(crate) fn put(&mut self, copies: Copies<J>)
        requires { copies.op < length self.old }
        ensures { self.new ≡ slice_set self.old copies.op copies }
    {
        let op = copies.op();
        self.stocks[op as usize] = copies;
    }

    /// Lets the layer of the operation go.
    pub(crate) fn clear(&mut self, op: u32)
        requires { op < length self.old }
        ensures { (x : Stock) → slice_get self.old op ≡ Some x → self.new ≡ slice_set self.old op (record { op = x.op; count = 0 }) }
    {
        let stock = &mut self.stocks[op as usize];
        stock.clear();
    }
}
