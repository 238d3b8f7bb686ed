//! The calls that make events.

ghost use Rattle.std.specs.Prelude.{◌≡◌, ℕ, ◌+◌, ◌<◌, length, Some, slice_get, slice_set, true, if◌then◌else◌};
ghost use Rattle.layer_model.specs.Wirings as wirings;
ghost use Rattle.layer_model.specs.Wirings.{reader_count};
ghost use Rattle.ledger_history.specs.declared.event.Event.{Event};
ghost use Rattle.ledger_history.specs.Histories.{is_stopped, is_let_go};
ghost use Rattle.ledger_history.specs.Enabled.{Enabled, Legal};
ghost use Rattle.ledger_table.specs.Ledgers.{setup_of};
ghost use Rattle.ledger_core.specs.declared.condition.Condition.{Condition};
ghost use Rattle.ledger_core.specs.Jobs.{setup_for};
ghost use Rattle.ledger_core.specs.Tokens.{Stock};
ghost use Rattle.ledger_core.specs.Machines.{SeatAgrees, TicketAgrees, ChargedAgrees, PublishedAgrees, IsIdle, after};
ghost use Rattle.ledger_core.specs.Answers.{Claims, FindsLowest, Charges, Publishes, Releases, Stops};
ghost use Rattle.ledger_core.specs.Working.Turns.{condition_at, IsGivenAt};

use crate::answers::{ChargeAnswer, Claim, Given};
use crate::condition::Condition;
use crate::copies::{Copies, Loan};
use crate::job::Job;
use crate::shelf::Shelf;
use crate::state::State;
use crate::tokens::{Charged, Published, Seat, Ticket};
use layer_model::Wire;
use ledger_history::Event;
use ledger_history::plain::{input, input_count};
use ledger_table::Table;

impl<J: Job> State<J> {
    /// Claims the lowest ready operation for the worker. Where nobody is busy it never answers `NotYet`.
    pub fn claim(&mut self, seat: Seat) -> Claim<J>
        requires { SeatAgrees self.old seat }
        ensures claims { Claims (setup_for J.wiring J.cost_of J.budget J.workers) self.old seat result self.new }
        ensures legal { Legal (setup_for J.wiring J.cost_of J.budget J.workers) self.new.events }
        ensures alone { IsIdle self.old → FindsLowest (setup_for J.wiring J.cost_of J.budget J.workers) result self.new }
    {
        if self.table.is_stopped() {
            return Claim::Stopped(seat);
        }
        if self.table.is_complete() {
            return Claim::Done(seat);
        }
        match self.table.next() {
            Some(op) => Claim::Work(self.take(seat, op)),
            None => Claim::NotYet(seat),
        }
    }

    fn take(&mut self, seat: Seat, op: u32) -> Ticket<J>
        requires agrees { SeatAgrees self.old seat }
        requires enabled { Enabled (setup_for J.wiring J.cost_of J.budget J.workers) self.old.events (Event.Claim seat.worker op) }
        ensures worker { result.worker ≡ seat.worker }
        ensures op { result.op ≡ op }
        ensures machine { self.new ≡ after self.old (Event.Claim seat.worker op) seat.worker (Condition.Claimed op) }
    {
        let Seat { worker } = seat;
        let wires = self.table.wires();
        let first = input(wires, op, 0);
        let second = input(wires, op, 1);
        let first = self.shelf.lend(first);
        let second = self.shelf.lend(second);
        let readers = self.readers[op as usize];
        self.table.make(Event::Claim { worker, op });
        self.crew[worker as usize] = Condition::Claimed { op };
        Ticket {
            worker,
            op,
            readers,
            first,
            second,
        }
    }

    /// Charges the worker's operation with its cost.
    pub fn charge(&mut self, ticket: Ticket<J>, cost: u64) -> ChargeAnswer<J>
        requires agrees { TicketAgrees self.old ticket }
        requires cost { cost ≡ J.cost_of ticket.op }
        ensures { Charges (setup_for J.wiring J.cost_of J.budget J.workers) self.old ticket cost result self.new }
    {
        if self.table.is_stopped() {
            return ChargeAnswer::Stopped(self.drop_operation(ticket));
        }
        if !self.table.admits(ticket.op, cost) {
            return ChargeAnswer::NotYet(ticket);
        }
        ChargeAnswer::Charged(self.admit(ticket, cost))
    }

    /// Leaves the worker idle in a run that is stopped.
    fn drop_operation(&mut self, ticket: Ticket<J>) -> Seat
        requires agrees { TicketAgrees self.old ticket }
        requires stopped { is_stopped self.old.events ≡ true }
        ensures worker { result.worker ≡ ticket.worker }
        ensures machine { self.new ≡ record { events = self.old.events; crew = slice_set self.old.crew ticket.worker Condition.Idle } }
    {
        let seat = ticket.into_seat();
        self.crew[seat.worker as usize] = Condition::Idle;
        seat
    }

    fn admit(&mut self, ticket: Ticket<J>, cost: u64) -> Charged<J>
        requires agrees { TicketAgrees self.old ticket }
        requires enabled { Enabled (setup_for J.wiring J.cost_of J.budget J.workers) self.old.events (Event.Charge ticket.worker ticket.op cost) }
        ensures same { result ≡ ticket }
        ensures machine { self.new ≡ after self.old (Event.Charge ticket.worker ticket.op cost) ticket.worker (Condition.Charged ticket.op) }
    {
        let Ticket {
            worker,
            op,
            readers: _,
            first,
            second,
        } = ticket;
        self.table.make(Event::Charge { worker, op, cost });
        self.crew[worker as usize] = Condition::Charged { op };
        Charged {
            worker,
            op,
            first,
            second,
        }
    }

    /// Publishes the worker's layer: its copies stand for its readers from now on.
    pub fn publish(&mut self, charged: Charged<J>, copies: Copies<J>) -> Given<J>
        requires agrees { ChargedAgrees self.old charged }
        requires copies { copies ≡ record { op = charged.op; count = reader_count J.wiring charged.op + 1 } }
        ensures { Publishes (setup_for J.wiring J.cost_of J.budget J.workers) self.old charged result self.new }
    {
        let Charged {
            worker,
            op,
            first,
            second,
        } = charged;
        self.shelf.put(copies);
        self.table.make(Event::Publish { worker, op });
        let wires = self.table.wires();
        self.crew[worker as usize] = condition_at(wires, op, 0);
        given(wires, worker, op, 0, first, second)
    }

    /// Gives the next place of the worker's operation back.
    pub fn release(&mut self, published: Published<J>) -> Given<J>
        requires { PublishedAgrees self.old published }
        ensures { Releases (setup_for J.wiring J.cost_of J.budget J.workers) self.old published result self.new }
    {
        let Published {
            worker,
            op,
            released,
            first: _,
            second,
        } = published;
        let read = input(self.table.wires(), op, released);
        self.table.make(Event::Release {
            worker,
            op,
            place: released,
        });
        let_go(&self.table, &mut self.shelf, read);
        let wires = self.table.wires();
        let released = released + 1;
        self.crew[worker as usize] = condition_at(wires, op, released);
        given(wires, worker, op, released, None, second)
    }

    /// Stops the run, and drops the worker's operation.
    pub fn stop(&mut self, ticket: Ticket<J>) -> Seat
        requires { TicketAgrees self.old ticket }
        ensures { Stops (setup_for J.wiring J.cost_of J.budget J.workers) self.old ticket result self.new }
    {
        let seat = ticket.into_seat();
        self.table.make(Event::Stop {
            worker: seat.worker,
        });
        self.crew[seat.worker as usize] = Condition::Idle;
        seat
    }
}

/// Lets the layer go that a place has read, where the table says so.
fn let_go<J: Job>(table: &Table, shelf: &mut Shelf<J>, read: Option<u32>)
    requires there { (j : ℕ) → read ≡ Some j → j < length shelf.old }
    requires op { (j : ℕ) (x : Stock) → read ≡ Some j → slice_get shelf.old j ≡ Some x → x.op ≡ j }
    ensures { (j : ℕ) → read ≡ Some j
        → shelf.new ≡ (if is_let_go (setup_of table.now) table.now.events j then slice_set shelf.old j (record { op = j; count = 0 }) else shelf.old) }
{
    if let Some(op) = read {
        if table.is_let_go(op) {
            shelf.clear(op);
        }
    }
}

/// What a worker is at where so many places of its published operation are released.
fn condition_at(wires: &[Wire], op: u32, released: u32) -> Condition
    ensures { result ≡ condition_at wires.now op released }
{
    if input_count(wires, op) <= released {
        Condition::Idle
    } else {
        Condition::Published { op, released }
    }
}

/// What that worker has in its hands.
fn given<J: Job>(
    wires: &[Wire],
    worker: u32,
    op: u32,
    released: u32,
    first: Option<Loan<J>>,
    second: Option<Loan<J>>,
) -> Given<J>
    requires wires { wires.now ≡ J.wiring }
    requires first { released ≡ 0 → first ≡ wirings.input J.wiring op 0 }
    requires second { second ≡ wirings.input J.wiring op 1 }
    ensures { IsGivenAt J.wiring worker op released result }
{
    if input_count(wires, op) <= released {
        Given::Idle(Seat { worker })
    } else {
        Given::More(Published {
            worker,
            op,
            released,
            first,
            second,
        })
    }
}
