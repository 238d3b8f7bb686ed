ghost use Rattle.std.specs.Prelude.{◌≡◌, ◌↔◌, IsTrue};
ghost use Rattle.drc_ports.specs.Counts.{one_more};

/// A method of `Files`.
#[derive(Clone, Copy, Debug, PartialEq, Eq)]
pub enum CallKind {
    BeginRead,
    Read,
    Create,
    Write,
    Say,
}

/// The nth call of a method, counted from 1, is to fail.
#[derive(Clone, Copy, Debug, PartialEq, Eq)]
pub struct Planned {
    pub call: CallKind,
    pub nth: u64,
}

/// How often each method was called.
#[derive(Drop)]
pub(crate) struct Calls {
    pub(crate) begin_read: u64,
    pub(crate) read: u64,
    pub(crate) create: u64,
    pub(crate) write: u64,
    pub(crate) say: u64,
}

/// How much a call transfers at most, which calls are to fail, and how often each method was called.
#[derive(Drop)]
pub(crate) struct Plan {
    pub(crate) read_piece: usize,
    pub(crate) write_piece: usize,
    pub(crate) fails: Vec<Planned>,
    pub(crate) calls: Calls,
}

impl Calls {
    ghost use Rattle.drc_ports.specs.Plans.{no_calls, calls_of, with_call};

    pub(crate) fn none() -> Calls
        ensures { result ≡ no_calls }
    {
        Calls {
            begin_read: 0,
            read: 0,
            create: 0,
            write: 0,
            say: 0,
        }
    }

    /// Counts a call, and answers the how manieth of its method it is.
    fn count(&mut self, call: CallKind) -> u64
        ensures counted { self.new ≡ with_call call self.old }
        ensures answer { result ≡ calls_of call self.new }
    {
        match call {
            CallKind::BeginRead => raise(&mut self.begin_read),
            CallKind::Read => raise(&mut self.read),
            CallKind::Create => raise(&mut self.create),
            CallKind::Write => raise(&mut self.write),
            CallKind::Say => raise(&mut self.say),
        }
    }
}

/// One more, and the answer.
fn raise(count: &mut u64) -> u64
    ensures raised { count.new ≡ one_more count.old }
    ensures answer { result ≡ count.new }
{
    *count = count.saturating_add(1);
    *count
}

impl Plan {
    ghost use Rattle.drc_ports.specs.Plans.{called, IsPlanned};

    /// Counts a call, and answers whether it is to fail.
    pub(crate) fn fails(&mut self, call: CallKind) -> bool
        ensures counted { self.new ≡ called call self.old }
        ensures answer { IsTrue result ↔ IsPlanned call self.old }
    {
        let nth = self.calls.count(call);
        self.fails.contains(&Planned { call, nth })
    }
}
