ghost use Rattle.std.specs.Prelude.{◌≡◌, [], string_bytes};
ghost use Rattle.drc_ports.specs.Counts.{one_more};

use crate::Failed;
use std::alloc::Global;

/// What every `Files` counts, and the name that it was given last.
#[derive(Drop)]
pub(crate) struct Counts {
    pub(crate) read_faults: u64,
    pub(crate) write_faults: u64,
    pub(crate) say_faults: u64,
    pub(crate) begun: u64,
    pub(crate) opened: String,
}

impl Counts {
    ghost use Rattle.drc_ports.specs.Tallies.{IsFresh, Begins, FailsToRead, FailsToWrite, FailsToSay};

    /// Nothing was counted, and no name was given.
    pub(crate) fn new(alloc: Global) -> Counts
        ensures { IsFresh result }
    {
        Counts {
            read_faults: 0,
            write_faults: 0,
            say_faults: 0,
            begun: 0,
            opened: String::new(alloc),
        }
    }

    /// A file is opened by this name, or isn't.
    pub(crate) fn begin(&mut self, name: String)
        ensures { Begins (string_bytes name) self.old self.new }
    {
        self.begun = self.begun.saturating_add(1);
        self.opened = name;
    }

    pub(crate) fn read_fault(&mut self) -> Failed
        ensures { FailsToRead self.old self.new }
    {
        self.read_faults = self.read_faults.saturating_add(1);
        Failed
    }

    pub(crate) fn write_fault(&mut self) -> Failed
        ensures { FailsToWrite self.old self.new }
    {
        self.write_faults = self.write_faults.saturating_add(1);
        Failed
    }

    pub(crate) fn say_fault(&mut self) -> Failed
        ensures { FailsToSay self.old self.new }
    {
        self.say_faults = self.say_faults.saturating_add(1);
        Failed
    }
}
