//! Files of the system, and its standard output.
ghost use Rattle.std.specs.Prelude.{◌≡◌};

use crate::counts::Counts;
use crate::retry::{print_again, read_again, write_again};
use crate::{Failed, Files};
use std::alloc::Global;
use std::{fs, rt};

/// Files of the system by their paths, and its standard output. It tells nothing of what they contain.
///
/// A call of the system that fails is a fault. One that a signal interrupts has done nothing and is made again, a bounded
/// number of times. After a `begin_read` that fails, the file that was open before is still read.
#[derive(Drop)]
pub struct RealFiles<'a, R: rt::Files + Print> {
    rt: &'a R,
    counts: Counts,
    reader: Option<R::File>,
    writer: Option<R::File>,
}

impl<'a, R: rt::Files + Print> RealFiles<'a, R> {
    ghost use Rattle.std.specs.Option.{is_some};
    ghost use Rattle.drc_ports.specs.Tallies.{fresh, tally_of};

    /// No file is open yet.
    pub fn new(rt: &'a R, alloc: Global) -> RealFiles<'a, R>
        ensures { tally_of result.counts (is_some result.reader) (is_some result.writer) ≡ fresh }
    {
        RealFiles {
            rt,
            counts: Counts::new(alloc),
            reader: None,
            writer: None,
        }
    }
}

impl<'a, R: rt::Files + Print> Files for RealFiles<'a, R> {
    ghost use Rattle.std.specs.Prelude.{false, [], None};
    ghost use Rattle.std.specs.Option.{is_some};
    ghost use Rattle.drc_ports.specs.Tallies.{tally_of};

    ghost tells = { false };

    ghost tally = { λ files. tally_of files.counts (is_some files.reader) (is_some files.writer) };

    ghost contents = { λ _. record { held = λ _. None; left = []; made = λ _. None; target = []; said = [] } };

    fn begin_read(&mut self, name: String) -> Result<(), Failed> {
        let file = fs::open(self.rt, name.as_str());
        self.counts.begin(name);
        match file {
            Ok(file) => {
                self.reader = Some(file);
                Ok(())
            }
            Err(_) => Err(self.counts.read_fault()),
        }
    }

    fn read(&mut self, buf: &mut [u8]) -> Result<usize, Failed> {
        let Some(reader) = &mut self.reader else {
            unreachable!();
        };
        match read_again(reader, buf) {
            Ok(count) => Ok(count),
            Err(_) => Err(self.counts.read_fault()),
        }
    }

    fn create(&mut self, name: String) -> Result<(), Failed> {
        self.writer = None;
        let file = fs::create(self.rt, name.as_str());
        self.counts.begin(name);
        match file {
            Ok(file) => {
                self.writer = Some(file);
                Ok(())
            }
            Err(_) => Err(self.counts.write_fault()),
        }
    }

    fn write(&mut self, bytes: &[u8]) -> Result<usize, Failed> {
        let Some(writer) = &mut self.writer else {
            unreachable!();
        };
        match write_again(writer, bytes) {
            Ok(count) if count > 0 => Ok(count),
            _ => Err(self.counts.write_fault()),
        }
    }

    fn say(&mut self, bytes: &[u8]) -> Result<usize, Failed> {
        match print_again(self.rt, bytes) {
            Ok(count) if count > 0 => Ok(count),
            _ => Err(self.counts.say_fault()),
        }
    }
}
