//! Files in memory, which may fail as planned.
ghost use Rattle.std.specs.Prelude.{◌≡◌, ◌<◌, ◌≤◌, None, length, IsTrue, IfOk, string_bytes};

use crate::counts::Counts;
use crate::held_file::HeldFile;
use crate::held_files::{append_to_first, find, put_empty};
use crate::plan::{CallKind, Calls, Plan, Planned};
use crate::reading::Reading;
use crate::{Failed, Files};
use drc_geom::Name;
use std::alloc::Global;

/// Files in memory. What is held can be read; what is created stands apart from that, the newest file first.
///
/// It tells all. A call fails where that is planned, and a call that grows where memory is refused.
#[derive(Drop)]
pub struct MemoryFiles {
    alloc: Global,
    held: Vec<HeldFile>,
    plan: Plan,
    counts: Counts,
    reading: Option<Reading>,
    made: Vec<HeldFile>,
    writing: bool,
    said: Vec<u8>,
    ghost reads_some: { 0 < plan.read_piece },
    ghost writes_some: { 0 < plan.write_piece },
    ghost has_target: { IsTrue writing → 0 < length made.items },
}

impl MemoryFiles {
    ghost use Rattle.std.specs.Option.{option_copied};
    ghost use Rattle.drc_ports.specs.Tallies.{fresh};
    ghost use Rattle.drc_ports.specs.Plans.{no_calls};
    ghost use Rattle.drc_ports.specs.Memory.{memory_tally, memory_contents, memory_plan, holding};

    /// Holds these files, of different names. A read takes at most `read_piece` bytes, a write and a say at most
    /// `write_piece`.
    pub fn new(
        alloc: Global,
        held: Vec<HeldFile>,
        read_piece: usize,
        write_piece: usize,
        fails: Vec<Planned>,
    ) -> MemoryFiles
        requires read { 0 < read_piece }
        requires write { 0 < write_piece }
        ensures tally { memory_tally result ≡ fresh }
        ensures contents { memory_contents result ≡ holding held.items }
        ensures plan { memory_plan result ≡ record { read_piece = read_piece; write_piece = write_piece; fails = fails; calls = no_calls } }
    {
        MemoryFiles {
            alloc,
            held,
            plan: Plan {
                read_piece,
                write_piece,
                fails,
                calls: Calls::none(),
            },
            counts: Counts::new(alloc),
            reading: None,
            made: Vec::new(alloc),
            writing: false,
            said: Vec::new(alloc),
        }
    }

    /// The bytes of the file that was created last by this name.
    pub fn made(&self, name: &Name) -> Option<&[u8]>
        ensures { option_copied result ≡ (memory_contents self.now).made name.now }
    {
        let place = find(&self.made, name.bytes())?;
        Some(&self.made[place].bytes)
    }

    /// What was said.
    pub fn said(&self) -> &[u8]
        ensures { result.now ≡ (memory_contents self.now).said }
    {
        &self.said
    }
}

impl Files for MemoryFiles {
    ghost use Rattle.std.specs.Prelude.{true, ◌⊎◌, ◌↔◌, min, IsErr};
    ghost use Rattle.drc_ports.specs.Files.{begin_read_tally, BeginsRead, read_tally, Reads, create_tally, Creates, write_tally, Writes, say_tally, Says, TakesSome};
    ghost use Rattle.drc_ports.specs.Memory.{memory_tally, memory_contents, memory_plan};
    ghost use Rattle.drc_ports.specs.Plans.{called, IsPlanned};
    ghost use Rattle.drc_ports.specs.declared.plan.CallKind.TheVariants.{BeginRead, Read, Create, Write, Say};

    ghost tells = { true };

    ghost tally = { memory_tally };

    ghost contents = { memory_contents };

    /// Fails exactly where that is planned, or nothing of that name is held.
    fn begin_read(&mut self, name: String) -> Result<(), Failed>
        ensures counts { memory_tally self.new ≡ begin_read_tally (string_bytes name) result (memory_tally self.old) }
        ensures bytes { BeginsRead (string_bytes name) result (memory_contents self.old) (memory_contents self.new) }
        ensures plan { memory_plan self.new ≡ called BeginRead (memory_plan self.old) }
        ensures fails { IsErr result ↔ (IsPlanned BeginRead (memory_plan self.old) ⊎ ((memory_contents self.old).held (string_bytes name) ≡ None)) }
    {
        self.counts.begin(name);
        if self.plan.fails(CallKind::BeginRead) {
            return Err(self.counts.read_fault());
        }
        match find(&self.held, self.counts.opened.as_bytes()) {
            Some(file) => {
                self.reading = Some(Reading { file, position: 0 });
                Ok(())
            }
            None => Err(self.counts.read_fault()),
        }
    }

    /// Fails exactly where that is planned.
    fn read(&mut self, buf: &mut [u8]) -> Result<usize, Failed>
        requires started { IsTrue (memory_tally self.old).started }
        requires room { 0 < length buf.old }
        ensures count { IfOk result (λ count. count ≤ length buf.new) }
        ensures counts { memory_tally self.new ≡ read_tally result (memory_tally self.old) }
        ensures bytes { Reads buf.new result (memory_contents self.old) (memory_contents self.new) }
        ensures plan { memory_plan self.new ≡ called Read (memory_plan self.old) }
        ensures fails { IsErr result ↔ IsPlanned Read (memory_plan self.old) }
        ensures piece { IfOk result (λ count. count ≡ min (min (length (memory_contents self.old).left) (length buf.new)) (memory_plan self.old).read_piece) }
    {
        if self.plan.fails(CallKind::Read) {
            return Err(self.counts.read_fault());
        }
        let mut reading = self.reading.unwrap();
        let count = reading.advance(&self.held, buf, self.plan.read_piece);
        self.reading = Some(reading);
        Ok(count)
    }

    /// Fails where that is planned, and else only for want of memory.
    fn create(&mut self, name: String) -> Result<(), Failed>
        ensures counts { memory_tally self.new ≡ create_tally (string_bytes name) result (memory_tally self.old) }
        ensures bytes { Creates (string_bytes name) result (memory_contents self.old) (memory_contents self.new) }
        ensures plan { memory_plan self.new ≡ called Create (memory_plan self.old) }
        ensures fails { IsPlanned Create (memory_plan self.old) → IsErr result }
    {
        self.counts.begin(name);
        self.writing = false;
        if self.plan.fails(CallKind::Create) {
            return Err(self.counts.write_fault());
        }
        match put_empty(self.alloc, &mut self.made, self.counts.opened.as_bytes()) {
            Ok(()) => {
                self.writing = true;
                Ok(())
            }
            Err(_) => Err(self.counts.write_fault()),
        }
    }

    /// Fails where that is planned, and else only for want of memory.
    fn write(&mut self, bytes: &[u8]) -> Result<usize, Failed>
        requires writing { IsTrue (memory_tally self.old).writing }
        requires some { 0 < length bytes.now }
        ensures count { TakesSome bytes.now result }
        ensures counts { memory_tally self.new ≡ write_tally result (memory_tally self.old) }
        ensures bytes { Writes bytes.now result (memory_contents self.old) (memory_contents self.new) }
        ensures plan { memory_plan self.new ≡ called Write (memory_plan self.old) }
        ensures fails { IsPlanned Write (memory_plan self.old) → IsErr result }
        ensures piece { IfOk result (λ count. count ≡ min (length bytes.now) (memory_plan self.old).write_piece) }
    {
        if self.plan.fails(CallKind::Write) {
            return Err(self.counts.write_fault());
        }
        let count = bytes.len().min(self.plan.write_piece);
        match append_to_first(&mut self.made, &bytes[..count]) {
            Ok(()) => Ok(count),
            Err(_) => Err(self.counts.write_fault()),
        }
    }

    /// Fails where that is planned, and else only for want of memory.
    fn say(&mut self, bytes: &[u8]) -> Result<usize, Failed>
        requires some { 0 < length bytes.now }
        ensures count { TakesSome bytes.now result }
        ensures counts { memory_tally self.new ≡ say_tally result (memory_tally self.old) }
        ensures bytes { Says bytes.now result (memory_contents self.old) (memory_contents self.new) }
        ensures plan { memory_plan self.new ≡ called Say (memory_plan self.old) }
        ensures fails { IsPlanned Say (memory_plan self.old) → IsErr result }
        ensures piece { IfOk result (λ count. count ≡ min (length bytes.now) (memory_plan self.old).write_piece) }
    {
        if self.plan.fails(CallKind::Say) {
            return Err(self.counts.say_fault());
        }
        let count = bytes.len().min(self.plan.write_piece);
        match self.said.extend_from_slice(&bytes[..count]) {
            Ok(()) => Ok(count),
            Err(_) => Err(self.counts.say_fault()),
        }
    }
}
