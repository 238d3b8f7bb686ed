//! Cuts the records of a stream that comes in pieces.

ghost use Rattle.std.specs.Prelude.{◌≡◌, ℕ, ◌+◌, ◌≤◌, [], ◌++◌, ◌⊎◌, length, false, drop, OnOk, OnErr, IfOk, IfNone, IsTrue};
ghost use Rattle.gds_records.specs.Records.{longest_layout};
ghost use Rattle.gds_records.specs.Stream.{Stream, Takes, start_of_stream, truncation};
ghost use Rattle.gds_records.specs.Working.Taking.{StartsWith};

use crate::{LayoutFault, LayoutKind, LayoutRefusal, Record, RecordType};
use byteorder::{BigEndian, ByteOrder};
use std::alloc::{AllocError, Global};
use std::marker::Model;

/// The bytes of a header.
const HEADER: usize = 4;

/// The most bytes of a layout, counted to the end of ENDLIB.
pub const LONGEST_LAYOUT: u64 = 1 << 30;

/// Cuts the records of a stream that is fed piece by piece.
#[derive(Drop)]
pub struct Framer {
    alloc: Global,
    buffer: Vec<u8>,
    /// Where what isn't taken begins in the buffer.
    start: usize,
    /// The offset in the stream at which it begins.
    at: u64,
    ended: bool,
}

impl Model for Framer {
    ghost Value = { Stream };

    ghost view = { λ f. record { at = f.at; left = drop f.start f.buffer.items; ended = f.ended } };

    ghost invariant = { λ f. (f.at ≤ longest_layout) × (f.start ≤ length f.buffer.items) };
}

impl Framer {
    /// A framer at the start of a stream of which nothing has come.
    pub fn new(alloc: Global) -> Framer
        ensures { result ≡ start_of_stream }
    {
        Framer {
            alloc,
            buffer: Vec::new(alloc),
            start: 0,
            at: 0,
            ended: false,
        }
    }

    /// Takes in the next piece of the stream, of any size. Where memory is wanting, nothing changes.
    pub fn feed(&mut self, piece: &[u8]) -> Result<(), AllocError>
        ensures ok { OnOk result (self.new ≡ record self.old { left = self.old.left ++ piece.now }) }
        ensures err { OnErr result (self.new ≡ self.old) }
    {
        self.let_go();
        self.buffer.extend_from_slice(piece)
    }

    // Lets go of the bytes that were taken, where they are no fewer than the rest that moves to the front: so no more
    // bytes are moved in all than are fed.
    fn let_go(&mut self)
        ensures { self.new ≡ self.old }
    {
        let rest = self.pending();
        if self.start < rest {
            return;
        }
        self.buffer.copy_within(self.start.., 0);
        self.buffer.truncate(rest);
        self.start = 0;
    }

    /// The next record, where it is whole; None where it isn't, or where ENDLIB was taken. A header whose length
    /// is below 4 or odd, or leads past the longest layout, is refused at its offset, now and from then on. But
    /// for a record that is given, nothing changes.
    pub fn take(&mut self) -> Result<Option<Record>, LayoutFault>
        ensures taken { Takes self.old result self.new }
        ensures little_left { IfOk result (λ taken. IfNone taken
            (IsTrue self.new.ended ⊎ (length self.new.left ≤ 65533))) }
    {
        if self.ended {
            return Ok(None);
        }
        let Some(record) = first_record(self.alloc, self.at, &self.buffer[self.start..])? else {
            return Ok(None);
        };
        let size = HEADER + record.body.len();
        self.start += size;
        self.at += size as u64;
        self.ended = record.has_type(RecordType::EndLibrary);
        Ok(Some(record))
    }

    /// How many bytes were fed and not taken.
    pub fn pending(&self) -> usize
        ensures { result ≡ length self.now.left }
    {
        self.buffer.len() - self.start
    }

    /// Was ENDLIB taken?
    pub fn ended(&self) -> bool
        ensures { result ≡ self.now.ended }
    {
        self.ended
    }

    /// What is wrong where no more bytes come: without ENDLIB the layout is truncated, at the number of its bytes.
    pub fn end(&self) -> Option<LayoutRefusal>
        ensures { result ≡ truncation self.now }
    {
        if self.ended {
            return None;
        }
        Some(LayoutRefusal {
            at: self.at + self.pending() as u64,
            kind: LayoutKind::Truncated,
        })
    }
}

// The record at the front of the bytes, which begin at the offset.
fn first_record(alloc: Global, at: u64, bytes: &[u8]) -> Result<Option<Record>, LayoutFault>
    requires { at ≤ longest_layout }
    ensures starts { StartsWith at bytes.now result }
    ensures little_left { IfOk result (λ found. IfNone found (length bytes.now ≤ 65533)) }
{
    if bytes.len() < HEADER {
        return Ok(None);
    }
    let size = BigEndian::read_u16(bytes) as usize;
    if LONGEST_LAYOUT < at + size as u64 {
        return Err(refused(at, LayoutKind::LayoutTooLong));
    }
    if size < HEADER || size % 2 == 1 {
        return Err(refused(at, LayoutKind::BadLength));
    }
    if bytes.len() < size {
        return Ok(None);
    }
    Ok(Some(Record {
        at,
        kind: bytes[2],
        form: bytes[3],
        body: Vec::from_slice(alloc, &bytes[HEADER..size])?,
    }))
}

fn refused(at: u64, kind: LayoutKind) -> LayoutFault
    ensures { result ≡ LayoutFault.Refused (record { at = at; kind = kind }) }
{
    LayoutFault::Refused(LayoutRefusal { at, kind })
}
