//! A results file that is being made.

ghost use Rattle.std.specs.Prelude.{◌≡◌, ◌+◌, ◌<◌, ◌≤◌, ◌*◌, ◌^◌, ◌++◌, ℕ, length, is_some, IfOk, OnOk, true};
ghost use Rattle.results_db.specs.Reports.{within, counts_text, first_line, report_text, found_in, written_in};
ghost use Rattle.results_db.specs.Making.{Making, opened, begun, with_output, finished, kept};
ghost use Rattle.results_db.specs.Working.Steps.{closed, with_name, with_lines};

use crate::lines::Lines;
use crate::push::{push_line, push_notes, push_number};
use drc_geom::Name;
use std::alloc::{AllocError, Global};
use std::marker::Model;

/// A results file that is being made. Contracts see what is kept of it (`Kept`): the text as far as it can stand, and
/// the numbers that are still wanted. After want of memory it is of no more use.
#[derive(Drop)]
pub struct Results {
    date: Vec<u8>,
    limit: Option<u64>,
    text: Vec<u8>,
    found: u128,
    written: u128,
    outputs: u32,
    current: Option<OpenCheck>,
    /// The notes of the open check and its results as text, but for those past the limit.
    body: Vec<u8>,
}

/// The check that is open: how many notes it has, and how many results so far.
#[derive(Clone, Copy)]
struct OpenCheck {
    notes: usize,
    found: u128,
}

impl Model for Results {
    ghost use Rattle.results_db.specs.Making.{Kept};

    ghost Value = { Kept };

    ghost use Rattle.results_db.specs.Contents.{check_of, IsCounted};

    ghost view = { λ r. record { date = r.date.items; limit = r.limit; text = r.text.items; found = r.found; written = r.written; outputs = r.outputs; open_check = check_of r.current r.body.items } };

    ghost invariant = { λ r. IsCounted r.found r.written r.outputs r.current };
}

/// The bytes of a results file, how many results its checks found together, and how many of them are written.
#[derive(Debug, Drop)]
pub struct Text {
    pub bytes: Vec<u8>,
    pub found: u128,
    pub written: u128,
}

impl Results {
    /// A file without checks: the primary cell, the database units in a user unit, the date that stands with each check,
    /// and the most results of a check that are written, or None for all. Errs only where memory runs out.
    pub fn new(
        alloc: Global,
        primary: &Name,
        precision: u32,
        date: &[u8],
        limit: Option<u64>,
    ) -> Result<Results, AllocError>
        ensures { IfOk result (λ r. r ≡ kept (opened primary.now precision date.now limit)) }
    {
        Ok(Results {
            date: Vec::from_slice(alloc, date)?,
            limit,
            text: first_line_of(alloc, primary, precision)?,
            found: 0,
            written: 0,
            outputs: 0,
            current: None,
            body: Vec::new(alloc),
        })
    }

    /// Begins a check of this name with these notes; the one before it is closed. Errs only where memory runs out.
    pub fn begin(&mut self, name: &Name, notes: &[Name]) -> Result<(), AllocError>
        ensures report { (making : Making) → self.old ≡ kept making → OnOk result (self.new ≡ kept (begun making name.now notes.now)) }
        ensures begun { OnOk result (is_some self.new.open_check ≡ true) }
        ensures outputs { OnOk result (self.new.outputs ≡ self.old.outputs) }
    {
        self.close()?;
        self.open_check(name, notes)
    }

    /// Adds an output of the check that was begun last. A file takes 4096 outputs. Errs only where memory runs out.
    pub fn lines(&mut self, lines: &Lines) -> Result<(), AllocError>
        requires begun { is_some self.old.open_check ≡ true }
        requires few { self.old.outputs < 4096 }
        ensures report { (making : Making) → self.old ≡ kept making → OnOk result (self.new ≡ kept (with_output making lines.now)) }
        ensures begun { OnOk result (is_some self.new.open_check ≡ true) }
        ensures outputs { OnOk result (self.new.outputs ≡ self.old.outputs + 1) }
    {
        self.add(lines)
    }

    /// The text of all checks, and how many results they found and wrote. Errs only where memory runs out.
    pub fn done(mut self) -> Result<Text, AllocError>
        ensures bytes { (making : Making) → self ≡ kept making → IfOk result (λ text. text.bytes.items ≡ report_text (finished making)) }
        ensures found { (making : Making) → self ≡ kept making → IfOk result (λ text. text.found ≡ found_in (finished making)) }
        ensures written { (making : Making) → self ≡ kept making → IfOk result (λ text. text.written ≡ written_in (finished making)) }
    {
        self.close()?;
        Ok(Text {
            bytes: self.text,
            found: self.found,
            written: self.written,
        })
    }

    // Closes the check that is open, if there is one: its numbers, its notes and its results follow its name.
    fn close(&mut self) -> Result<(), AllocError>
        ensures { OnOk result (self.new ≡ closed self.old) }
    {
        if let Some(open) = self.current {
            let written = most_of(self.limit, open.found);
            push_counts(&mut self.text, written, &open, &self.date)?;
            self.text.extend_from_slice(&self.body)?;
            self.body.clear();
            self.found += open.found;
            self.written += written;
            self.current = None;
        }
        Ok(())
    }

    fn open_check(&mut self, name: &Name, notes: &[Name]) -> Result<(), AllocError>
        requires { self.old.open_check ≡ None }
        ensures { OnOk result (self.new ≡ with_name self.old name.now notes.now) }
    {
        push_line(&mut self.text, name.bytes())?;
        self.body.clear();
        push_notes(&mut self.body, notes)?;
        self.current = Some(OpenCheck {
            notes: notes.len(),
            found: 0,
        });
        Ok(())
    }

    fn add(&mut self, lines: &Lines) -> Result<(), AllocError>
        requires begun { is_some self.old.open_check ≡ true }
        requires few { self.old.outputs < 4096 }
        ensures { OnOk result (self.new ≡ with_lines self.old lines.now) }
    {
        if let Some(open) = self.current {
            let found = open.found + u128::from(lines.found());
            let written = most_of(self.limit, open.found);
            let more = most_of(self.limit, found) - written;
            lines.push_first(&mut self.body, written + 1, more)?;
            self.current = Some(OpenCheck {
                notes: open.notes,
                found,
            });
            self.outputs += 1;
        }
        Ok(())
    }
}

// How many of so many results are written.
fn most_of(limit: Option<u64>, found: u128) -> u128
    ensures { result ≡ within limit found }
{
    match limit {
        Some(limit) => found.min(u128::from(limit)),
        None => found,
    }
}

fn first_line_of(alloc: Global, primary: &Name, precision: u32) -> Result<Vec<u8>, AllocError>
    ensures { IfOk result (λ text. text.items ≡ first_line primary.now precision) }
{
    let mut text = Vec::from_slice(alloc, primary.bytes())?;
    text.extend_from_slice(b" ")?;
    push_number(&mut text, precision)?;
    text.extend_from_slice(b"\n")?;
    Ok(text)
}

fn push_counts(
    text: &mut Vec<u8>,
    written: u128,
    check: &OpenCheck,
    date: &[u8],
) -> Result<(), AllocError>
    ensures { OnOk result (text.new.items ≡ text.old.items ++ counts_text written check.now.found check.now.notes date.now) }
{
    push_number(text, written)?;
    text.extend_from_slice(b" ")?;
    push_number(text, check.found)?;
    text.extend_from_slice(b" ")?;
    push_number(text, check.notes)?;
    text.extend_from_slice(b" ")?;
    push_line(text, date)
}
