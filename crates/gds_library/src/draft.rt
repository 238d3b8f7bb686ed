//! The library as far as its records have come.

ghost use Rattle.std.specs.Prelude.{◌≡◌, IfOk, OnOk};
ghost use Rattle.gds_records.specs.Stream.{item_of};
ghost use Rattle.gds_library.specs.Drafts.{first_draft, library_of, step};

use crate::fields::real;
use crate::part::{Part, part_of};
use crate::{Keep, Library, Structure};
use gds_records::Record;
use std::alloc::{AllocError, Global};
use std::marker::Model;
use std::mem;

/// The library as far as its records have come.
#[derive(Drop)]
pub struct Draft {
    alloc: Global,
    units: Vec<u8>,
    structures: Vec<Structure>,
    current: Structure,
    fields: Vec<Record>,
    end_at: u64,
}

impl Model for Draft {
    ghost use Rattle.std.specs.Prelude.{map};
    ghost use Rattle.gds_records.specs.Stream.{item_of};
    ghost use Rattle.gds_library.specs.Drafts as drafts;

    ghost Value = { drafts.Draft };

    ghost view = { λ d. record { units = d.units.items; structures = d.structures.items; current = d.current; fields = map item_of d.fields.items; end_at = d.end_at } };
}

impl Draft {
    /// The draft of which nothing has come.
    pub fn new(alloc: Global) -> Result<Draft, AllocError>
        ensures { IfOk result (λ draft. draft ≡ first_draft) }
    {
        Ok(Draft {
            alloc,
            units: Vec::new(alloc),
            structures: Vec::new(alloc),
            current: Structure::new(alloc, 0)?,
            fields: Vec::new(alloc),
            end_at: 0,
        })
    }

    /// Takes one more record.
    pub fn take(&mut self, item: Record, keep: &Keep) -> Result<(), AllocError>
        ensures { OnOk result (self.new ≡ step keep.now (item_of item) self.old) }
    {
        match part_of(item.kind) {
            Part::Units => self.units = item.body,
            Part::BeginStructure => self.current = Structure::new(self.alloc, item.at)?,
            Part::StructureName => self.current.set_name(self.alloc, &item.body)?,
            Part::EndStructure => {
                let blank = Structure::new(self.alloc, 0)?;
                self.structures
                    .push(mem::replace(&mut self.current, blank))?;
            }
            Part::EndLibrary => self.end_at = item.at,
            Part::EndElement => {
                self.current.add(self.alloc, &self.fields, keep)?;
                self.fields.clear();
            }
            Part::Property => {}
            Part::Open => {
                self.fields.clear();
                self.fields.push(item)?;
            }
            Part::Other => {
                if !self.fields.is_empty() {
                    self.fields.push(item)?;
                }
            }
        }
        Ok(())
    }

    /// The library as far as it has come.
    pub fn library(self) -> Library
        ensures { result ≡ library_of self }
    {
        Library {
            user_units: real(&self.units, 0),
            metres: real(&self.units, 1),
            structures: self.structures,
            end_at: self.end_at,
        }
    }
}
