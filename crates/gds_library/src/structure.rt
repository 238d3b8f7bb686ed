//! A structure: its elements in the order of the stream, and the points of all of them in one list.

ghost use Rattle.std.specs.Prelude.{◌≡◌, ◌++◌, ◌≤◌, ◌∷◌, [], ℕ, length, OnOk, IfOk, MatchOption, slice_get, Some, map};
ghost use Rattle.gds_records.specs.Stream.{item_of};
ghost use Rattle.gds_library.specs.Fields.{points, name};
ghost use Rattle.gds_library.specs.Drafts.{blank, with_element};
ghost use Rattle.gds_library.specs.Meanings.{with_points};

use crate::Keep;
use crate::element::{Element, Point};
use crate::fields::{data_of, element_of, push_points};
use drc_geom::Name;
use gds_records::{Record, RecordType};
use gds_values::without_padding;
use std::alloc::{AllocError, Global};
use std::marker::Model;

/// A structure. Contracts see its name, the offset of its BGNSTR, and its elements with their points.
#[derive(Debug, Drop)]
pub struct Structure {
    name: Name,
    at: u64,
    points: Vec<Point>,
    entries: Vec<Entry>,
}

// An element, and where its points stand in the list of its structure.
#[derive(Debug, Drop)]
struct Entry {
    element: Element,
    first: usize,
    count: usize,
}

impl Model for Structure {
    ghost use Rattle.std.specs.Prelude.{map, length, All};
    ghost use Rattle.gds_library.specs.Library as library;
    ghost use Rattle.gds_library.specs.Meanings.{drawing_of, IsWithin};

    ghost Value = { library.Structure };

    ghost view = { λ s. record { name = s.name; at = s.at; elements = map (drawing_of s.points.items) s.entries.items } };

    ghost invariant = { λ s. All (IsWithin (length s.points.items)) s.entries.items };
}

impl Structure {
    /// A structure that begins at this offset, without a name and without elements.
    pub(crate) fn new(alloc: Global, at: u64) -> Result<Structure, AllocError>
        ensures { IfOk result (λ structure. structure ≡ blank at) }
    {
        Ok(Structure {
            name: Name::new(alloc, &[])?,
            at,
            points: Vec::new(alloc),
            entries: Vec::new(alloc),
        })
    }

    /// Takes its name from the data of STRNAME.
    pub(crate) fn set_name(&mut self, alloc: Global, text: &[u8]) -> Result<(), AllocError>
        ensures { OnOk result (self.new ≡ record self.old { name = name text.now }) }
    {
        self.name = Name::new(alloc, without_padding(text))?;
        Ok(())
    }

    /// Takes the element of these records, where it is one that is drawn or placed and is kept.
    pub(crate) fn add(
        &mut self,
        alloc: Global,
        records: &[Record],
        keep: &Keep,
    ) -> Result<(), AllocError>
        ensures { OnOk result (self.new ≡ with_element keep.now (map item_of records.now) self.old) }
    {
        let Some(element) = element_of(alloc, records)? else {
            return Ok(());
        };
        if !keep.keeps(&element) {
            return Ok(());
        }
        self.push(element, data_of(records, RecordType::Points))
    }

    fn push(&mut self, element: Element, body: &[u8]) -> Result<(), AllocError>
        ensures { OnOk result (self.new ≡ record self.old { elements = self.old.elements ++ with_points element (points body.now) ∷ [] }) }
    {
        let first = self.points.len();
        push_points(&mut self.points, body)?;
        let count = self.points.len() - first;
        self.entries.push(Entry {
            element,
            first,
            count,
        })?;
        Ok(())
    }

    /// The bytes of its name.
    pub fn name(&self) -> &[u8]
        ensures { result.now ≡ self.now.name }
    {
        self.name.bytes()
    }

    /// The offset of its BGNSTR.
    pub fn at(&self) -> u64
        ensures { result ≡ self.now.at }
    {
        self.at
    }

    /// How many elements it has.
    pub fn len(&self) -> usize
        ensures { result ≡ length self.now.elements }
    {
        self.entries.len()
    }

    /// The element at an index, and its points; None where there is none.
    pub fn get(&self, index: usize) -> Option<(&Element, &[Point])>
        ensures { MatchOption result (length self.now.elements ≤ index)
            (λ found. slice_get self.now.elements index ≡ Some (with_points found.0.now found.1.now)) }
    {
        let entry = self.entries.get(index)?;
        Some((
            &entry.element,
            &self.points[entry.first..entry.first + entry.count],
        ))
    }
}
