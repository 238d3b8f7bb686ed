//! The library of a stream.

ghost use Rattle.std.specs.Prelude.{◌≡◌};

use crate::Structure;
use gds_records::Real8;
use std::marker::Model;

/// The library that a stream says, as much of it as is kept.
#[derive(Debug, Drop)]
pub struct Library {
    pub(crate) user_units: Real8,
    pub(crate) metres: Real8,
    pub(crate) structures: Vec<Structure>,
    pub(crate) end_at: u64,
}

impl Model for Library {
    ghost use Rattle.gds_library.specs.Library as library;

    ghost Value = { library.Library };

    ghost view = { λ l. record { user_units = l.user_units; metres = l.metres; structures = l.structures.items; end_at = l.end_at } };
}

impl Library {
    /// The size of a database unit in user units.
    pub fn user_units(&self) -> Real8
        ensures { result ≡ self.now.user_units }
    {
        self.user_units
    }

    /// The size of a database unit in metres.
    pub fn metres(&self) -> Real8
        ensures { result ≡ self.now.metres }
    {
        self.metres
    }

    /// Its structures, in the order of the stream.
    pub fn structures(&self) -> &[Structure]
        ensures { result.now ≡ self.now.structures }
    {
        &self.structures
    }

    /// The offset of its ENDLIB.
    pub fn end_at(&self) -> u64
        ensures { result ≡ self.now.end_at }
    {
        self.end_at
    }
}
