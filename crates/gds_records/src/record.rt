ghost use Rattle.std.specs.Prelude.{◌↔◌, IsTrue};

use crate::{DataForm, RecordType};

/// A record of the stream: the offset of its first byte, its record type, its data type and its data.
#[derive(Debug, Drop)]
pub struct Record {
    pub at: u64,
    pub kind: u8,
    pub form: u8,
    pub body: Vec<u8>,
}

impl Record {
    ghost use Rattle.gds_records.specs.Records.{IsOf};
    ghost use Rattle.gds_records.specs.Stream.{item_of};

    /// Is it of this type, with data of this form?
    pub fn is_of(&self, kind: RecordType, form: DataForm) -> bool
        ensures { IsTrue result ↔ IsOf kind form (item_of self.now) }
    {
        self.has_type(kind) && self.data_form() == Some(form)
    }
}
