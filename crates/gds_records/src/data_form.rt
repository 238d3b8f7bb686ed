//! What a record's byte of data type stands for.

ghost use Rattle.std.specs.Prelude.{◌≡◌, ◌≢◌, ◌↔◌, MatchOption, Some, IsTrue};
ghost use Rattle.gds_records.specs.declared.data_form.DataForm.{DataForm};
ghost use Rattle.gds_records.specs.RecordTypes.{form_code_of};

use crate::Record;

/// What the data of a record is made of.
#[derive(Clone, Copy, Debug, PartialEq, Eq)]
pub enum DataForm {
    NoData,
    BitArray,
    /// Signed numbers of two bytes.
    TwoByte,
    /// Signed numbers of four bytes.
    FourByte,
    EightByteReal,
    Text,
}

impl Record {
    /// What the data is made of; None for a byte that stands for no data type.
    pub fn data_form(&self) -> Option<DataForm>
        ensures { (form : DataForm) → (result ≡ Some form) ↔ (form_code_of form ≡ self.now.form) }
    {
        form_of(self.form)
    }
}

fn form_of(byte: u8) -> Option<DataForm>
    ensures { MatchOption result ((form : DataForm) → form_code_of form ≢ byte) (λ form. form_code_of form ≡ byte) }
{
    match byte {
        0 => Some(DataForm::NoData),
        1 => Some(DataForm::BitArray),
        2 => Some(DataForm::TwoByte),
        3 => Some(DataForm::FourByte),
        5 => Some(DataForm::EightByteReal),
        6 => Some(DataForm::Text),
        _ => None,
    }
}
