/// Why a place doesn't take a value.
#[derive(Clone, Copy, Debug, PartialEq, Eq)]
pub enum UnitFault {
    ValueRange,
    /// In the range, and not a whole number of units.
    OffGrid,
}
