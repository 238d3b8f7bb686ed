//! Why a layout is refused.

ghost use Rattle.std.specs.Prelude.{◌≡◌};
ghost use Rattle.gds_records.specs.LayoutKinds.{layout_number, layout_word};
ghost use Rattle.gds_records.specs.declared.fault.LayoutFault.TheVariants.{Memory};

use std::alloc::{AllocError, AllocFailed};
use thiserror::Error;

/// What is wrong with a layout.
#[derive(Clone, Copy, Debug, PartialEq, Eq)]
pub enum LayoutKind {
    /// A record whose header says that it ends past the longest layout.
    LayoutTooLong,
    /// The bytes end before a whole ENDLIB.
    Truncated,
    /// A header with a length below 4 or odd.
    BadLength,
    /// A record type that the grammar of streams doesn't allow there.
    UnexpectedRecord,
    /// A record whose type is allowed there, with another data type, length or value than the grammar says.
    BadData,
    /// A UNITS that doesn't agree with the precision.
    UnitsMismatch,
    /// The STRNAME of a name that an earlier structure has.
    DuplicateStructure,
    /// No structure has the name of the primary.
    NoPrimary,
    /// An SNAME, reached from the primary, of no structure.
    MissingStructure,
    /// An SNAME, reached from the primary, whose structure reaches the one in which it stands.
    Recursion,
    /// An SNAME that is the 65th on some path of references from the primary.
    DepthLimit,
    /// A STRANS that asks for absolute magnification or an absolute angle.
    AbsoluteFlag,
    /// A MAG that isn't whole from 1 to 65,536, or makes the product on its path greater.
    Magnification,
    /// An ANGLE that isn't a whole multiple of 90 of magnitude at most 36,000.
    AngleNotRight,
    /// An XY of an AREF whose displacements don't divide by its columns and rows.
    ArrayPitch,
    /// The opening record of the 16,777,217th placed element.
    TooManyShapes,
    /// An XY of a BOUNDARY or BOX whose first and last points differ.
    NotClosed,
    /// An XY of a BOUNDARY, BOX or PATH with two consecutive points that differ in x and in y.
    NotRightAngled,
    /// A PATHTYPE 1 of a PATH.
    RoundPath,
    /// An odd WIDTH of a PATH.
    OddWidth,
    /// The XY of what is placed, or covers, outside -2^30 to 2^30.
    CoordinateRange,
    /// A record that the reader doesn't serve yet.
    NotBuilt,
}

impl LayoutKind {
    /// The reason's number.
    pub fn number(self) -> u32
        ensures { result ≡ layout_number self }
    {
        match self {
            LayoutKind::LayoutTooLong => 1,
            LayoutKind::Truncated => 2,
            LayoutKind::BadLength => 3,
            LayoutKind::UnexpectedRecord => 4,
            LayoutKind::BadData => 5,
            LayoutKind::UnitsMismatch => 6,
            LayoutKind::DuplicateStructure => 7,
            LayoutKind::NoPrimary => 8,
            LayoutKind::MissingStructure => 9,
            LayoutKind::Recursion => 10,
            LayoutKind::DepthLimit => 11,
            LayoutKind::AbsoluteFlag => 12,
            LayoutKind::Magnification => 13,
            LayoutKind::AngleNotRight => 14,
            LayoutKind::ArrayPitch => 15,
            LayoutKind::TooManyShapes => 16,
            LayoutKind::NotClosed => 17,
            LayoutKind::NotRightAngled => 18,
            LayoutKind::RoundPath => 19,
            LayoutKind::OddWidth => 20,
            LayoutKind::CoordinateRange => 21,
            LayoutKind::NotBuilt => 90,
        }
    }

    /// The reason's word.
    pub fn word(self) -> &'static str
        ensures { result.now ≡ layout_word self }
    {
        match self {
            LayoutKind::LayoutTooLong => "LayoutTooLong",
            LayoutKind::Truncated => "Truncated",
            LayoutKind::BadLength => "BadLength",
            LayoutKind::UnexpectedRecord => "UnexpectedRecord",
            LayoutKind::BadData => "BadData",
            LayoutKind::UnitsMismatch => "UnitsMismatch",
            LayoutKind::DuplicateStructure => "DuplicateStructure",
            LayoutKind::NoPrimary => "NoPrimary",
            LayoutKind::MissingStructure => "MissingStructure",
            LayoutKind::Recursion => "Recursion",
            LayoutKind::DepthLimit => "DepthLimit",
            LayoutKind::AbsoluteFlag => "AbsoluteFlag",
            LayoutKind::Magnification => "Magnification",
            LayoutKind::AngleNotRight => "AngleNotRight",
            LayoutKind::ArrayPitch => "ArrayPitch",
            LayoutKind::TooManyShapes => "TooManyShapes",
            LayoutKind::NotClosed => "NotClosed",
            LayoutKind::NotRightAngled => "NotRightAngled",
            LayoutKind::RoundPath => "RoundPath",
            LayoutKind::OddWidth => "OddWidth",
            LayoutKind::CoordinateRange => "CoordinateRange",
            LayoutKind::NotBuilt => "NotBuilt",
        }
    }
}

/// The first fact for which a layout is refused, and the offset at which it stands.
#[derive(Clone, Copy, Debug, PartialEq, Eq)]
pub struct LayoutRefusal {
    pub at: u64,
    pub kind: LayoutKind,
}

/// A layout that wasn't read.
#[derive(Debug, Drop, Error)]
pub enum LayoutFault {
    #[error("the layout is refused")]
    Refused(LayoutRefusal),
    #[error("out of memory")]
    Memory,
}

impl From<AllocError> for LayoutFault {
    ghost from_gives = { λ _ e. e ≡ Memory };

    fn from(_e: AllocError) -> LayoutFault {
        LayoutFault::Memory
    }
}

impl<T: Drop> From<AllocFailed<T>> for LayoutFault {
    ghost from_gives = { λ _ e. e ≡ Memory };

    fn from(_e: AllocFailed<T>) -> LayoutFault {
        LayoutFault::Memory
    }
}
