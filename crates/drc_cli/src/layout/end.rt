//! Why a layout wasn't read.

ghost use Rattle.std.specs.Prelude.{◌≡◌};
ghost use Rattle.drc_cli.specs.declared.layout.end.LayoutEnd.TheVariants.{Memory};

use gds_records::LayoutRefusal;
use std::alloc::AllocError;

/// Why a layout gave no rectangles.
#[derive(Debug, Drop)]
pub enum LayoutEnd {
    Refused(LayoutRefusal),
    /// A read failed before any fact for which the layout is refused.
    ReadFault,
    Memory,
}

impl From<AllocError> for LayoutEnd {
    ghost from_gives = { λ _ e. e ≡ Memory };

    fn from(_e: AllocError) -> LayoutEnd {
        LayoutEnd::Memory
    }
}
