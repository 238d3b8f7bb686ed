ghost use Rattle.std.specs.Prelude.{◌≡◌};
ghost use Rattle.drc_cli.specs.declared.ending.Ending.TheVariants.{Memory};

use crate::answer::{Status, Which};
use deck_tree::DeckRefusal;
use drc_geom::Name;
use gds_records::LayoutRefusal;
use std::alloc::{AllocError, AllocFailed};

/// Why a command ends before it writes or says its text.
#[derive(Debug, Drop)]
pub enum Ending {
    /// The deck is refused, with this detail.
    Deck(DeckRefusal, Name),
    /// The layout is refused.
    Layout(LayoutRefusal),
    /// The file of this name could not be read.
    ReadFault(Which, Name),
    /// Memory ran out.
    Memory,
}

impl From<AllocError> for Ending {
    ghost from_gives = { λ _ ending. ending ≡ Memory };

    fn from(_: AllocError) -> Ending {
        Ending::Memory
    }
}

impl<T: Drop> From<AllocFailed<T>> for Ending {
    ghost from_gives = { λ _ ending. ending ≡ Memory };

    fn from(_: AllocFailed<T>) -> Ending {
        Ending::Memory
    }
}
