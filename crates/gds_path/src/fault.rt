ghost use Rattle.std.specs.Prelude.{◌≡◌};
ghost use Rattle.gds_path.specs.declared.fault.PathFault.TheVariants.{Memory};

use std::alloc::AllocError;
use thiserror::Error;

/// A path that wasn't drawn.
#[derive(Debug, Drop, Error)]
pub enum PathFault {
    /// A side of one of its rectangles lies outside -2^30 to 2^30.
    #[error("a rectangle of the path is out of range")]
    OutOfRange,
    #[error("out of memory")]
    Memory,
}

impl From<AllocError> for PathFault {
    ghost from_gives = { λ _ e. e ≡ Memory };

    fn from(_e: AllocError) -> PathFault {
        PathFault::Memory
    }
}
