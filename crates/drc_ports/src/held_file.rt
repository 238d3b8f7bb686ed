ghost use Rattle.std.specs.Prelude.{◌≡◌, ◌<◌, length, IfSome, OnOk, OnErr};

use drc_geom::Name;
use std::alloc::{AllocError, Global};

/// A file in memory.
#[derive(Debug, Drop)]
pub struct HeldFile {
    pub name: Name,
    pub bytes: Vec<u8>,
}
