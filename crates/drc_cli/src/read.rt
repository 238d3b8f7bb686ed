//! A file that is read whole.
ghost use Rattle.std.specs.Prelude.{◌≡◌, ◌≤◌, ◌++◌, List, ℕ, [], IsTrue, IfOk, length};
ghost use Rattle.drc_cli.specs.Working.Read.{read_whole_tally, ReadsWhole};
ghost use Rattle.drc_cli.specs.declared.read.ReadEnd.TheVariants.{Memory};

use crate::buffer::buffer;
use drc_ports::Files;
use std::alloc::{AllocError, Global};

/// Why a file wasn't read.
#[derive(Debug, Drop)]
pub enum ReadEnd {
    /// Memory ran out.
    Memory,
    /// A read failed.
    Failed,
}

impl From<AllocError> for ReadEnd {
    ghost from_gives = { λ _ end. end ≡ Memory };

    fn from(_: AllocError) -> ReadEnd {
        ReadEnd::Memory
    }
}

/// The rest of the file being read; where it is longer than the limit, more than so many bytes of its front.
pub fn read_whole<F: Files>(alloc: Global, files: &mut F, limit: usize) -> Result<Vec<u8>, ReadEnd>
    requires started { IsTrue (F.tally files.old).started }
    ensures counts { F.tally files.new ≡ read_whole_tally result (F.tally files.old) }
    ensures bytes { IsTrue F.tells → ReadsWhole limit result (F.contents files.old) (F.contents files.new) }
{
    let mut buffer = buffer(alloc)?;
    let mut bytes = Vec::new(alloc);
    'pieces: while bytes.len() <= limit {
        match files.read(&mut buffer) {
            Err(_) => return Err(ReadEnd::Failed),
            Ok(0) => return Ok(bytes),
            Ok(count) => bytes.extend_from_slice(&buffer[..count])?,
        }
    }
    Ok(bytes)
}
