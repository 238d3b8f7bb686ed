//! Pieces that are given whole to a call that may take a front of them.
ghost use Rattle.std.specs.Prelude.{◌≡◌, IsTrue, List, ℕ, Some};
ghost use Rattle.drc_ports.specs.Files.{world};
ghost use Rattle.drc_cli.specs.Outcome.{says};
ghost use Rattle.drc_cli.specs.Working.Tries.{Tries};
ghost use Rattle.drc_cli.specs.Working.Whole.{write_all_tally, WritesAll};

use drc_ports::{Failed, Files};

/// Says all of the bytes. Where a call fails a front of them was said, and the failure is handed on.
pub fn say_all<F: Files>(files: &mut F, bytes: &[u8]) -> Result<(), Failed>
    ensures { Tries F.tells (says bytes.now) result
        (world (F.tally files.old) (F.contents files.old)) (world (F.tally files.new) (F.contents files.new)) }
{
    let mut rest = bytes;
    while !rest.is_empty() {
        match files.say(rest) {
            Ok(count) => rest = &rest[count..],
            Err(failed) => return Err(failed),
        }
    }
    Ok(())
}

/// Writes all of the bytes behind those of the file being written, each call being given all that is left. Where a
/// call fails a front of them was written, and the failure is handed on.
pub fn write_all<F: Files>(files: &mut F, bytes: &[u8]) -> Result<(), Failed>
    requires writing { IsTrue (F.tally files.old).writing }
    ensures counts { F.tally files.new ≡ write_all_tally result (F.tally files.old) }
    ensures written { IsTrue F.tells → (before : List ℕ)
        → (F.contents files.old).made (F.contents files.old).target ≡ Some before
        → WritesAll before bytes.now result (F.contents files.old) (F.contents files.new) }
{
    let mut rest = bytes;
    while !rest.is_empty() {
        match files.write(rest) {
            Ok(count) => rest = &rest[count..],
            Err(failed) => return Err(failed),
        }
    }
    Ok(())
}
