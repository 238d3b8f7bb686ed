//! Files that are read and written by name, and a place where lines are said.
ghost use Rattle.std.specs.Prelude.{◌≡◌, ◌<◌, ◌≤◌, Bool, IsTrue, IfOk, length, string_bytes};
ghost use Rattle.drc_ports.specs.Files.{Tally, Contents, begin_read_tally, BeginsRead, read_tally, Reads, create_tally, Creates, write_tally, Writes, say_tally, Says, TakesSome};

use crate::Failed;

/// Where the checker reads, writes and says.
///
/// An object that *tells* gives meaning to its contents; one over a real file system doesn't, and its tally alone
/// is known. Each call that fails raises the count of its kind by one and changes nothing else, but for what is
/// written of `begin_read` and `create`.
pub trait Files {
    /// Are the contents known?
    ghost tells: { Bool };

    /// What is always known: the counts, the last name that was opened, and what may be read and written.
    ghost tally: { Self → Tally };

    /// The files, what is left of the one being read, and what was said, where they are known.
    ghost contents: { Self → Contents };

    /// Opens a file to be read from its first byte on. A name that isn't held is a fault.
    fn begin_read(&mut self, name: String) -> Result<(), Failed>
        ensures counts { tally self.new ≡ begin_read_tally (string_bytes name) result (tally self.old) }
        ensures bytes { IsTrue tells → BeginsRead (string_bytes name) result (contents self.old) (contents self.new) };

    /// Reads the next bytes into the front of the buffer, and answers how many: 0 only at the end of the file.
    fn read(&mut self, buf: &mut [u8]) -> Result<usize, Failed>
        requires started { IsTrue (tally self.old).started }
        requires room { 0 < length buf.old }
        ensures count { IfOk result (λ count. count ≤ length buf.new) }
        ensures counts { tally self.new ≡ read_tally result (tally self.old) }
        ensures bytes { IsTrue tells → Reads buf.new result (contents self.old) (contents self.new) };

    /// Makes an empty file, in place of one that was there, and makes it the one being written.
    fn create(&mut self, name: String) -> Result<(), Failed>
        ensures counts { tally self.new ≡ create_tally (string_bytes name) result (tally self.old) }
        ensures bytes { IsTrue tells → Creates (string_bytes name) result (contents self.old) (contents self.new) };

    /// Appends a front of the piece to the file being written, at least a byte, and answers how much of it.
    fn write(&mut self, bytes: &[u8]) -> Result<usize, Failed>
        requires writing { IsTrue (tally self.old).writing }
        requires some { 0 < length bytes.now }
        ensures count { TakesSome bytes.now result }
        ensures counts { tally self.new ≡ write_tally result (tally self.old) }
        ensures bytes { IsTrue tells → Writes bytes.now result (contents self.old) (contents self.new) };

    /// Says a front of the piece, at least a byte, and answers how much of it.
    fn say(&mut self, bytes: &[u8]) -> Result<usize, Failed>
        requires some { 0 < length bytes.now }
        ensures count { TakesSome bytes.now result }
        ensures counts { tally self.new ≡ say_tally result (tally self.old) }
        ensures bytes { IsTrue tells → Says bytes.now result (contents self.old) (contents self.new) };
}
