//! Calls of the system that a signal may interrupt. Such a call has done nothing, and is made again, a bounded number of
//! times.
ghost use Rattle.std.specs.Prelude.{◌≢◌, IfErr};
ghost use Rattle.std.specs.Io.{ReadsAtMost, WritesAtMost};
ghost use Rattle.std.specs.Io.KnownBytes.{ReadConsumes, WriteAppends};
ghost use Rattle.std.specs.IoError.{error_kind};

use std::io::{self, ErrorKind, Read, Write};

/// How often a call is made at most.
const TRIES: u32 = 100;

/// What a call answers that was interrupted each time.
fn too_many_tries() -> io::Error
    ensures { error_kind result ≢ ErrorKind.Interrupted }
{
    io::Error::from(ErrorKind::Other)
}

/// One read, made again where it is interrupted.
pub(crate) fn read_again<R: Read>(reader: &mut R, buf: &mut [u8]) -> io::Result<usize>
    ensures bound { ReadsAtMost result buf.new }
    ensures bytes { ReadConsumes (R.remaining reader.old) (R.remaining reader.new) result buf.new }
    ensures again { IfErr result (λ error. error_kind error ≢ ErrorKind.Interrupted) }
{
    'tries: for _ in 0..TRIES {
        match reader.read(buf) {
            Ok(count) => return Ok(count),
            Err(error) => {
                if error.kind() != ErrorKind::Interrupted {
                    return Err(error);
                }
            }
        }
    }
    Err(too_many_tries())
}

/// One write, made again where it is interrupted.
pub(crate) fn write_again<W: Write>(writer: &mut W, bytes: &[u8]) -> io::Result<usize>
    ensures bound { WritesAtMost result bytes.now }
    ensures bytes { WriteAppends (W.contents writer.old) (W.contents writer.new) result bytes.now }
    ensures again { IfErr result (λ error. error_kind error ≢ ErrorKind.Interrupted) }
{
    'tries: for _ in 0..TRIES {
        match writer.write(bytes) {
            Ok(count) => return Ok(count),
            Err(error) => {
                if error.kind() != ErrorKind::Interrupted {
                    return Err(error);
                }
            }
        }
    }
    Err(too_many_tries())
}

/// One print, made again where it is interrupted.
pub(crate) fn print_again<P: Print>(rt: &P, bytes: &[u8]) -> io::Result<usize>
    ensures bound { WritesAtMost result bytes.now }
    ensures again { IfErr result (λ error. error_kind error ≢ ErrorKind.Interrupted) }
{
    'tries: for _ in 0..TRIES {
        match rt.write_some(bytes) {
            Ok(count) => return Ok(count),
            Err(error) => {
                if error.kind() != ErrorKind::Interrupted {
                    return Err(error);
                }
            }
        }
    }
    Err(too_many_tries())
}

#[cfg(test)]
mod tests {
    use super::*;
    use std::test::Fail;

    /// Its next calls are interrupted, so many of them; then each gives a byte, or takes one.
    #[derive(Drop)]
    struct Signals {
        left: u32,
    }

    impl Signals {
        fn is_interrupted(&mut self) -> bool {
            let is = self.left > 0;
            self.left = self.left.saturating_sub(1);
            is
        }
    }

    impl Read for Signals {
        fn read(&mut self, buf: &mut [u8]) -> io::Result<usize> {
            if self.is_interrupted() {
                return Err(io::Error::from(ErrorKind::Interrupted));
            }
            Ok(buf.len().min(1))
        }
    }

    impl Write for Signals {
        fn write(&mut self, bytes: &[u8]) -> io::Result<usize> {
            if self.is_interrupted() {
                return Err(io::Error::from(ErrorKind::Interrupted));
            }
            Ok(bytes.len().min(1))
        }

        fn flush(&mut self) -> io::Result<()> {
            Ok(())
        }
    }

    #[test]
    fn calls_that_are_interrupted(rt: HostRuntime) -> Result<(), Fail> {
        for (left, works) in [(0, true), (2, true), (TRIES - 1, true), (TRIES, false)] {
            let read = read_again(&mut Signals { left }, &mut [0; 4]);
            assert!(rt; read.is_ok() == works);
            let write = write_again(&mut Signals { left }, b"some");
            assert!(rt; write.is_ok() == works);
        }
        Ok(())
    }
}
