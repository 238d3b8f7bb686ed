//! Printable bytes.

ghost use Rattle.std.specs.Prelude.{◌≡◌};
ghost use Rattle.drc_cli.specs.Printable.{is_printable};

/// Is the byte one of those from the space to the tilde?
pub fn is_printable(byte: u8) -> bool
    ensures { result ≡ is_printable byte }
{
    b' ' <= byte && byte <= b'~'
}
