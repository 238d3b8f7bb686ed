//! What the bytes of a deck can be part of.

ghost use Rattle.std.specs.Prelude.{◌≡◌};
ghost use Rattle.deck_lexer.specs.Bytes.{is_blank, is_digit, begins_word, continues_word, is_text_byte, is_in_line, is_sign, begins_comparison};

pub fn is_blank(byte: u8) -> bool
    ensures { result ≡ is_blank byte }
{
    matches!(byte, b' ' | b'\t' | b'\n' | 12 | b'\r')
}

pub fn is_digit(byte: u8) -> bool
    ensures { result ≡ is_digit byte }
{
    byte.is_ascii_digit()
}

pub fn begins_word(byte: u8) -> bool
    ensures { result ≡ begins_word byte }
{
    byte.is_ascii_alphabetic() || byte == b'_' || byte == b'#'
}

pub fn continues_word(byte: u8) -> bool
    ensures { result ≡ continues_word byte }
{
    byte.is_ascii_alphanumeric() || byte == b'_' || byte == b'.' || byte == b'$'
}

/// Printable, and no quote.
pub fn is_text_byte(byte: u8) -> bool
    ensures { result ≡ is_text_byte byte }
{
    32 <= byte && byte <= 126 && byte != b'"'
}

/// Any but the line's end.
pub fn is_in_line(byte: u8) -> bool
    ensures { result ≡ is_in_line byte }
{
    byte != b'\n'
}

pub fn is_sign(byte: u8) -> bool
    ensures { result ≡ is_sign byte }
{
    byte == b'{'
        || byte == b'}'
        || byte == b'('
        || byte == b')'
        || byte == b'['
        || byte == b']'
        || byte == b'='
        || byte == b'<'
        || byte == b'>'
        || byte == b'+'
        || byte == b'-'
        || byte == b'*'
        || byte == b'/'
        || byte == b'%'
        || byte == b'^'
}

/// With `=` behind it, one sign.
pub fn begins_comparison(byte: u8) -> bool
    ensures { result ≡ begins_comparison byte }
{
    byte == b'=' || byte == b'<' || byte == b'>' || byte == b'!'
}
