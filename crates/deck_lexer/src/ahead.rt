//! The next token.

ghost use Rattle.std.specs.Prelude.{◌≤◌, length, drop};
ghost use Rattle.deck_lexer.specs.Tokens.{Comes};

use crate::front::standing;
use crate::gap::gap_len;
use crate::{LexFault, Token};

/// The first token of the text at an offset or behind it; None where only blanks and whole comments are left. Where a
/// fact comes before a token, the fact. It takes no memory, and reads no byte behind the token but one.
pub fn next(text: &[u8], at: usize) -> Result<Option<Token>, LexFault>
    requires { at ≤ length text.now }
    ensures { Comes at (drop at text.now) result }
{
    let start = at + gap_len(&text[at..]);
    standing(&text[start..], start)
}
