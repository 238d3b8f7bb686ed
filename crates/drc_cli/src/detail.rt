//! What is told of a refused deck besides the reason and its place.
ghost use Rattle.std.specs.Prelude.{◌≡◌, ◌++◌, codes, drop, IfOk};
ghost use Rattle.drc_cli.specs.Lines.{IsDetail, IsFirstToken};

use deck_cursor::{bytes_of, upcoming};
use deck_tree::{DeckKind, DeckRefusal};
use drc_geom::Name;
use std::alloc::{AllocError, Global};

/// The detail of a refusal of this text.
pub fn detail_of(alloc: Global, text: &[u8], refusal: &DeckRefusal) -> Result<Name, AllocError>
    ensures { IfOk result (λ detail. IsDetail text.now refusal.now detail) }
{
    match refusal.kind {
        DeckKind::Unsupported => token_in(alloc, rest_of(text, refusal.at)),
        DeckKind::MissingStatement(which) => spaced(alloc, which.words().as_bytes()),
        DeckKind::RepeatedStatement(which) => spaced(alloc, which.words().as_bytes()),
        DeckKind::TooMany(what) => spaced(alloc, what.word().as_bytes()),
        _ => Name::new(alloc, b""),
    }
}

/// The bytes from an offset on.
fn rest_of(text: &[u8], at: u64) -> &[u8]
    ensures { result.now ≡ drop at text.now }
{
    let at = at as usize;
    if at < text.len() { &text[at..] } else { b"" }
}

/// A space and the token that comes first, if one does.
fn token_in(alloc: Global, bytes: &[u8]) -> Result<Name, AllocError>
    ensures { IfOk result (λ detail. IsFirstToken bytes.now detail) }
{
    match upcoming(bytes, 0) {
        Some(token) => spaced(alloc, bytes_of(bytes, token)),
        None => Name::new(alloc, b""),
    }
}

/// A space and a word.
fn spaced(alloc: Global, word: &[u8]) -> Result<Name, AllocError>
    ensures { IfOk result (λ detail. detail ≡ codes " " ++ word.now) }
{
    let mut text = Vec::new(alloc);
    text.push(b' ')?;
    text.extend_from_slice(word)?;
    Name::new(alloc, &text)
}
