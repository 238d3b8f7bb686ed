//! Single tokens, and what is made of one.

ghost use Rattle.std.specs.Prelude.{◌≡◌, IfOk};
ghost use Rattle.deck_grammar.specs.Rules as r;
ghost use Rattle.deck_grammar.specs.Lexemes.{name_of, number_of, file_of, note_of};
ghost use Rattle.deck_grammar.specs.declared.kind.Kind.TheVariants as kinds;
ghost use Rattle.deck_cursor.specs.Steps.{Reads};
ghost use Rattle.deck_builder.specs.Reading.{TakenAt, Means};

use deck_cursor::{Cursor, Stop};
use deck_grammar::{Keyword, Kind, Sign, note_text, number_of, without_quotes};
use deck_tree::{NameAt, Number};
use drc_geom::Name;
use std::alloc::Global;

/// Takes this keyword, and answers its offset.
pub fn word(cursor: &mut Cursor<'_>, keyword: Keyword) -> Result<u64, Stop>
    ensures { IfOk result (λ at. TakenAt (kinds.Keyword keyword) cursor.old cursor.new at) }
{
    Ok(cursor.take(Kind::Keyword(keyword))?.at)
}

/// Takes this sign, and answers its offset.
pub fn sign(cursor: &mut Cursor<'_>, sign: Sign) -> Result<u64, Stop>
    ensures { IfOk result (λ at. TakenAt (kinds.Sign sign) cursor.old cursor.new at) }
{
    Ok(cursor.take(Kind::Sign(sign))?.at)
}

/// A name.
pub fn name(alloc: Global, cursor: &mut Cursor<'_>) -> Result<NameAt, Stop>
    ensures { IfOk result (λ it. Means kinds.Name name_of cursor.old cursor.new it) }
{
    let token = cursor.take(Kind::Name)?;
    Ok(NameAt {
        at: token.at,
        name: Name::new(alloc, token.bytes)?,
    })
}

/// A number.
pub fn number(alloc: Global, cursor: &mut Cursor<'_>) -> Result<Number, Stop>
    ensures { IfOk result (λ it. Means kinds.Number number_of cursor.old cursor.new it) }
{
    let token = cursor.take(Kind::Number)?;
    Ok(number_of(alloc, token.at, token.bytes)?)
}

/// The text of a note.
pub fn note(alloc: Global, cursor: &mut Cursor<'_>) -> Result<Name, Stop>
    ensures { IfOk result (λ it. Means kinds.Note note_of cursor.old cursor.new it) }
{
    let token = cursor.take(Kind::Note)?;
    Ok(Name::new(alloc, note_text(token.bytes))?)
}

// What stands between two quotes.
fn text(alloc: Global, cursor: &mut Cursor<'_>) -> Result<NameAt, Stop>
    ensures { IfOk result (λ it. Means kinds.Text file_of cursor.old cursor.new it) }
{
    let token = cursor.take(Kind::Text)?;
    if token.bytes.len() < 2 {
        return Err(Stop::Wrong);
    }
    Ok(NameAt {
        at: token.at,
        name: Name::new(alloc, without_quotes(token.bytes))?,
    })
}

/// A file, in quotes or as a name.
pub fn file(alloc: Global, cursor: &mut Cursor<'_>) -> Result<NameAt, Stop>
    ensures { IfOk result (λ it. Reads r.file cursor.old cursor.new it) }
{
    match cursor.peek() {
        Some(Kind::Text) => text(alloc, cursor),
        _ => name(alloc, cursor),
    }
}
