//! Statements, and what checks hold.

ghost use Rattle.std.specs.Prelude.{◌≡◌, IfOk};
ghost use Rattle.deck_grammar.specs.Rules as r;
ghost use Rattle.deck_cursor.specs.Steps.{Reads};
ghost use Rattle.deck_builder.specs.Reading.{Precedes};
ghost use Rattle.deck_builder.specs.Signs.{ends_items};

use crate::layer::layer;
use crate::lists::{names, numbers, with_first};
use crate::tokens::{file, name, note, number, sign, word};
use crate::value::value;
use deck_cursor::{Cursor, Stop};
use deck_grammar::{Keyword, Kind, Sign};
use deck_tree::{Item, LayerMap, MapKind, Statement};
use sqlite_items::{Boxed, Items};
use std::alloc::Global;

// ASCII or nothing.
#[tactic(auto, using(crate::proofs::StatementRules::an_ascii, crate::proofs::StatementRules::no_ascii))]
fn ascii(cursor: &mut Cursor<'_>) -> Result<(), Stop>
    ensures { IfOk result (λ it. Reads r.ascii cursor.old cursor.new it) }
{
    match cursor.peek() {
        Some(Kind::Keyword(Keyword::Ascii)) => {
            word(cursor, Keyword::Ascii)?;
            Ok(())
        }
        _ => Ok(()),
    }
}

// REPLACE, APPEND or nothing.
#[tactic(auto, using(crate::proofs::StatementRules::replace, crate::proofs::StatementRules::append, crate::proofs::StatementRules::no_mode))]
fn mode(cursor: &mut Cursor<'_>) -> Result<(), Stop>
    ensures { IfOk result (λ it. Reads r.mode cursor.old cursor.new it) }
{
    match cursor.peek() {
        Some(Kind::Keyword(Keyword::Replace)) => {
            word(cursor, Keyword::Replace)?;
            Ok(())
        }
        Some(Kind::Keyword(Keyword::Append)) => {
            word(cursor, Keyword::Append)?;
            Ok(())
        }
        _ => Ok(()),
    }
}

#[tactic(auto, using(crate::proofs::StatementRules::datatype, crate::proofs::StatementRules::texttype))]
fn map_kind(cursor: &mut Cursor<'_>) -> Result<MapKind, Stop>
    ensures { IfOk result (λ it. Reads r.map_kind cursor.old cursor.new it) }
{
    match cursor.peek() {
        Some(Kind::Keyword(Keyword::DataType)) => {
            word(cursor, Keyword::DataType)?;
            Ok(MapKind::DataType)
        }
        _ => {
            word(cursor, Keyword::TextType)?;
            Ok(MapKind::TextType)
        }
    }
}

#[tactic(auto, using(crate::proofs::StatementRules::layout_system, crate::proofs::StatementRules::layout_path, crate::proofs::StatementRules::layout_primary))]
fn layout(alloc: Global, cursor: &mut Cursor<'_>) -> Result<Statement, Stop>
    ensures { IfOk result (λ it. Reads r.statement cursor.old cursor.new it) }
{
    let at = word(cursor, Keyword::Layout)?;
    match cursor.peek() {
        Some(Kind::Keyword(Keyword::Path)) => {
            word(cursor, Keyword::Path)?;
            Ok(Statement::LayoutPath(at, file(alloc, cursor)?))
        }
        Some(Kind::Keyword(Keyword::Primary)) => {
            word(cursor, Keyword::Primary)?;
            Ok(Statement::LayoutPrimary(at, file(alloc, cursor)?))
        }
        _ => {
            word(cursor, Keyword::System)?;
            word(cursor, Keyword::Gdsii)?;
            Ok(Statement::LayoutSystem(at))
        }
    }
}

#[tactic(auto, using(crate::proofs::StatementRules::results_database))]
fn results(alloc: Global, cursor: &mut Cursor<'_>) -> Result<Statement, Stop>
    ensures { IfOk result (λ it. Reads r.statement cursor.old cursor.new it) }
{
    let at = word(cursor, Keyword::Drc)?;
    word(cursor, Keyword::Results)?;
    word(cursor, Keyword::Database)?;
    let file = file(alloc, cursor)?;
    ascii(cursor)?;
    Ok(Statement::ResultsDatabase(at, file))
}

#[tactic(auto, using(crate::proofs::StatementRules::summary_report))]
fn summary(alloc: Global, cursor: &mut Cursor<'_>) -> Result<Statement, Stop>
    ensures { IfOk result (λ it. Reads r.statement cursor.old cursor.new it) }
{
    let at = word(cursor, Keyword::Drc)?;
    word(cursor, Keyword::Summary)?;
    word(cursor, Keyword::Report)?;
    let file = file(alloc, cursor)?;
    mode(cursor)?;
    Ok(Statement::SummaryReport(at, file))
}

#[tactic(auto, using(crate::proofs::StatementRules::maximum_results, crate::proofs::StatementRules::maximum_all))]
fn maximum(alloc: Global, cursor: &mut Cursor<'_>) -> Result<Statement, Stop>
    ensures { IfOk result (λ it. Reads r.statement cursor.old cursor.new it) }
{
    let at = word(cursor, Keyword::Drc)?;
    word(cursor, Keyword::Maximum)?;
    word(cursor, Keyword::Results)?;
    match cursor.peek() {
        Some(Kind::Keyword(Keyword::All)) => {
            word(cursor, Keyword::All)?;
            Ok(Statement::MaximumResults(at, None))
        }
        _ => {
            let most = value(alloc, cursor)?;
            Ok(Statement::MaximumResults(at, Some(Boxed::new(alloc, most)?)))
        }
    }
}

#[tactic(auto, using(crate::proofs::StatementRules::select_check))]
fn select(alloc: Global, cursor: &mut Cursor<'_>) -> Result<Statement, Stop>
    ensures { IfOk result (λ it. Reads r.statement cursor.old cursor.new it) }
{
    let at = word(cursor, Keyword::Drc)?;
    word(cursor, Keyword::Select)?;
    word(cursor, Keyword::Check)?;
    let first = name(alloc, cursor)?;
    let more = names(alloc, cursor)?;
    Ok(Statement::SelectCheck(at, with_first(alloc, first, more)?))
}

#[tactic(auto, using(crate::proofs::StatementRules::unselect_check))]
fn unselect(alloc: Global, cursor: &mut Cursor<'_>) -> Result<Statement, Stop>
    ensures { IfOk result (λ it. Reads r.statement cursor.old cursor.new it) }
{
    let at = word(cursor, Keyword::Drc)?;
    word(cursor, Keyword::Unselect)?;
    word(cursor, Keyword::Check)?;
    let first = name(alloc, cursor)?;
    let more = names(alloc, cursor)?;
    Ok(Statement::UnselectCheck(at, with_first(alloc, first, more)?))
}

// A statement that begins with DRC.
fn drc(alloc: Global, cursor: &mut Cursor<'_>) -> Result<Statement, Stop>
    ensures { IfOk result (λ it. Reads r.statement cursor.old cursor.new it) }
{
    match cursor.peek_behind() {
        Some(Kind::Keyword(Keyword::Results)) => results(alloc, cursor),
        Some(Kind::Keyword(Keyword::Summary)) => summary(alloc, cursor),
        Some(Kind::Keyword(Keyword::Maximum)) => maximum(alloc, cursor),
        Some(Kind::Keyword(Keyword::Select)) => select(alloc, cursor),
        _ => unselect(alloc, cursor),
    }
}

#[tactic(auto, using(crate::proofs::StatementRules::precision))]
fn precision(alloc: Global, cursor: &mut Cursor<'_>) -> Result<Statement, Stop>
    ensures { IfOk result (λ it. Reads r.statement cursor.old cursor.new it) }
{
    let at = word(cursor, Keyword::Precision)?;
    let value = value(alloc, cursor)?;
    Ok(Statement::Precision(at, Boxed::new(alloc, value)?))
}

#[tactic(auto, using(crate::proofs::StatementRules::title))]
fn title(alloc: Global, cursor: &mut Cursor<'_>) -> Result<Statement, Stop>
    ensures { IfOk result (λ it. Reads r.statement cursor.old cursor.new it) }
{
    let at = word(cursor, Keyword::Title)?;
    Ok(Statement::Title(at, file(alloc, cursor)?))
}

#[tactic(auto, using(crate::proofs::StatementRules::variable))]
fn variable(alloc: Global, cursor: &mut Cursor<'_>) -> Result<Statement, Stop>
    ensures { IfOk result (λ it. Reads r.statement cursor.old cursor.new it) }
{
    let at = word(cursor, Keyword::Variable)?;
    let name = name(alloc, cursor)?;
    let value = value(alloc, cursor)?;
    Ok(Statement::Variable(at, name, Boxed::new(alloc, value)?))
}

#[tactic(auto, using(crate::proofs::StatementRules::layer_map))]
fn layer_map(alloc: Global, cursor: &mut Cursor<'_>) -> Result<Statement, Stop>
    ensures { IfOk result (λ it. Reads r.statement cursor.old cursor.new it) }
{
    let at = word(cursor, Keyword::Layer)?;
    word(cursor, Keyword::Map)?;
    let layer = number(alloc, cursor)?;
    let kind = map_kind(cursor)?;
    let kind_number = number(alloc, cursor)?;
    let target = number(alloc, cursor)?;
    let map = LayerMap {
        layer,
        kind,
        kind_number,
        target,
    };
    Ok(Statement::LayerMap(at, Boxed::new(alloc, map)?))
}

#[tactic(auto, using(crate::proofs::StatementRules::layer_numbers))]
fn layer_numbers(alloc: Global, cursor: &mut Cursor<'_>) -> Result<Statement, Stop>
    ensures { IfOk result (λ it. Reads r.statement cursor.old cursor.new it) }
{
    let at = word(cursor, Keyword::Layer)?;
    let name = name(alloc, cursor)?;
    let first = number(alloc, cursor)?;
    let more = numbers(alloc, cursor)?;
    Ok(Statement::Layer(at, name, with_first(alloc, first, more)?))
}

#[tactic(auto, using(crate::proofs::StatementRules::a_note))]
fn note_item(alloc: Global, cursor: &mut Cursor<'_>) -> Result<Item, Stop>
    ensures { IfOk result (λ it. Precedes r.items (λ all. all) cursor.old cursor.new it) }
{
    Ok(Item::Note(note(alloc, cursor)?))
}

#[tactic(auto, using(crate::proofs::StatementRules::a_definition))]
fn definition_item(alloc: Global, cursor: &mut Cursor<'_>) -> Result<Item, Stop>
    ensures { IfOk result (λ it. Precedes r.items (λ all. all) cursor.old cursor.new it) }
{
    let name = name(alloc, cursor)?;
    sign(cursor, Sign::Equals)?;
    let layer = layer(alloc, cursor)?;
    Ok(Item::Definition(name, Boxed::new(alloc, layer)?))
}

#[tactic(auto, using(crate::proofs::StatementRules::an_output))]
fn output_item(alloc: Global, cursor: &mut Cursor<'_>) -> Result<Item, Stop>
    ensures { IfOk result (λ it. Precedes r.items (λ all. all) cursor.old cursor.new it) }
{
    let layer = layer(alloc, cursor)?;
    Ok(Item::Output(Boxed::new(alloc, layer)?))
}

// A part of a check that begins with a name.
fn named_item(alloc: Global, cursor: &mut Cursor<'_>) -> Result<Item, Stop>
    ensures { IfOk result (λ it. Precedes r.items (λ all. all) cursor.old cursor.new it) }
{
    match cursor.peek_behind() {
        Some(Kind::Sign(Sign::Equals)) => definition_item(alloc, cursor),
        _ => output_item(alloc, cursor),
    }
}

// A part of a check.
fn item(alloc: Global, cursor: &mut Cursor<'_>) -> Result<Item, Stop>
    ensures { IfOk result (λ it. Precedes r.items (λ all. all) cursor.old cursor.new it) }
{
    match cursor.peek() {
        Some(Kind::Note) => note_item(alloc, cursor),
        Some(Kind::Name) => named_item(alloc, cursor),
        _ => output_item(alloc, cursor),
    }
}

// Whether what a check holds ends here.
fn ends_items(kind: Option<Kind>) -> bool
    ensures { result ≡ ends_items kind }
{
    matches!(kind, None | Some(Kind::Sign(Sign::RightBrace)))
}

// What a check holds, up to its last bracket.
fn items(alloc: Global, cursor: &mut Cursor<'_>) -> Result<Items<Item>, Stop>
    ensures { IfOk result (λ all. Reads r.items cursor.old cursor.new all) }
{
    let mut found = Items::new(alloc);
    for _turn in 0..cursor.left() {
        if ends_items(cursor.peek()) {
            return Ok(found);
        }
        found.push(item(alloc, cursor)?)?;
    }
    Ok(found)
}

#[tactic(auto, using(crate::proofs::StatementRules::check))]
fn check(alloc: Global, cursor: &mut Cursor<'_>) -> Result<Statement, Stop>
    ensures { IfOk result (λ it. Reads r.statement cursor.old cursor.new it) }
{
    let name = name(alloc, cursor)?;
    sign(cursor, Sign::LeftBrace)?;
    let all = items(alloc, cursor)?;
    sign(cursor, Sign::RightBrace)?;
    Ok(Statement::Check(name, all))
}

#[tactic(auto, using(crate::proofs::StatementRules::definition))]
fn definition(alloc: Global, cursor: &mut Cursor<'_>) -> Result<Statement, Stop>
    ensures { IfOk result (λ it. Reads r.statement cursor.old cursor.new it) }
{
    let name = name(alloc, cursor)?;
    sign(cursor, Sign::Equals)?;
    let layer = layer(alloc, cursor)?;
    Ok(Statement::Definition(name, Boxed::new(alloc, layer)?))
}

// A statement that begins with LAYER.
fn layers(alloc: Global, cursor: &mut Cursor<'_>) -> Result<Statement, Stop>
    ensures { IfOk result (λ it. Reads r.statement cursor.old cursor.new it) }
{
    match cursor.peek_behind() {
        Some(Kind::Keyword(Keyword::Map)) => layer_map(alloc, cursor),
        _ => layer_numbers(alloc, cursor),
    }
}

// A statement that begins with a name.
fn named(alloc: Global, cursor: &mut Cursor<'_>) -> Result<Statement, Stop>
    ensures { IfOk result (λ it. Reads r.statement cursor.old cursor.new it) }
{
    match cursor.peek_behind() {
        Some(Kind::Sign(Sign::Equals)) => definition(alloc, cursor),
        _ => check(alloc, cursor),
    }
}

fn statement(alloc: Global, cursor: &mut Cursor<'_>) -> Result<Statement, Stop>
    ensures { IfOk result (λ it. Reads r.statement cursor.old cursor.new it) }
{
    match cursor.peek() {
        Some(Kind::Keyword(Keyword::Layout)) => layout(alloc, cursor),
        Some(Kind::Keyword(Keyword::Drc)) => drc(alloc, cursor),
        Some(Kind::Keyword(Keyword::Precision)) => precision(alloc, cursor),
        Some(Kind::Keyword(Keyword::Title)) => title(alloc, cursor),
        Some(Kind::Keyword(Keyword::Variable)) => variable(alloc, cursor),
        Some(Kind::Keyword(Keyword::Layer)) => layers(alloc, cursor),
        _ => named(alloc, cursor),
    }
}

/// Statements up to the first place at which no token comes.
pub fn statements(alloc: Global, cursor: &mut Cursor<'_>) -> Result<Items<Statement>, Stop>
    ensures { IfOk result (λ all. Reads r.statements cursor.old cursor.new all) }
{
    let mut found = Items::new(alloc);
    for _turn in 0..cursor.left() {
        match cursor.peek() {
            Some(_) => found.push(statement(alloc, cursor)?)?,
            None => return Ok(found),
        }
    }
    Ok(found)
}
