//! The lines of statements.

ghost use Rattle.std.specs.Prelude.{◌≡◌, ◌++◌, OnOk, codes};
ghost use Rattle.std.specs.List.{flat_map};
ghost use Rattle.deck_printer.specs.Layers.{layer_text};
ghost use Rattle.deck_printer.specs.Values.{value_text};
ghost use Rattle.deck_printer.specs.Canonical.{file_text, file_line, most_text, spaced_name, spaced_number, map_kind_text, map_text, note_text, item_text, statement_text};

use crate::layer::push_layer;
use crate::value::{push_number, push_value};
use deck_tree::{Item, Layer, LayerMap, MapKind, NameAt, Number, Statement, Value};
use sqlite_items::Boxed;
use std::alloc::AllocError;

fn push_file(text: &mut Vec<u8>, file: &NameAt) -> Result<(), AllocError>
    ensures { OnOk result (text.new.items ≡ text.old.items ++ file_text file.now) }
{
    text.extend_from_slice(b"\"")?;
    text.extend_from_slice(file.name.bytes())?;
    text.extend_from_slice(b"\"")
}

fn push_file_line(text: &mut Vec<u8>, words: &[u8], file: &NameAt) -> Result<(), AllocError>
    ensures { OnOk result (text.new.items ≡ text.old.items ++ file_line words.now file.now) }
{
    text.extend_from_slice(words)?;
    push_file(text, file)?;
    text.extend_from_slice(b"\n")
}

fn push_results(text: &mut Vec<u8>, file: &NameAt) -> Result<(), AllocError>
    ensures { OnOk result (text.new.items ≡ text.old.items ++ (codes "DRC RESULTS DATABASE " ++ (file_text file.now ++ codes " ASCII\n"))) }
{
    text.extend_from_slice(b"DRC RESULTS DATABASE ")?;
    push_file(text, file)?;
    text.extend_from_slice(b" ASCII\n")
}

fn push_most(text: &mut Vec<u8>, most: &Option<Boxed<Value>>) -> Result<(), AllocError>
    ensures { OnOk result (text.new.items ≡ text.old.items ++ (codes "DRC MAXIMUM RESULTS " ++ (most_text most.now ++ codes "\n"))) }
{
    text.extend_from_slice(b"DRC MAXIMUM RESULTS ")?;
    match most {
        None => text.extend_from_slice(b"ALL")?,
        Some(value) => push_value(text, value.get())?,
    }
    text.extend_from_slice(b"\n")
}

fn push_names(text: &mut Vec<u8>, names: &[NameAt]) -> Result<(), AllocError>
    ensures { OnOk result (text.new.items ≡ text.old.items ++ flat_map spaced_name names.now) }
{
    for name in names {
        text.extend_from_slice(b" ")?;
        text.extend_from_slice(name.name.bytes())?;
    }
    Ok(())
}

// Words, and the names of checks behind them.
fn push_checks(text: &mut Vec<u8>, words: &[u8], names: &[NameAt]) -> Result<(), AllocError>
    ensures { OnOk result (text.new.items ≡ text.old.items ++ (words.now ++ (flat_map spaced_name names.now ++ codes "\n"))) }
{
    text.extend_from_slice(words)?;
    push_names(text, names)?;
    text.extend_from_slice(b"\n")
}

fn push_precision(text: &mut Vec<u8>, value: &Value) -> Result<(), AllocError>
    ensures { OnOk result (text.new.items ≡ text.old.items ++ (codes "PRECISION " ++ (value_text value.now ++ codes "\n"))) }
{
    text.extend_from_slice(b"PRECISION ")?;
    push_value(text, value)?;
    text.extend_from_slice(b"\n")
}

fn push_variable(text: &mut Vec<u8>, name: &NameAt, value: &Value) -> Result<(), AllocError>
    ensures { OnOk result (text.new.items ≡ text.old.items
        ++ (codes "VARIABLE " ++ (name.now.name ++ (codes " " ++ (value_text value.now ++ codes "\n"))))) }
{
    text.extend_from_slice(b"VARIABLE ")?;
    text.extend_from_slice(name.name.bytes())?;
    text.extend_from_slice(b" ")?;
    push_value(text, value)?;
    text.extend_from_slice(b"\n")
}

fn push_spaced_number(text: &mut Vec<u8>, number: &Number) -> Result<(), AllocError>
    ensures { OnOk result (text.new.items ≡ text.old.items ++ spaced_number number.now) }
{
    text.extend_from_slice(b" ")?;
    push_number(text, number)
}

fn push_numbers(text: &mut Vec<u8>, numbers: &[Number]) -> Result<(), AllocError>
    ensures { OnOk result (text.new.items ≡ text.old.items ++ flat_map spaced_number numbers.now) }
{
    for number in numbers {
        push_spaced_number(text, number)?;
    }
    Ok(())
}

fn push_drawn(text: &mut Vec<u8>, name: &NameAt, numbers: &[Number]) -> Result<(), AllocError>
    ensures { OnOk result (text.new.items ≡ text.old.items
        ++ (codes "LAYER " ++ (name.now.name ++ (flat_map spaced_number numbers.now ++ codes "\n")))) }
{
    text.extend_from_slice(b"LAYER ")?;
    text.extend_from_slice(name.name.bytes())?;
    push_numbers(text, numbers)?;
    text.extend_from_slice(b"\n")
}

fn push_map_kind(text: &mut Vec<u8>, kind: MapKind) -> Result<(), AllocError>
    ensures { OnOk result (text.new.items ≡ text.old.items ++ map_kind_text kind) }
{
    match kind {
        MapKind::DataType => text.extend_from_slice(b" DATATYPE"),
        MapKind::TextType => text.extend_from_slice(b" TEXTTYPE"),
    }
}

fn push_map(text: &mut Vec<u8>, row: &LayerMap) -> Result<(), AllocError>
    ensures { OnOk result (text.new.items ≡ text.old.items ++ (codes "LAYER MAP" ++ (map_text row.now ++ codes "\n"))) }
{
    text.extend_from_slice(b"LAYER MAP")?;
    push_spaced_number(text, &row.layer)?;
    push_map_kind(text, row.kind)?;
    push_spaced_number(text, &row.kind_number)?;
    push_spaced_number(text, &row.target)?;
    text.extend_from_slice(b"\n")
}

fn push_definition(text: &mut Vec<u8>, name: &NameAt, layer: &Layer) -> Result<(), AllocError>
    ensures { OnOk result (text.new.items ≡ text.old.items ++ (name.now.name ++ (codes " = " ++ (layer_text layer.now ++ codes "\n")))) }
{
    text.extend_from_slice(name.name.bytes())?;
    text.extend_from_slice(b" = ")?;
    push_layer(text, layer)?;
    text.extend_from_slice(b"\n")
}

fn push_note(text: &mut Vec<u8>, note: &[u8]) -> Result<(), AllocError>
    ensures { OnOk result (text.new.items ≡ text.old.items ++ note_text note.now) }
{
    if note.is_empty() {
        return text.extend_from_slice(b"@");
    }
    text.extend_from_slice(b"@ ")?;
    text.extend_from_slice(note)
}

fn push_item(text: &mut Vec<u8>, item: &Item) -> Result<(), AllocError>
    ensures { OnOk result (text.new.items ≡ text.old.items ++ item_text item.now) }
{
    match item {
        Item::Note(note) => {
            push_note(text, note.bytes())?;
            text.extend_from_slice(b"\n")
        }
        Item::Definition(name, layer) => push_definition(text, name, layer.get()),
        Item::Output(layer) => {
            push_layer(text, layer.get())?;
            text.extend_from_slice(b"\n")
        }
    }
}

fn push_items(text: &mut Vec<u8>, items: &[Item]) -> Result<(), AllocError>
    ensures { OnOk result (text.new.items ≡ text.old.items ++ flat_map item_text items.now) }
{
    for item in items {
        push_item(text, item)?;
    }
    Ok(())
}

fn push_check(text: &mut Vec<u8>, name: &NameAt, items: &[Item]) -> Result<(), AllocError>
    ensures { OnOk result (text.new.items ≡ text.old.items ++ (name.now.name ++ (codes " {\n" ++ (flat_map item_text items.now ++ codes "}\n")))) }
{
    text.extend_from_slice(name.name.bytes())?;
    text.extend_from_slice(b" {\n")?;
    push_items(text, items)?;
    text.extend_from_slice(b"}\n")
}

/// Adds the statement's lines.
pub fn push_statement(text: &mut Vec<u8>, statement: &Statement) -> Result<(), AllocError>
    ensures { OnOk result (text.new.items ≡ text.old.items ++ statement_text statement.now) }
{
    match statement {
        Statement::LayoutSystem(_) => text.extend_from_slice(b"LAYOUT SYSTEM GDSII\n"),
        Statement::LayoutPath(_, file) => push_file_line(text, b"LAYOUT PATH ", file),
        Statement::LayoutPrimary(_, file) => push_file_line(text, b"LAYOUT PRIMARY ", file),
        Statement::ResultsDatabase(_, file) => push_results(text, file),
        Statement::SummaryReport(_, file) => push_file_line(text, b"DRC SUMMARY REPORT ", file),
        Statement::MaximumResults(_, most) => push_most(text, most),
        Statement::SelectCheck(_, names) => push_checks(
            text,
            b"DRC SELECT CHECK",
            names.as_slice(),
        ),
        Statement::UnselectCheck(_, names) => push_checks(
            text,
            b"DRC UNSELECT CHECK",
            names.as_slice(),
        ),
        Statement::Precision(_, value) => push_precision(text, value.get()),
        Statement::Title(_, file) => push_file_line(text, b"TITLE ", file),
        Statement::Variable(_, name, value) => push_variable(text, name, value.get()),
        Statement::Layer(_, name, numbers) => push_drawn(text, name, numbers.as_slice()),
        Statement::LayerMap(_, row) => push_map(text, row.get()),
        Statement::Definition(name, layer) => push_definition(text, name, layer.get()),
        Statement::Check(name, items) => push_check(text, name, items.as_slice()),
    }
}
