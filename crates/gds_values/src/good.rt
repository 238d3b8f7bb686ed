//! Whether the data of a record are as its type asks for.

ghost use Rattle.std.specs.Prelude.{◌≡◌, ◌↔◌, IsTrue, length};
ghost use Rattle.gds_records.specs.Stream.{item_of};
ghost use Rattle.gds_values.specs.Rules.{HasGoodData, IsContents, ArePoints, IsPathType, point_count};

use crate::values::number_at;
use crate::{Contents, rule_of};
use gds_grammar::{Line, Reference, Shape};
use gds_records::Record;

/// Are the data of a record as its type asks for in this element, or outside of elements? Its type is one that the
/// grammar allows there: what this says is BadData where it answers no.
pub fn has_good_data(line: Option<Line>, item: &Record) -> bool
    ensures { IsTrue result ↔ HasGoodData line (item_of item.now) }
{
    let Some(kind) = item.record_type() else {
        return true;
    };
    let Some(rule) = rule_of(kind) else {
        return true;
    };
    item.data_form() == Some(rule.form) && has_contents(line, rule.contents, &item.body)
}

fn has_contents(line: Option<Line>, contents: Contents, body: &[u8]) -> bool
    ensures { IsTrue result ↔ IsContents line contents body.now }
{
    match contents {
        Contents::Anything => true,
        Contents::Exactly(size) => body.len() == size,
        Contents::Name => body.iter().any(|byte| *byte != 0),
        Contents::Points => are_points(point_count(line), body.len()),
        Contents::PathType => {
            body.len() == 2 && (line != Some(Line::Shape(Shape::Path)) || is_path_type(body))
        }
        Contents::Counts => body.len() == 4 && number_at(body, 0) >= 1 && number_at(body, 1) >= 1,
    }
}

fn point_count(line: Option<Line>) -> Option<usize>
    ensures { result ≡ point_count line }
{
    match line {
        Some(Line::Shape(Shape::Text)) | Some(Line::Reference(Reference::Single)) => Some(1),
        Some(Line::Reference(Reference::Array)) => Some(3),
        Some(Line::Shape(Shape::Boundary | Shape::Path | Shape::Node | Shape::Box)) | None => None,
    }
}

fn are_points(count: Option<usize>, size: usize) -> bool
    ensures { IsTrue result ↔ ArePoints count size }
{
    match count {
        None => size > 0 && size % 8 == 0,
        Some(count) => size % 8 == 0 && size / 8 == count,
    }
}

fn is_path_type(body: &[u8]) -> bool
    requires { length body.now ≡ 2 }
    ensures { IsTrue result ↔ IsPathType body.now }
{
    matches!(number_at(body, 0), 0 | 1 | 2 | 4)
}
