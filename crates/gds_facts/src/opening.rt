//! Which element a record opens.

ghost use Rattle.std.specs.Prelude.{◌≡◌};
ghost use Rattle.gds_facts.specs.Opened.{opened_by};

use gds_grammar::{Line, Reference, Shape};

/// The element that a record of this type opens.
pub fn opened_by(kind: u8) -> Option<Line>
    ensures { result ≡ opened_by kind }
{
    if kind == 0x08 {
        Some(Line::Shape(Shape::Boundary))
    } else if kind == 0x09 {
        Some(Line::Shape(Shape::Path))
    } else if kind == 0x0A {
        Some(Line::Reference(Reference::Single))
    } else if kind == 0x0B {
        Some(Line::Reference(Reference::Array))
    } else if kind == 0x0C {
        Some(Line::Shape(Shape::Text))
    } else if kind == 0x15 {
        Some(Line::Shape(Shape::Node))
    } else if kind == 0x2D {
        Some(Line::Shape(Shape::Box))
    } else {
        None
    }
}
