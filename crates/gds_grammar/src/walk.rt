//! From slot to slot.

ghost use Rattle.std.specs.Prelude.{◌≡◌, ◌↔◌, ℕ, List, [], ◌∷◌, ◌++◌, MatchOption, IsTrue};
ghost use Rattle.gds_grammar.specs.Grammar.{IsStream, IsFront};
ghost use Rattle.gds_grammar.specs.Slots.{StandsBehind};
ghost use Rattle.gds_grammar.specs.Working.Exits.{chosen};
ghost use Rattle.gds_grammar.specs.Working.Ways;

use crate::codes::{
    ANGLE, AREF, ATTRTABLE, BGNEXTN, BGNLIB, BGNSTR, BOUNDARY, BOX, BOXTYPE, COLROW, DATATYPE,
    ELFLAGS, ENDEL, ENDEXTN, ENDLIB, ENDSTR, FONTS, GENERATIONS, HEADER, LAYER, LIBNAME, MAG, NODE,
    NODETYPE, PATH, PATHTYPE, PLEX, PRESENTATION, PROPATTR, PROPVALUE, REFLIBS, SNAME, SREF,
    STRANS, STRCLASS, STRING, STRNAME, TEXT, TEXTTYPE, UNITS, WIDTH, XY,
};
use crate::{Line, PathField, Reference, Shape, Slot, TextField, TurnField, Turned};

type Way = (u8, Slot);

impl Slot {
    /// The slot behind a record of this type that stands in this slot; None where no stream has that type there.
    pub fn next(self, kind: u8) -> Option<Slot>
        ensures { (types : List ℕ) → StandsBehind types self
            → MatchOption result (IsFront (types ++ kind ∷ []) → ⊥) (λ slot. StandsBehind (types ++ kind ∷ []) slot) }
    {
        way(self, kind)
    }
}

/// The slot behind records of these types; None where they are no front of a stream.
pub fn slot_behind(kinds: &[u8]) -> Option<Slot>
    ensures { MatchOption result (IsFront kinds.now → ⊥) (λ slot. StandsBehind kinds.now slot) }
{
    let mut slot = Slot::Header;
    for kind in kinds {
        slot = slot.next(*kind)?;
    }
    Some(slot)
}

fn way(slot: Slot, kind: u8) -> Option<Slot>
    ensures { result ≡ chosen kind (Ways.ways slot) }
{
    match slot {
        Slot::Header => among(kind, &[(HEADER, Slot::BeginLibrary)]),
        Slot::BeginLibrary => among(kind, &[(BGNLIB, Slot::LibraryName)]),
        Slot::LibraryName => passing(kind, slot, (LIBNAME, Slot::Units)),
        Slot::Units => passing(kind, slot, (UNITS, Slot::Structures)),
        Slot::Structures => among(kind, &[(BGNSTR, Slot::StructureName), (ENDLIB, Slot::End)]),
        Slot::End => None,
        Slot::StructureName => among(kind, &[(STRNAME, Slot::Class)]),
        Slot::Class if kind == STRCLASS => Some(Slot::Elements),
        Slot::Class | Slot::Elements => among(kind, &IN_STRUCTURE),
        Slot::Flags(line) => flags_way(line, kind),
        Slot::Plex(line) => among(kind, &[(PLEX, Slot::Fields(line)), first_field(line)]),
        Slot::Fields(line) => among(kind, &[first_field(line)]),
        Slot::ShapeType(shape) => among(kind, &[type_way(shape)]),
        Slot::Path(field) => path_way(field, kind),
        Slot::Text(field) => text_way(field, kind),
        Slot::Turn(field, what) => turn_way(field, what, kind),
        Slot::ColumnsAndRows => among(kind, &[past_turn(Turned::Reference(Reference::Array))]),
        Slot::Points(line) => among(kind, &[(XY, behind_points(line))]),
        Slot::TextString => among(kind, &[(STRING, Slot::Properties)]),
        Slot::Properties => among(
            kind,
            &[(PROPATTR, Slot::PropertyValue), (ENDEL, Slot::Elements)],
        ),
        Slot::PropertyValue => among(kind, &[(PROPVALUE, Slot::Properties)]),
    }
}

const IN_STRUCTURE: [Way; 8] = [
    (BOUNDARY, Slot::Flags(Line::Shape(Shape::Boundary))),
    (PATH, Slot::Flags(Line::Shape(Shape::Path))),
    (SREF, Slot::Flags(Line::Reference(Reference::Single))),
    (AREF, Slot::Flags(Line::Reference(Reference::Array))),
    (TEXT, Slot::Flags(Line::Shape(Shape::Text))),
    (NODE, Slot::Flags(Line::Shape(Shape::Node))),
    (BOX, Slot::Flags(Line::Shape(Shape::Box))),
    (ENDSTR, Slot::Structures),
];

// Where the first of these ways leads that goes by the type.
fn among(kind: u8, mut ways: &[Way]) -> Option<Slot>
    ensures { result ≡ chosen kind ways.entry.now }
{
    while let [way, rest @ ..] = ways {
        if way.0 == kind {
            return Some(way.1);
        }
        ways = rest;
    }
    None
}

// The records that are passed over leave the slot as it is.
fn passing(kind: u8, here: Slot, then: Way) -> Option<Slot>
    ensures { result ≡ chosen kind (Ways.passing here ++ then ∷ []) }
{
    let ways = [
        (REFLIBS, here),
        (FONTS, here),
        (GENERATIONS, here),
        (ATTRTABLE, here),
        (0x36, here),
        (0x37, here),
        (0x38, here),
        (0x39, here),
        (0x3A, here),
        (0x3B, here),
        then,
    ];
    among(kind, &ways)
}

fn flags_way(line: Line, kind: u8) -> Option<Slot>
    ensures { result ≡ chosen kind (Ways.ways (Slot.Flags line)) }
{
    let ways = [
        (ELFLAGS, Slot::Plex(line)),
        (PLEX, Slot::Fields(line)),
        first_field(line),
    ];
    among(kind, &ways)
}

fn first_field(line: Line) -> Way
    ensures { result ≡ Ways.first_field line }
{
    match line {
        Line::Shape(shape) => (LAYER, Slot::ShapeType(shape)),
        Line::Reference(reference) => (
            SNAME,
            Slot::Turn(TurnField::Transform, Turned::Reference(reference)),
        ),
    }
}

fn type_way(shape: Shape) -> Way
    ensures { result ≡ Ways.type_way shape }
{
    match shape {
        Shape::Boundary => (DATATYPE, Slot::Points(Line::Shape(shape))),
        Shape::Path => (DATATYPE, Slot::Path(PathField::PathType)),
        Shape::Text => (TEXTTYPE, Slot::Text(TextField::Presentation)),
        Shape::Node => (NODETYPE, Slot::Points(Line::Shape(shape))),
        Shape::Box => (BOXTYPE, Slot::Points(Line::Shape(shape))),
    }
}

fn path_way(field: PathField, kind: u8) -> Option<Slot>
    ensures { result ≡ chosen kind (Ways.path_ways field) }
{
    let width = (WIDTH, Slot::Path(PathField::BeginExtension));
    let begin = (BGNEXTN, Slot::Path(PathField::EndExtension));
    let end = (ENDEXTN, Slot::Points(Line::Shape(Shape::Path)));
    let points = (XY, Slot::Properties);
    match field {
        PathField::PathType => among(
            kind,
            &[
                (PATHTYPE, Slot::Path(PathField::Width)),
                width,
                begin,
                end,
                points,
            ],
        ),
        PathField::Width => among(kind, &[width, begin, end, points]),
        PathField::BeginExtension => among(kind, &[begin, end, points]),
        PathField::EndExtension => among(kind, &[end, points]),
    }
}

fn text_way(field: TextField, kind: u8) -> Option<Slot>
    ensures { result ≡ chosen kind (Ways.text_ways field) }
{
    let path_type = (PATHTYPE, Slot::Text(TextField::Width));
    let width = (WIDTH, Slot::Turn(TurnField::Transform, Turned::Text));
    let turn = (STRANS, Slot::Turn(TurnField::Magnification, Turned::Text));
    let points = (XY, Slot::TextString);
    match field {
        TextField::Presentation => among(
            kind,
            &[
                (PRESENTATION, Slot::Text(TextField::PathType)),
                path_type,
                width,
                turn,
                points,
            ],
        ),
        TextField::PathType => among(kind, &[path_type, width, turn, points]),
        TextField::Width => among(kind, &[width, turn, points]),
    }
}

fn turn_way(field: TurnField, what: Turned, kind: u8) -> Option<Slot>
    ensures { result ≡ chosen kind (Ways.turn_ways field what) }
{
    let magnification = (STRANS, Slot::Turn(TurnField::Magnification, what));
    let angle = (MAG, Slot::Turn(TurnField::Angle, what));
    let behind = (ANGLE, behind_angle(what));
    match field {
        TurnField::Transform => among(kind, &[magnification, past_turn(what)]),
        TurnField::Magnification => among(kind, &[angle, behind, past_turn(what)]),
        TurnField::Angle => among(kind, &[behind, past_turn(what)]),
    }
}

// What follows a turn.
fn past_turn(what: Turned) -> Way
    ensures { result ≡ Ways.past_turn what }
{
    match what {
        Turned::Text => (XY, Slot::TextString),
        Turned::Reference(Reference::Single) => (XY, Slot::Properties),
        Turned::Reference(Reference::Array) => (
            COLROW,
            Slot::Points(Line::Reference(Reference::Array)),
        ),
    }
}

fn behind_angle(what: Turned) -> Slot
    ensures { result ≡ Ways.behind_angle what }
{
    match what {
        Turned::Text => Slot::Points(Line::Shape(Shape::Text)),
        Turned::Reference(Reference::Single) => Slot::Points(Line::Reference(Reference::Single)),
        Turned::Reference(Reference::Array) => Slot::ColumnsAndRows,
    }
}

fn behind_points(line: Line) -> Slot
    ensures { result ≡ Ways.behind_points line }
{
    match line {
        Line::Shape(Shape::Text) => Slot::TextString,
        _ => Slot::Properties,
    }
}
