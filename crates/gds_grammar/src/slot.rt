//! The slots of a stream: what the records so far leave open.

use crate::{Line, Shape, Turned};

/// What of a PATH may come next, behind its DATATYPE.
#[derive(Clone, Copy, Debug, PartialEq, Eq)]
pub enum PathField {
    PathType,
    Width,
    BeginExtension,
    EndExtension,
}

/// What of a TEXT may come next, behind its TEXTTYPE.
#[derive(Clone, Copy, Debug, PartialEq, Eq)]
pub enum TextField {
    Presentation,
    PathType,
    Width,
}

/// What of a turn may come next.
#[derive(Clone, Copy, Debug, PartialEq, Eq)]
pub enum TurnField {
    Transform,
    Magnification,
    Angle,
}

/// What may come next in a stream, named by the first record that may stand there.
#[derive(Clone, Copy, Debug, PartialEq, Eq)]
pub enum Slot {
    Header,
    BeginLibrary,
    /// LIBNAME, or what is passed over before it.
    LibraryName,
    /// UNITS, or what is passed over before it.
    Units,
    /// A structure, or ENDLIB.
    Structures,
    /// Nothing: ENDLIB has come.
    End,
    StructureName,
    /// What is passed over behind a structure's name, or what follows it.
    Class,
    /// An element, or ENDSTR.
    Elements,
    /// ELFLAGS, or what follows it.
    Flags(Line),
    /// PLEX, or what follows it.
    Plex(Line),
    /// The first of the line's own fields.
    Fields(Line),
    /// DATATYPE, TEXTTYPE, NODETYPE or BOXTYPE.
    ShapeType(Shape),
    Path(PathField),
    Text(TextField),
    Turn(TurnField, Turned),
    ColumnsAndRows,
    Points(Line),
    TextString,
    /// A property, or ENDEL.
    Properties,
    PropertyValue,
}
