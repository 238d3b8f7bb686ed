use crate::{Layer, NameAt, Number, Value};
use drc_geom::Name;
use sqlite_items::{Boxed, Items};

/// A statement. A first part that is a number is the offset of its first word.
#[derive(Drop)]
pub enum Statement {
    /// LAYOUT SYSTEM GDSII.
    LayoutSystem(u64),
    LayoutPath(u64, NameAt),
    LayoutPrimary(u64, NameAt),
    /// DRC RESULTS DATABASE, in ASCII.
    ResultsDatabase(u64, NameAt),
    /// DRC SUMMARY REPORT.
    SummaryReport(u64, NameAt),
    /// DRC MAXIMUM RESULTS; None is ALL.
    MaximumResults(u64, Option<Boxed<Value>>),
    /// DRC SELECT CHECK, with at least one name.
    SelectCheck(u64, Items<NameAt>),
    /// DRC UNSELECT CHECK, with at least one name.
    UnselectCheck(u64, Items<NameAt>),
    Precision(u64, Boxed<Value>),
    Title(u64, NameAt),
    Variable(u64, NameAt, Boxed<Value>),
    /// LAYER, with at least one number.
    Layer(u64, NameAt, Items<Number>),
    LayerMap(u64, Boxed<LayerMap>),
    /// `name = layer`.
    Definition(NameAt, Boxed<Layer>),
    /// `name { items }`.
    Check(NameAt, Items<Item>),
}

/// LAYER MAP: the shapes on a layer of the layout with one data or text type go to another number.
#[derive(Debug, Drop)]
pub struct LayerMap {
    pub layer: Number,
    pub kind: MapKind,
    pub kind_number: Number,
    pub target: Number,
}

#[derive(Clone, Copy, Debug, PartialEq, Eq)]
pub enum MapKind {
    DataType,
    TextType,
}

/// A part of a check.
#[derive(Drop)]
pub enum Item {
    /// The text behind `@`, without blanks at either end.
    Note(Name),
    /// `name = layer`.
    Definition(NameAt, Boxed<Layer>),
    Output(Boxed<Layer>),
}
