/// A place of a deck that takes a value.
#[derive(Clone, Copy, Debug, PartialEq, Eq)]
pub enum ValuePlace {
    /// A number of LAYER or LAYER MAP.
    LayerNumber,
    Precision,
    /// DRC MAXIMUM RESULTS.
    MaximumResults,
    Abut,
    /// SIZE BY.
    Size,
    /// SIZE BY with OVERUNDER or UNDEROVER.
    TurnedSize,
    /// EXPAND EDGE BY, and the bound of a check.
    Distance,
    /// A limit of LENGTH.
    Length,
    /// A limit of AREA.
    Area,
}
