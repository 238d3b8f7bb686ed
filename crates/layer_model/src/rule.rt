//! Checks of distances.

/// Which sides a check looks at, and to where.
#[derive(Clone, Copy, Debug, PartialEq, Eq, Hash)]
pub enum RuleKind {
    /// INT: between sides that face inwards.
    Internal,
    /// EXT: between sides that face outwards.
    External,
    /// ENC: from the outer sides of the first layer to the inner sides of the second.
    Enclosure,
}

/// How a distance is measured.
#[derive(Clone, Copy, Debug, PartialEq, Eq, Hash)]
pub enum Metric {
    /// Within the bound in a straight line.
    Euclidean,
    /// Straight across alone.
    Opposite,
    /// Within the bound in each direction.
    Square,
}

/// Between the sides of which polygons a check looks.
#[derive(Clone, Copy, Debug, PartialEq, Eq, Hash)]
pub enum Polygons {
    Any,
    /// NOTCH: of one polygon.
    Same,
    /// SPACE: of two polygons.
    Different,
}

/// A check of distances. The bound is in database units.
#[derive(Clone, Copy, Debug, PartialEq, Eq, Hash)]
pub struct Rule {
    pub kind: RuleKind,
    pub metric: Metric,
    pub bound: u32,
    /// Whether the bound itself is too near.
    pub inclusive: bool,
    /// Whether sides that abut are results.
    pub abut: bool,
    /// Whether corners that touch are results.
    pub singular: bool,
    pub polygons: Polygons,
}

/// What a check of distances gives.
#[derive(Clone, Copy, Debug, PartialEq, Eq, Hash)]
pub enum Gives {
    /// Its results, as pairs of runs.
    Errors,
    /// REGION: for each result the box that bounds both runs.
    Region,
    /// The sides of the first of two inputs, which is in brackets.
    First,
    /// The sides of the second of two inputs, which is in brackets.
    Second,
    /// The sides of the only input, which is in brackets.
    Both,
}
