/// What a layer is.
#[derive(Clone, Copy, Debug, PartialEq, Eq)]
pub enum LayerType {
    /// A set of squares.
    Polygon,
    /// A set of sides of squares.
    Edge,
    /// The results of a check, as pairs of runs.
    Errors,
}
