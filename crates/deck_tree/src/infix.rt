//! Operations that stand between their two layers. All have one rank.

/// An operation between two layers.
#[derive(Clone, Copy, Debug, PartialEq, Eq)]
pub enum Infix {
    And,
    Or,
    Not,
    Xor,
    OrEdge,
    Relation {
        /// Whether NOT stands before it.
        negated: bool,
        relation: Relation,
    },
    /// The same of edges, with EDGE behind it.
    EdgeRelation {
        negated: bool,
        relation: EdgeRelation,
    },
}

/// How a polygon of the left layer lies to the right one.
#[derive(Clone, Copy, Debug, PartialEq, Eq)]
pub enum Relation {
    Inside,
    Outside,
    Interact,
    Touch,
    Cut,
    Enclose,
}

/// How an edge of the left layer lies to the right one.
#[derive(Clone, Copy, Debug, PartialEq, Eq)]
pub enum EdgeRelation {
    Inside,
    Outside,
    Coincident,
}
