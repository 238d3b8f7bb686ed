use crate::Op;

/// An operation and its inputs, by their numbers. The second stands only beside the first.
#[derive(Debug, PartialEq, Eq, Hash, Drop)]
pub struct Node {
    pub op: Op,
    pub first: Option<u32>,
    pub second: Option<u32>,
}
