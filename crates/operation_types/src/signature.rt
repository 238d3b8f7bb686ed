use crate::{InputType, LayerType};

/// What an operation takes and gives.
#[derive(Clone, Copy, Debug, PartialEq, Eq)]
pub struct Signature {
    pub first: InputType,
    pub second: InputType,
    pub gives: LayerType,
}
