//! Bounds that are compared with.

use crate::Value;
use sqlite_items::Boxed;

/// A sign that bounds from above.
#[derive(Clone, Copy, Debug, PartialEq, Eq)]
pub enum Below {
    Less,
    LessOrEqual,
}

/// A sign that bounds from below.
#[derive(Clone, Copy, Debug, PartialEq, Eq)]
pub enum Above {
    Greater,
    GreaterOrEqual,
}

/// `<` or `<=` and a value.
#[derive(Drop)]
pub struct Bound {
    pub sign: Below,
    pub value: Value,
}

/// Which areas or lengths are kept.
#[derive(Drop)]
pub enum Limits {
    Below(Bound),
    Equal(Value),
    NotEqual(Value),
    /// A bound from below, and maybe one from above.
    Above(Above, Value, Option<Boxed<Bound>>),
}
