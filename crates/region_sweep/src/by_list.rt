//! The two changes of an evaluator.

use crate::evaluator::Evaluator;
use row_state::{Change, Value};

/// A flip of the first list.
#[derive(Clone, Copy)]
pub(crate) struct ByFirst<E>(pub(crate) E);

impl<V: Value, E: Evaluator<V>> Change<V> for ByFirst<E> {
    ghost makes = { λ c v. E.first c.0 v };

    fn make(&self, old: V) -> V {
        self.0.first(old)
    }
}

/// A flip of the second list.
#[derive(Clone, Copy)]
pub(crate) struct BySecond<E>(pub(crate) E);

impl<V: Value, E: Evaluator<V>> Change<V> for BySecond<E> {
    ghost makes = { λ c v. E.second c.0 v };

    fn make(&self, old: V) -> V {
        self.0.second(old)
    }
}
