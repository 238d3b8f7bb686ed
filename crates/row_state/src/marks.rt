//! Where in the entries a stretch begins and ends.

ghost use Rattle.std.specs.Prelude.{int_le, int_lt};

use crate::entry::Entry;
use chunked_list::Test;

/// Passes at the column and behind it.
#[derive(Clone, Copy)]
pub(crate) struct AtOrBehind(pub(crate) i64);

impl<V: Copy> Test<Entry<V>> for AtOrBehind {
    ghost passed_by = { λ t e. int_le t.0 e.column };

    fn passes(&self, item: &Entry<V>) -> bool {
        self.0 <= item.column
    }
}

/// Passes behind the column.
#[derive(Clone, Copy)]
pub(crate) struct Behind(pub(crate) i64);

impl<V: Copy> Test<Entry<V>> for Behind {
    ghost passed_by = { λ t e. int_lt t.0 e.column };

    fn passes(&self, item: &Entry<V>) -> bool {
        self.0 < item.column
    }
}
