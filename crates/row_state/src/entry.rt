/// From this column up to the next entry's the columns have the value.
#[derive(Clone, Copy, Debug)]
pub struct Entry<V> {
    pub column: i64,
    pub value: V,
}
