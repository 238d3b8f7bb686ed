/// The columns x0 to x1 - 1 had one value.
#[derive(Clone, Copy, Debug)]
pub struct Piece<V> {
    pub x0: i64,
    pub x1: i64,
    pub old: V,
}
