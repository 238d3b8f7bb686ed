/// A rectangle from (x0, y0) to (x1, y1), in database units. It has an area: x0 < x1 and y0 < y1.
#[derive(Clone, Copy, Debug, PartialEq, Eq)]
pub struct Rect {
    pub x0: i64,
    pub y0: i64,
    pub x1: i64,
    pub y1: i64,
}
