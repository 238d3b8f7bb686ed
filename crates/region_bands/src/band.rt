use interval_row::Row;

/// The row of squares that stands in each row from line y0 to line y1. The numbers are database units.
#[derive(Debug, Drop)]
pub struct Band {
    pub y0: i64,
    pub y1: i64,
    pub row: Row,
}
