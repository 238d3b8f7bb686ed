/// What LAYER MAP with DATATYPE says: shapes on this layer of the layout with this data type go to the target.
#[derive(Clone, Copy, Debug, PartialEq, Eq)]
pub struct MapRow {
    pub layer: u32,
    pub datatype: u32,
    pub target: u32,
}
