/// A reference: the structure in which it stands, and its place among the references of that structure.
#[derive(Clone, Copy, Debug, PartialEq, Eq)]
pub struct Reference {
    pub structure: u32,
    pub place: usize,
}
