/// A definition on the way from the one that a walk began with.
#[derive(Clone, Copy, Debug)]
pub(crate) struct Step {
    pub(crate) definition: u32,
    /// Its place among the open ones.
    pub(crate) at: usize,
    /// How many of its uses were looked at.
    pub(crate) next: usize,
}
