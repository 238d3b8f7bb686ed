//! What is defined, and where that is seen.

/// Where something stands, or is seen: outside checks, which is seen everywhere, or in a check, by its number.
#[derive(Clone, Copy, Debug)]
pub enum Scope {
    Everywhere,
    Check(u32),
}

/// A definition: the name that it gives, and where that is seen.
#[derive(Clone, Copy, Debug)]
pub struct Definition<'d> {
    pub name: &'d [u8],
    pub scope: Scope,
}
