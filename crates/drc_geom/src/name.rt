ghost use Rattle.std.specs.Prelude.{◌≡◌, ℕ, List, IfOk};

use std::alloc::{AllocError, Global};
use std::marker::Model;

/// A name as its bytes stand in a deck or a layout.
#[derive(Debug, Drop)]
pub struct Name {
    bytes: Vec<u8>,
}

impl Model for Name {
    ghost Value = { List ℕ };

    ghost view = { λ name. name.bytes.items };
}

impl Name {
    /// The name with these bytes. It fails only for want of memory.
    pub fn new(alloc: Global, bytes: &[u8]) -> Result<Name, AllocError>
        ensures { IfOk result (λ name. name ≡ bytes.now) }
    {
        Ok(Name {
            bytes: bytes.to_vec(alloc)?,
        })
    }

    /// The bytes of the name.
    pub fn bytes(&self) -> &[u8]
        ensures { result.now ≡ self.now }
    {
        self.bytes.as_slice()
    }
}
