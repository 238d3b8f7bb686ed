ghost use Rattle.std.specs.Prelude.{◌≡◌, IfOk, string_bytes};
ghost use Rattle.first_form.specs.FirstForm.{IsFileName};

use std::alloc::{AllocError, Global};

/// The name as a text, to be handed over.
pub fn text_of_name(alloc: Global, name: &[u8]) -> Result<String, AllocError>
    requires { IsFileName name.now }
    ensures { IfOk result (λ text. string_bytes text ≡ name.now) }
{
    let bytes = Vec::from_slice(alloc, name)?;
    match String::from_utf8(bytes) {
        Ok(text) => Ok(text),
        Err(_) => unreachable!(),
    }
}
