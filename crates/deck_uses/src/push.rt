//! One name more.

ghost use Rattle.std.specs.Prelude.{◌≡◌, ◌++◌, ◌∷◌, [], OnOk};
ghost use Rattle.deck_uses.specs.UsedNames.{shown};

use deck_tree::NameAt;
use std::alloc::AllocError;

/// Adds a name.
#[tactic(auto, using(crate::proofs::Shown::one_more))]
pub(crate) fn push<'d>(names: &mut Vec<&'d NameAt>, name: &'d NameAt) -> Result<(), AllocError>
    ensures { OnOk result (shown names.new.items ≡ shown names.old.items ++ name.entry.now ∷ []) }
{
    names.push(name)?;
    Ok(())
}
