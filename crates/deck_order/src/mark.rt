//! Marks of definitions.

ghost use Rattle.std.specs.Prelude.{◌≡◌, ◌↔◌, IsTrue};
ghost use Rattle.deck_order.specs.declared.mark.Mark.TheVariants.{Unseen};

/// How far a walk has come with a definition.
#[derive(Clone, Copy, Debug)]
pub(crate) enum Mark {
    /// It hasn't come to it.
    Unseen,
    /// It is among the open ones, at this place.
    Open(usize),
    /// It is listed.
    Closed,
}

/// Whether the walk hasn't come to a definition with this mark.
pub(crate) fn is_unseen(mark: Mark) -> bool
    ensures { IsTrue result ↔ (mark ≡ Unseen) }
{
    match mark {
        Mark::Unseen => true,
        Mark::Open(_) | Mark::Closed => false,
    }
}
