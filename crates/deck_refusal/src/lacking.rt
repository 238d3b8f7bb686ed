//! The refusal of a deck that is spelled, for its statements.

ghost use Rattle.std.specs.Prelude.{◌≤◌, length, IfSome, IfNone};
ghost use Rattle.deck_cursor.specs.Decks.{IsDeckOf};
ghost use Rattle.deck_lexer.specs.Sizes.{longest_deck};
ghost use Rattle.deck_refusal.specs.Refused.{IsTextRefused, IsTextAccepted};

use deck_grammar::{missing, repeated};
use deck_tree::{DeckKind, DeckRefusal, Statement};

/// The refusal of a text that is spelled as these statements, for one that must be there and isn't, or for one that
/// stands a second time; None where the text is accepted.
#[tactic(auto, using(crate::proofs::Statements::accepted_so))]
pub fn statements_refusal(text: &[u8], all: &[Statement]) -> Option<DeckRefusal>
    requires size { length text.now ≤ longest_deck }
    requires deck { IsDeckOf text.now all.now }
    ensures some { IfSome result (λ it. IsTextRefused text.now it) }
    ensures none { IfNone result (IsTextAccepted text.now all.now) }
{
    if let Some(which) = missing(all) {
        return Some(DeckRefusal {
            at: text.len() as u64,
            kind: DeckKind::MissingStatement(which),
        });
    }
    match repeated(all) {
        Some((which, at)) => Some(DeckRefusal {
            at,
            kind: DeckKind::RepeatedStatement(which),
        }),
        None => None,
    }
}
