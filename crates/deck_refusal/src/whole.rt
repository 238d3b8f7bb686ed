//! The refusal of a text.

ghost use Rattle.std.specs.Prelude.{◌≡◌, List, IfOk, IfSome, IfNone};
ghost use Rattle.deck_lexer.specs.declared.token.Token.{Token};
ghost use Rattle.deck_lexer.specs.Tokens.{lexes};
ghost use Rattle.deck_tree.specs.declared.statement.Statement.{Statement};
ghost use Rattle.deck_cursor.specs.Decks.{IsDeckOf};
ghost use Rattle.deck_refusal.specs.Refused.{IsTextRefused, IsSpelled};
ghost use Rattle.deck_refusal.specs.Working.Walking.{IsWrongText, EndsAs};

use crate::fact::{first_fact, refusal_for};
use crate::walk::{Gone, Walk};
use deck_cursor::{bytes_of, kind_in, upcoming};
use deck_lexer::LONGEST_DECK;
use deck_tree::{DeckKind, DeckRefusal};
use std::alloc::{AllocError, Global};

// The refusal where the tokens end behind the walk, if there is one.
fn at_end(walk: &Walk, len: usize) -> Option<DeckRefusal>
    ensures { EndsAs walk.now len result }
{
    if walk.stacks.may_end() {
        None
    } else {
        Some(DeckRefusal {
            at: len as u64,
            kind: DeckKind::Syntax,
        })
    }
}

// The refusal of a text without facts for the first of its tokens that stands wrong, or for its end.
fn first_wrong(alloc: Global, text: &[u8]) -> Result<Option<DeckRefusal>, AllocError>
    requires { (tokens : List Token) × lexes text.now tokens }
    ensures some { IfOk result (λ answer. IfSome answer (λ it. IsWrongText text.now it)) }
    ensures none { IfOk result (λ answer. IfNone answer ((all : List Statement) × IsDeckOf text.now all)) }
{
    let mut walk = Walk::start(alloc)?;
    let mut at = 0;
    while let Some(token) = upcoming(text, at) {
        let kind = kind_in(token.kind, bytes_of(text, token));
        match walk.go(alloc, kind)? {
            Gone::Over(next) => walk = next,
            Gone::Wrong(kind) => {
                return Ok(Some(DeckRefusal {
                    at: token.start as u64,
                    kind,
                }));
            }
        }
        at = token.end;
    }
    Ok(at_end(&walk, text.len()))
}

/// The first fact for which a text is refused, of its length, its tokens and its grammar; None where it is spelled as a
/// deck, which may still lack a statement or have one twice. It fails only for want of memory.
pub fn refusal(alloc: Global, text: &[u8]) -> Result<Option<DeckRefusal>, AllocError>
    ensures some { IfOk result (λ answer. IfSome answer (λ it. IsTextRefused text.now it)) }
    ensures none { IfOk result (λ answer. IfNone answer (IsSpelled text.now)) }
{
    if text.len() > LONGEST_DECK {
        return Ok(Some(DeckRefusal {
            at: LONGEST_DECK as u64,
            kind: DeckKind::DeckTooLong,
        }));
    }
    match first_fact(text) {
        Some(fact) => Ok(Some(refusal_for(fact))),
        None => first_wrong(alloc, text),
    }
}
