//! The first fact among the tokens of a text.

ghost use Rattle.std.specs.Prelude.{◌≡◌, ◌≤◌, List, length, drop, IfSome, IfNone, None, Ok, Err};
ghost use Rattle.deck_lexer.specs.declared.token.Token.{Token};
ghost use Rattle.deck_lexer.specs.Tokens.{Comes, lexes, IsFirstFact};
ghost use Rattle.deck_cursor.specs.Inside.{IsUpcoming};
ghost use Rattle.deck_refusal.specs.Refused.{refusal_for};

use deck_cursor::upcoming;
use deck_lexer::{LexFault, next};
use deck_tree::{DeckKind, DeckRefusal};

/// The refusal for a fact among the tokens.
pub fn refusal_for(fact: LexFault) -> DeckRefusal
    ensures { result ≡ refusal_for fact }
{
    match fact {
        LexFault::BadByte(at) => DeckRefusal {
            at: at as u64,
            kind: DeckKind::BadByte,
        },
        LexFault::OpenComment(at) => DeckRefusal {
            at: at as u64,
            kind: DeckKind::OpenComment,
        },
        LexFault::OpenText(at) => DeckRefusal {
            at: at as u64,
            kind: DeckKind::OpenText,
        },
    }
}

// The fact at an offset at which no token comes, if there is one.
fn fact_at(text: &[u8], at: usize) -> Option<LexFault>
    requires within { at ≤ length text.now }
    requires no_token { IsUpcoming text.now at None }
    ensures some { IfSome result (λ fact. Comes at (drop at text.now) (Err fact)) }
    ensures none { IfNone result (Comes at (drop at text.now) (Ok None)) }
{
    match next(text, at) {
        Err(fact) => Some(fact),
        Ok(_) => None,
    }
}

/// The first fact among the tokens, if there is one.
pub fn first_fact(text: &[u8]) -> Option<LexFault>
    ensures some { IfSome result (λ fact. IsFirstFact text.now fact) }
    ensures none { IfNone result ((tokens : List Token) × lexes text.now tokens) }
{
    let mut at = 0;
    while let Some(token) = upcoming(text, at) {
        at = token.end;
    }
    fact_at(text, at)
}
