//! A walk over the tokens of a deck.

ghost use Rattle.std.specs.Prelude.{◌≡◌, ◌≤◌, ◌↔◌, [], ◌∷◌, ◌++◌, ℕ, List, take, IsTrue, IfOk};
ghost use Rattle.deck_grammar.specs.Lexemes.{Lexeme, lexeme};
ghost use Rattle.deck_grammar.specs.Refusals.{AwaitsPrimary};
ghost use Rattle.deck_refusal.specs.Working.Walking.{HasCome, GoesTo, Misplaced};

use crate::recent::remember;
use crate::set_aside::is_set_aside;
use deck_cursor::brackets_behind;
use deck_grammar::{Keyword, Kind};
use deck_stacks::Stacks;
use deck_tree::{Counted, DeckKind};
use std::alloc::{AllocError, Global};

/// How far a walk has come.
#[derive(Drop)]
pub struct Walk {
    pub stacks: Stacks,
    /// How many round brackets are open.
    pub brackets: u64,
    /// The kinds of the last tokens, the last first.
    pub recent: Vec<Kind>,
}

/// Where a token leads.
#[derive(Drop)]
pub enum Gone {
    /// To a walk that has come over it.
    Over(Walk),
    /// Nowhere: it is wrong.
    Wrong(DeckKind),
}

impl Walk {
    /// The walk before the first token.
    pub fn start(alloc: Global) -> Result<Walk, AllocError>
        ensures { IfOk result (λ walk. HasCome [] walk) }
    {
        Ok(Walk {
            stacks: Stacks::start(alloc)?,
            brackets: 0,
            recent: Vec::new(alloc),
        })
    }

    // Whether a layer may start behind the tokens.
    fn awaits_primary(&self, alloc: Global) -> Result<bool, AllocError>
        ensures { IfOk result (λ may. (before : List Lexeme) → HasCome before self.now
            → IsTrue may ↔ AwaitsPrimary before) }
    {
        let behind = self.stacks.next(alloc, Kind::Keyword(Keyword::Copy))?;
        Ok(!behind.is_none_left())
    }

    // Why a token of this kind can't stand behind the tokens.
    fn misplaced(&self, alloc: Global, kind: Kind) -> Result<DeckKind, AllocError>
        ensures { IfOk result (λ reason. (before : List Lexeme) → HasCome before self.now
            → Misplaced before kind reason) }
    {
        let may_start = self.awaits_primary(alloc)?;
        if is_set_aside(may_start, &self.recent, kind) {
            Ok(DeckKind::Unsupported)
        } else {
            Ok(DeckKind::Syntax)
        }
    }

    // The walk over one token more, of this kind, behind which stacks are left.
    fn over(self, stacks: Stacks, brackets: u64, kind: Kind) -> Result<Walk, AllocError>
        ensures { IfOk result (λ walk. (walk.stacks ≡ stacks) × (walk.brackets ≡ brackets) × (walk.recent.items
            ≡ take 7 (kind ∷ self.recent.items))) }
    {
        let Walk {
            stacks: _,
            brackets: _,
            recent: mut kinds,
        } = self;
        remember(&mut kinds, kind)?;
        Ok(Walk {
            stacks,
            brackets,
            recent: kinds,
        })
    }

    /// Goes over one token more, of this kind.
    pub fn go(self, alloc: Global, kind: Kind) -> Result<Gone, AllocError>
        requires { self.brackets ≤ 64 }
        ensures { IfOk result (λ gone. (before : List Lexeme) (at : ℕ) (bytes : List ℕ) → HasCome before self
            → GoesTo before (lexeme kind at bytes) gone) }
    {
        let stacks = self.stacks.next(alloc, kind)?;
        if stacks.is_none_left() {
            return Ok(Gone::Wrong(self.misplaced(alloc, kind)?));
        }
        match brackets_behind(self.brackets, kind) {
            Some(brackets) => Ok(Gone::Over(self.over(stacks, brackets, kind)?)),
            None => Ok(Gone::Wrong(DeckKind::TooMany(Counted::Nesting))),
        }
    }
}
