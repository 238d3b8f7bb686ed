//! The stacks that are left.

ghost use Rattle.std.specs.Prelude.{◌≡◌, [], ◌∷◌, ◌↔◌, IsTrue, IfOk, List};
ghost use Rattle.deck_grammar.specs.Rules as r;
ghost use Rattle.deck_stacks.specs.Stacks.{Among, Empties, AreNext};
ghost use Rattle.deck_stacks.specs.Working.Opening.{some_empty};

use crate::opening::Taking;
use crate::part::{Part, Rule};
use crate::stack::Stack;
use deck_grammar::Kind;
use std::alloc::{AllocError, Global};
use std::marker::Model;

/// The stacks of parts that may follow the tokens that were read.
#[derive(Drop)]
pub struct Stacks {
    all: Vec<Stack>,
}

impl Model for Stacks {
    ghost use Rattle.std.specs.Prelude.{List};
    ghost use Rattle.deck_grammar.specs.Rules as r;

    ghost Value = { List (List r.Part) };

    ghost view = { λ those. those.all.items };
}

// Whether one of the stacks may spell nothing.
fn some_empty(all: &[Stack]) -> bool
    ensures { result ≡ some_empty all.now }
{
    let mut left = all;
    while let [first, rest @ ..] = left {
        if first.may_be_empty() {
            return true;
        }
        left = rest;
    }
    false
}

impl Stacks {
    /// The one before the first token: the rule of decks alone. It fails only for want of memory.
    pub fn start(alloc: Global) -> Result<Stacks, AllocError>
        ensures { IfOk result (λ those. those ≡ (r.rule r.statements ∷ []) ∷ []) }
    {
        let mut first = Stack::new(alloc);
        first.push(Part::Rule(Rule::Statements))?;
        let mut all = Vec::new(alloc);
        all.push(first)?;
        Ok(Stacks { all })
    }

    /// Those behind one more token, of this kind. It fails only for want of memory.
    #[tactic(auto, using(crate::proofs::Ways::are_next))]
    pub fn next(&self, alloc: Global, kind: Kind) -> Result<Stacks, AllocError>
        ensures { IfOk result (λ those. AreNext kind self.now those) }
    {
        let taking = Taking { alloc, kind };
        Ok(Stacks {
            all: taking.derive_all(&self.all)?,
        })
    }

    /// Whether none is left: the tokens are no front of a deck.
    pub fn is_none_left(&self) -> bool
        ensures { IsTrue result ↔ (self.now ≡ []) }
    {
        self.all.is_empty()
    }

    /// Whether one of them may spell nothing: the tokens are those of a deck.
    #[tactic(auto, using(crate::proofs::Ends::some_end))]
    pub fn may_end(&self) -> bool
        ensures { IsTrue result ↔ (stack : List r.Part) × Among stack self.now × Empties stack }
    {
        some_empty(&self.all)
    }
}
