//! A stack of parts.

ghost use Rattle.std.specs.Prelude.{◌≡◌, ◌≤◌, [], ◌∷◌, ◌++◌, length, map, drop, IfOk, IfSome, IfNone};
ghost use Rattle.deck_stacks.specs.Working.Deriving.{all_empty};
ghost use Rattle.deck_stacks.specs.Parts.{part_of};
ghost use Rattle.deck_stacks.specs.Working.Opening.{each_empty};

use crate::part::Part;
use std::alloc::{AllocError, Global};
use std::marker::Model;

/// Parts that follow one another, the next on top.
#[derive(Drop)]
pub struct Stack {
    /// The next one last.
    parts: Vec<Part>,
}

impl Model for Stack {
    ghost use Rattle.std.specs.Prelude.{List};
    ghost use Rattle.deck_grammar.specs.Rules as r;

    ghost Value = { List r.Part };

    ghost use Rattle.deck_stacks.specs.Stacked.{stacked};

    ghost view = { stacked };
}

// Whether none of the parts is a token, and each may spell nothing.
fn each_empty(parts: &[Part]) -> bool
    ensures { result ≡ each_empty parts.now }
{
    let mut left = parts;
    while let [first, rest @ ..] = left {
        if !first.may_be_empty() {
            return false;
        }
        left = rest;
    }
    true
}

impl Stack {
    /// A stack without parts.
    pub fn new(alloc: Global) -> Stack
        ensures { result ≡ [] }
    {
        Stack {
            parts: Vec::new(alloc),
        }
    }

    /// How many parts it has.
    pub fn len(&self) -> usize
        ensures { result ≡ length self.now }
    {
        self.parts.len()
    }

    /// Takes the part on top off, if there is one.
    #[tactic(auto, using(crate::proofs::Tops::from_top_push))]
    pub fn pop(&mut self) -> Option<Part>
        ensures some { IfSome result (λ part. self.old ≡ part_of part ∷ self.new) }
        ensures none { IfNone result (self.old ≡ []) }
        ensures same { IfNone result (self.new ≡ []) }
    {
        self.parts.pop()
    }

    /// Puts a part on top.
    #[tactic(auto, using(crate::proofs::Tops::from_top_push))]
    pub fn push(&mut self, part: Part) -> Result<(), AllocError>
        ensures { IfOk result (λ _. self.new ≡ part_of part ∷ self.old) }
    {
        self.parts.push(part)?;
        Ok(())
    }

    /// Puts parts on top, the first of them the next.
    pub fn push_all(&mut self, parts: &[Part]) -> Result<(), AllocError>
        ensures { IfOk result (λ _. self.new ≡ map part_of parts.now ++ self.old) }
    {
        match parts {
            [] => Ok(()),
            [first, rest @ ..] => {
                self.push_all(rest)?;
                self.push(*first)
            }
        }
    }

    /// Takes so many parts off the top.
    pub fn cut(&mut self, count: usize)
        requires { count ≤ length self.old }
        ensures { self.new ≡ drop count self.old }
    {
        let left = self.parts.len() - count;
        self.parts.truncate(left);
    }

    /// Another stack of the same parts.
    pub fn copy(&self, alloc: Global) -> Result<Stack, AllocError>
        ensures { IfOk result (λ other. other ≡ self.now) }
    {
        Ok(Stack {
            parts: self.parts.to_vec(alloc)?,
        })
    }

    /// Whether it may spell no tokens.
    #[tactic(auto, using(crate::proofs::Tops::each_is_all))]
    pub fn may_be_empty(&self) -> bool
        ensures { result ≡ all_empty self.now }
    {
        each_empty(&self.parts)
    }
}
