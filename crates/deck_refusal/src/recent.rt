//! The kinds of the last tokens.

ghost use Rattle.std.specs.Prelude.{◌≡◌, ◌∷◌, map, take, IfOk};
ghost use Rattle.deck_refusal.specs.Working.Recent.{begins_with, begins_with_one};

use deck_grammar::{Kind, is_same};
use std::alloc::AllocError;

/// How many of them tell what is set aside.
pub const COUNT: usize = 7;

/// Adds the kind of a token to those before it, the last first.
pub fn remember(recent: &mut Vec<Kind>, kind: Kind) -> Result<(), AllocError>
    ensures { IfOk result (λ _. recent.new.items ≡ take 7 (kind ∷ recent.old.items)) }
{
    recent.insert(0, kind)?;
    recent.truncate(COUNT);
    Ok(())
}

// Whether the kinds begin with these.
fn begins_with(recent: &[Kind], those: &[Kind]) -> bool
    ensures { result ≡ begins_with those.now recent.now }
{
    let mut left = recent;
    let mut wanted = those;
    while let [kind, others @ ..] = wanted {
        let [first, rest @ ..] = left else {
            return false;
        };
        if !is_same(*first, *kind) {
            return false;
        }
        left = rest;
        wanted = others;
    }
    true
}

/// Whether the kinds begin with one of these lists.
pub fn begins_with_one(recent: &[Kind], all: &[&[Kind]]) -> bool
    ensures { result ≡ begins_with_one (map (λ it. it.now) all.now) recent.now }
{
    let mut left = all;
    while let [first, rest @ ..] = left {
        if begins_with(recent, first) {
            return true;
        }
        left = rest;
    }
    false
}
