//! The cursor.

ghost use Rattle.std.specs.Prelude.{◌≡◌, ◌≤◌, ◌-◌, ◌↔◌, IsTrue, length, drop, IfOk, OnErr, None, Ok};
ghost use Rattle.deck_lexer.specs.Tokens.{Comes};
ghost use Rattle.deck_grammar.specs.Lexemes.{lexeme};
ghost use Rattle.deck_cursor.specs.Places.{start_of, Takes, TakesNone, Sees, SeesBehind};

use crate::lexed::{brackets_behind, bytes_of, kind_in, upcoming};
use deck_grammar::{Kind, is_same};
use deck_lexer::{Token, next};
use std::alloc::{AllocError, AllocFailed};
use std::marker::Model;

/// Why reading stops before the end.
#[derive(Clone, Copy, Debug, PartialEq, Eq)]
pub enum Stop {
    /// What comes next doesn't stand at its place.
    Wrong,
    Memory,
}

impl From<AllocError> for Stop {
    fn from(_e: AllocError) -> Stop {
        Stop::Memory
    }
}

impl<T: Drop> From<AllocFailed<T>> for Stop {
    fn from(_e: AllocFailed<T>) -> Stop {
        Stop::Memory
    }
}

/// A token that was taken: the offset of its first byte, and its bytes.
#[derive(Clone, Copy)]
pub struct Taken<'a> {
    pub at: u64,
    pub bytes: &'a [u8],
}

/// A place in a text, behind a token or at the start, and what comes next.
#[derive(Drop)]
pub struct Cursor<'a> {
    text: &'a [u8],
    at: usize,
    /// How many round brackets are open.
    brackets: u64,
    ahead: Option<Token>,
}

impl<'a> Model for Cursor<'a> {
    ghost use Rattle.deck_cursor.specs.Inside.{IsUpcoming};
    ghost use Rattle.deck_cursor.specs.Places.{Place};

    ghost Value = { Place };

    ghost use Rattle.deck_cursor.specs.Inside.{place_of, IsReady};

    ghost view = { place_of };

    ghost invariant = { IsReady };
}

// Whether neither a token nor a fact comes.
fn is_end(text: &[u8], at: usize) -> bool
    requires { at ≤ length text.now }
    ensures { IsTrue result ↔ Comes at (drop at text.now) (Ok None) }
{
    match next(text, at) {
        Ok(None) => true,
        Ok(Some(_)) => false,
        Err(_) => false,
    }
}

impl<'a> Cursor<'a> {
    /// The cursor at the start of a text.
    pub fn new(text: &'a [u8]) -> Cursor<'a>
        ensures { result ≡ start_of text.now }
    {
        Cursor {
            text,
            at: 0,
            brackets: 0,
            ahead: upcoming(text, 0),
        }
    }

    /// What the next token is to the grammar, if one comes.
    pub fn peek(&self) -> Option<Kind>
        ensures { Sees self.now result }
    {
        match self.ahead {
            Some(token) => Some(kind_in(token.kind, bytes_of(self.text, token))),
            None => None,
        }
    }

    /// What the token behind the next one is to the grammar, if both come.
    pub fn peek_behind(&self) -> Option<Kind>
        ensures { SeesBehind self.now result }
    {
        let Some(first) = self.ahead else {
            return None;
        };
        match upcoming(self.text, first.end) {
            Some(token) => Some(kind_in(token.kind, bytes_of(self.text, token))),
            None => None,
        }
    }

    /// How many bytes are left, which are at least as many as tokens.
    pub fn left(&self) -> usize
        ensures { result ≡ length self.now.text - self.now.at }
    {
        self.text.len() - self.at
    }

    /// Whether the text is at its end, and no fact stands there.
    pub fn is_at_end(&self) -> bool
        ensures { IsTrue result ↔ Comes self.now.at (drop self.now.at self.now.text) (Ok None) }
    {
        is_end(self.text, self.at)
    }

    /// Takes the next token, which has to be of this kind. A round bracket inside as many as there may be isn't taken.
    pub fn take(&mut self, kind: Kind) -> Result<Taken<'a>, Stop>
        ensures ok { IfOk result (λ t. Takes self.old (lexeme kind t.at t.bytes.now) self.new) }
        ensures wrong { OnErr result (TakesNone self.old kind) }
        ensures same { OnErr result (self.new ≡ self.old) }
    {
        let Some(token) = self.ahead else {
            return Err(Stop::Wrong);
        };
        let bytes = bytes_of(self.text, token);
        if !is_same(kind_in(token.kind, bytes), kind) {
            return Err(Stop::Wrong);
        }
        let Some(brackets) = brackets_behind(self.brackets, kind) else {
            return Err(Stop::Wrong);
        };
        self.at = token.end;
        self.brackets = brackets;
        self.ahead = upcoming(self.text, token.end);
        Ok(Taken {
            at: token.start as u64,
            bytes,
        })
    }
}
