//! A definition of a deck.

use deck_names::Scope;
use deck_tree::{Layer, NameAt, Number, Value};

/// What a definition gives its name to.
#[derive(Clone, Copy)]
pub enum Body<'d> {
    /// The layers of the layout with these numbers.
    Drawn(&'d [Number]),
    /// A layer that is derived from others.
    Derived(&'d Layer),
    /// A value: the name is a variable.
    Variable(&'d Value),
}

/// A definition: the name that it gives, from where that is seen, and what it stands for.
#[derive(Clone, Copy)]
pub struct Defined<'d> {
    pub name: &'d NameAt,
    pub scope: Scope,
    pub body: Body<'d>,
}
