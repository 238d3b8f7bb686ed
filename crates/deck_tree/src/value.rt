//! Values: numbers, names of variables, and what is computed from them.

use crate::{NameAt, Number};
use sqlite_items::{Boxed, Items};

/// Products that are added and subtracted, from left to right.
#[cycle(value)]
#[derive(Drop)]
pub struct Value {
    pub first: Product,
    pub more: Items<Addend>,
}

/// A sign, its offset, and the product behind it.
#[cycle(value)]
#[derive(Drop)]
pub struct Addend {
    pub at: u64,
    pub sign: AddSign,
    pub product: Product,
}

#[derive(Clone, Copy, Debug, PartialEq, Eq)]
pub enum AddSign {
    Plus,
    Minus,
}

/// Powers that are multiplied and divided, from left to right.
#[cycle(value)]
#[derive(Drop)]
pub struct Product {
    pub first: Power,
    pub more: Items<Factor>,
}

/// A sign, its offset, and the power behind it.
#[cycle(value)]
#[derive(Drop)]
pub struct Factor {
    pub at: u64,
    pub sign: ProductSign,
    pub power: Power,
}

#[derive(Clone, Copy, Debug, PartialEq, Eq)]
pub enum ProductSign {
    Times,
    Over,
    /// `%`, the remainder.
    Modulo,
}

/// An atom, and maybe the one to whose power it is raised.
#[cycle(value)]
#[derive(Drop)]
pub struct Power {
    pub base: Atom,
    pub exponent: Option<Boxed<Exponent>>,
}

/// The offset of `^`, and the atom behind it.
#[cycle(value)]
#[derive(Drop)]
pub struct Exponent {
    pub at: u64,
    pub atom: Atom,
}

/// A number, the name of a variable, or a value in round brackets. The first part of each is the offset of the minus
/// before it, where there is one.
#[cycle(value)]
#[derive(Drop)]
pub enum Atom {
    Number(Option<u64>, Number),
    Name(Option<u64>, NameAt),
    /// The second part is the offset of the bracket that opens.
    Bracketed(Option<u64>, u64, Boxed<Value>),
}
