//! A deck as a tree: its statements, checks, chains of operations and values, each with the place in the text at which
//! it stands, and the reasons for which a deck is refused.
//!
//! The tree keeps what a deck says and not how it says it. So `EXTERNAL` and `EXT`, `007` and `7`, the order of a
//! check's options, and whether a file stands in quotes are not in it:
//!
//! ```text
//! W { M1 and not_m2         Check W
//!     ext M1 < 0.20 }         Output  M1, then AND not_m2
//!                             Output  External M1 < 0.2
//! ```
//!
//! Operations of one rank stand in one list, from left to right, and round brackets are kept as they are written.
//! Contracts see the tree as plain data: a list is its items, and a boxed value is that value.
//!
//! A value comes to an exact number by what is known of the names of variables, or it has faults, of which the first
//! is told:
//!
//! ```text
//! 0.1 + 0.2         3/10
//! W / 0 + 7 / 0     with W known: a division by 0 at the first of the signs
//! ```
#![tactic(auto)]

mod arithmetic;
mod deck;
mod distance;
mod evaluation;
mod infix;
mod laws;
mod layer;
mod limits;
mod name_at;
mod number;
mod refusal;
mod spelled;
mod statement;
mod value;
mod value_fault;
mod vars;

pub use deck::Deck;
pub use distance::{Distance, DistanceKind, Gap, Input, Metric, Options};
pub use evaluation::evaluate;
pub use infix::{EdgeRelation, Infix, Relation};
pub use laws::first_fault_is_first;
pub use layer::{ExpandSide, Layer, Operation, Prefix, Primary, Term, Turn};
pub use limits::{Above, Below, Bound, Limits};
pub use name_at::NameAt;
pub use number::Number;
pub use refusal::{Counted, DeckFault, DeckKind, DeckRefusal, Single};
pub use statement::{Item, LayerMap, MapKind, Statement};
pub use value::{AddSign, Addend, Atom, Exponent, Factor, Power, Product, ProductSign, Value};
pub use value_fault::ValueFault;
pub use vars::Vars;

#[cfg(test)]
mod tests;
#[cfg(test)]
mod value_tests;
