//! Why a text is no deck: the first fact for which it is refused, of its length, its tokens and its grammar.
//!
//! A walk goes over the tokens with the stacks of parts that may follow. The first token behind which no stack is left
//! stands wrong:
//!
//! ```text
//! x = AREA m1 NOT m2
//!             ^        no stack is left: Syntax at 12
//! y = m1 AND NOT m2
//!            ^         set aside where a layer may start: Unsupported at 11
//! ```
#![tactic(auto)]

mod ends;
mod fact;
mod lacking;
mod laws;
mod recent;
mod set_aside;
mod walk;
mod whole;

pub use lacking::statements_refusal;
pub use laws::{accepted_or_refused, one_refusal};
pub use whole::refusal;

#[cfg(test)]
mod tests;
