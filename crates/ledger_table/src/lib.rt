//! The table of a run: what its events so far come to, kept so that the next one needs no search.
//!
//! A table keeps the events that were made, and beside them what they say of each operation and of each worker:
//!
//! ```text
//! operation   claimed  charged, its cost  published  releases  readers left      ready: claim the lowest
//! worker      the operation that it holds                                        lowest unfinished operation, total
//! ```
//!
//! It knows nothing of layers and takes the word of its caller for costs. Each call but `new` looks up: a claim takes the
//! logarithm of the number of operations, a publish that for each reader, and the other events no time that grows.
#![tactic(auto)]

mod allowed;
mod made;
mod mark;
mod past;
mod places;
mod ready;
mod table;

pub use table::Table;

#[cfg(test)]
mod tests;
