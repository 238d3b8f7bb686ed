//! A list that is kept in chunks, so that a change in its middle moves only a few items.
//!
//! ```text
//!    [a b c d] [e f g] [h i j k l]        the list a b c d e f g h i j k l
//!          ^------^
//!          a stretch: from the first item that passes one test up to the first behind it that passes another
//! ```
//!
//! A stretch is read, and another is put in its place: the chunks that it crosses are written over, a chunk that has
//! come to more than 64 items is cut in half, and one that has become empty goes. To find a stretch the first items of
//! the chunks are searched by halves, so the items stand in an order: behind one that passes the test all pass.
#![tactic(auto)]

mod chunk;
mod list;
mod put;
mod search;
mod test;
#[cfg(test)]
mod tests;

pub use list::ChunkedList;
pub use test::Test;
