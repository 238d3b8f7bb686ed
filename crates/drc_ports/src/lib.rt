//! The outside as the checker sees it: files that are read and written, what is said, and a gate.
#![tactic(auto)]

mod counts;
mod failed;
mod files;
mod gate;
mod held_file;
mod held_files;
mod memory;
mod plan;
mod reading;
mod real;
mod retry;

pub use failed::Failed;
pub use files::Files;
pub use gate::{Gate, OpenGate};
pub use held_file::HeldFile;
pub use memory::MemoryFiles;
pub use plan::{CallKind, Planned};
pub use real::RealFiles;

#[cfg(test)]
mod tests;
