//! The top call of the program `drc`, a design rule checker for chip layouts.
//!
//! ```text
//! words ─ command ─┬─ check ─ deck_text ─ deck of the first form ─ layout ─ rectangles of the layer
//!                  │                               └─ short_runs ─ runs ─ text ─ results file, and the line that is said
//!                  └─ fmt ─── deck_text ─ format ─ canonical text, which is said
//! ```
//!
//! `run` is all that the program does. A deck is parsed by `deck_parser`; layout and texts are read and made by private
//! modules, of which each has one exact contract; `decide` puts them together before the first file is made, and
//! `publish` writes and says.
#![tactic(auto)]

mod answer;
mod buffer;
mod command;
mod decide;
mod deck_text;
mod detail;
mod ending;
mod file_name;
mod format;
mod laws;
mod layout;
mod lines;
mod printable;
mod publish;
mod read;
mod ready;
mod refuse;
mod short_runs;
mod text;
mod top;
mod whole;

pub use answer::{Report, Status, Which};
pub use laws::{one_deck, one_layout_answer, one_outcome, some_outcome};
pub use top::{is_plain, run, run_plain, run_without_memory};
