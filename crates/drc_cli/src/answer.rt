//! How a run of the program ends.
ghost use Rattle.std.specs.Prelude.{◌≡◌};
ghost use Rattle.drc_cli.specs.Statuses.{exit_status_of};

use deck_tree::DeckRefusal;
use gds_records::LayoutRefusal;

/// Which of its files a run was at when a call failed.
#[derive(Clone, Copy, Debug, PartialEq, Eq)]
pub enum Which {
    Deck,
    Layout,
    Results,
    Output,
}

/// How a run ended.
#[derive(Clone, Copy, Debug, PartialEq, Eq)]
pub enum Status {
    /// The command is done, and its text is said.
    Done,
    /// The words are no command.
    Words,
    /// The deck is refused.
    Deck(DeckRefusal),
    /// The layout is refused.
    Layout(LayoutRefusal),
    /// A file could not be read.
    ReadFault(Which),
    /// A file could not be written, or a line not said.
    WriteFault(Which),
    /// Memory ran out.
    NoMemory,
}

impl Status {
    /// The exit status of the process.
    pub fn number(&self) -> u8
        ensures { result ≡ exit_status_of self.now }
    {
        match self {
            Status::Done => 0,
            Status::Words => 2,
            Status::Deck(_) => 3,
            Status::Layout(_) => 4,
            Status::ReadFault(_) => 5,
            Status::WriteFault(_) => 6,
            Status::NoMemory => 7,
        }
    }
}

/// What a run answers.
#[derive(Clone, Copy, Debug, PartialEq, Eq)]
pub struct Report {
    pub status: Status,
}
