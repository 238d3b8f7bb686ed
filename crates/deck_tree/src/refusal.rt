//! Why a deck is refused.

ghost use Rattle.std.specs.Prelude.{◌≡◌};
ghost use Rattle.deck_tree.specs.DeckKinds.{deck_number, deck_word, statement_words, counted_word};
ghost use Rattle.deck_tree.specs.declared.refusal.DeckFault.TheVariants.{Memory};

use std::alloc::{AllocError, AllocFailed};
use thiserror::Error;

/// A statement that a deck has at most once. The first four must be there.
#[derive(Clone, Copy, Debug, PartialEq, Eq)]
pub enum Single {
    LayoutSystem,
    LayoutPath,
    LayoutPrimary,
    ResultsDatabase,
    Precision,
    Title,
    SummaryReport,
    MaximumResults,
}

impl Single {
    /// The words with which the statement begins, in capitals.
    pub fn words(self) -> &'static str
        ensures { result.now ≡ statement_words self }
    {
        match self {
            Single::LayoutSystem => "LAYOUT SYSTEM",
            Single::LayoutPath => "LAYOUT PATH",
            Single::LayoutPrimary => "LAYOUT PRIMARY",
            Single::ResultsDatabase => "DRC RESULTS DATABASE",
            Single::Precision => "PRECISION",
            Single::Title => "TITLE",
            Single::SummaryReport => "DRC SUMMARY REPORT",
            Single::MaximumResults => "DRC MAXIMUM RESULTS",
        }
    }
}

/// What a deck can have too many of.
#[derive(Clone, Copy, Debug, PartialEq, Eq)]
pub enum Counted {
    /// Round brackets inside one another.
    Nesting,
    Operations,
    Checks,
    Outputs,
}

impl Counted {
    /// The word for it.
    pub fn word(self) -> &'static str
        ensures { result.now ≡ counted_word self }
    {
        match self {
            Counted::Nesting => "Nesting",
            Counted::Operations => "Operations",
            Counted::Checks => "Checks",
            Counted::Outputs => "Outputs",
        }
    }
}

/// What is wrong with a deck.
#[derive(Clone, Copy, Debug, PartialEq, Eq)]
pub enum DeckKind {
    /// More bytes than a deck may have.
    DeckTooLong,
    /// A byte that begins no token, or that a text can't hold.
    BadByte,
    /// A `/*` without an end.
    OpenComment,
    /// A quote whose line or deck ends before the closing one.
    OpenText,
    /// A number or a result out of range.
    ValueRange,
    /// A token of the language that is set aside.
    Unsupported,
    /// A token that can't stand at its place.
    Syntax,
    /// The later of two definitions of one name.
    DuplicateName,
    /// A name that isn't defined for its place.
    UndefinedName,
    /// An operand or an output of a type that its place doesn't take.
    WrongType,
    /// A value that isn't a whole number of database units.
    OffGrid,
    /// A division by a value that is 0.
    DivideByZero,
    /// A statement that must be there and isn't.
    MissingStatement(Single),
    /// The second of a statement that stands at most once.
    RepeatedStatement(Single),
    /// One more than a deck may have.
    TooMany(Counted),
    /// A results file or a trace with the name of another file of the run.
    SameFile,
    /// A definition that uses itself, by itself or by others.
    LayerCycle,
    /// A deck that the checker doesn't serve yet.
    NotBuilt,
}

impl DeckKind {
    /// The number by which the line of a refusal names the reason.
    pub fn number(self) -> u32
        ensures { result ≡ deck_number self }
    {
        match self {
            DeckKind::DeckTooLong => 1,
            DeckKind::BadByte => 2,
            DeckKind::OpenComment => 3,
            DeckKind::OpenText => 4,
            DeckKind::ValueRange => 5,
            DeckKind::Unsupported => 6,
            DeckKind::Syntax => 7,
            DeckKind::DuplicateName => 8,
            DeckKind::UndefinedName => 9,
            DeckKind::WrongType => 10,
            DeckKind::OffGrid => 11,
            DeckKind::DivideByZero => 12,
            DeckKind::MissingStatement(_) => 13,
            DeckKind::RepeatedStatement(_) => 14,
            DeckKind::TooMany(_) => 15,
            DeckKind::SameFile => 16,
            DeckKind::LayerCycle => 17,
            DeckKind::NotBuilt => 90,
        }
    }

    /// The word by which the line of a refusal names the reason.
    pub fn word(self) -> &'static str
        ensures { result.now ≡ deck_word self }
    {
        match self {
            DeckKind::DeckTooLong => "DeckTooLong",
            DeckKind::BadByte => "BadByte",
            DeckKind::OpenComment => "OpenComment",
            DeckKind::OpenText => "OpenText",
            DeckKind::ValueRange => "ValueRange",
            DeckKind::Unsupported => "Unsupported",
            DeckKind::Syntax => "Syntax",
            DeckKind::DuplicateName => "DuplicateName",
            DeckKind::UndefinedName => "UndefinedName",
            DeckKind::WrongType => "WrongType",
            DeckKind::OffGrid => "OffGrid",
            DeckKind::DivideByZero => "DivideByZero",
            DeckKind::MissingStatement(_) => "MissingStatement",
            DeckKind::RepeatedStatement(_) => "RepeatedStatement",
            DeckKind::TooMany(_) => "TooMany",
            DeckKind::SameFile => "SameFile",
            DeckKind::LayerCycle => "LayerCycle",
            DeckKind::NotBuilt => "NotBuilt",
        }
    }
}

/// The first fact for which a deck is refused, and the offset at which it stands.
#[derive(Clone, Copy, Debug, PartialEq, Eq)]
pub struct DeckRefusal {
    pub at: u64,
    pub kind: DeckKind,
}

/// A deck that wasn't read.
#[derive(Debug, Drop, Error)]
pub enum DeckFault {
    #[error("the deck is refused")]
    Refused(DeckRefusal),
    #[error("out of memory")]
    Memory,
}

impl From<AllocError> for DeckFault {
    ghost from_gives = { λ _ e. e ≡ Memory };

    fn from(_e: AllocError) -> DeckFault {
        DeckFault::Memory
    }
}

impl<T: Drop> From<AllocFailed<T>> for DeckFault {
    ghost from_gives = { λ _ e. e ≡ Memory };

    fn from(_e: AllocFailed<T>) -> DeckFault {
        DeckFault::Memory
    }
}
