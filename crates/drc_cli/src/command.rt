//! The words of the command line.
ghost use Rattle.std.specs.Prelude.{◌≡◌, ◌↔◌, List, ◌∷◌, codes, IsTrue, IfSome, IfNone, map, string_bytes};
ghost use Rattle.drc_cli.specs.Command.{CheckRequest as Request, FormatRequest as FormatAsked, Setting, Asks, AsksForCheck, AsksForFormat, AreRefused, AreServed, IsDate, IsFileWord, words_of};
ghost use Rattle.drc_cli.specs.Working.CommandView.{request_of, format_of as format_view, command_of as view, HasSettings, TakesSetting};

use crate::printable::is_printable;

/// A command that was asked for.
#[derive(Clone, Copy, Debug)]
pub enum Command<'a> {
    Check(CheckRequest<'a>),
    Format(FormatRequest<'a>),
}

/// A check that was asked for: the date that its results bear, and the deck's name.
#[derive(Clone, Copy, Debug)]
pub struct CheckRequest<'a> {
    pub date: &'a str,
    pub deck: &'a str,
}

/// The canonical text that was asked for: the deck's name.
#[derive(Clone, Copy, Debug)]
pub struct FormatRequest<'a> {
    pub deck: &'a str,
}

/// What the options of a check are set to.
#[derive(Clone, Copy, Debug)]
struct CheckSettings<'a> {
    date: Option<&'a str>,
}

/// The date where none is given.
const NO_DATE: &str = "Jan 1 00:00:00 1970";

/// The command that the words ask for, or none where they ask for nothing that is served.
pub fn command_of(words: &[String]) -> Option<Command<'_>>
    ensures asked { IfSome result (λ command. Asks (map string_bytes words.now) (view command)) }
    ensures refused { IfNone result (AreRefused (map string_bytes words.now)) }
{
    let (word, rest) = words.split_first()?;
    match word.as_str() {
        "check" => Some(Command::Check(check_of(rest)?)),
        "fmt" => Some(Command::Format(format_of(rest)?)),
        _ => None,
    }
}

/// The check that the words after `check` ask for.
fn check_of(words: &[String]) -> Option<CheckRequest<'_>>
    ensures asked { IfSome result (λ request. AsksForCheck (codes "check" ∷ map string_bytes words.now) (request_of request)) }
    ensures refused { IfNone result ((request : Request)
        → AsksForCheck (codes "check" ∷ map string_bytes words.now) request → ⊥) }
{
    let (deck, options) = words.split_last()?;
    if !is_file_word(deck.as_bytes()) {
        return None;
    }
    let settings = settings_of(options)?;
    Some(CheckRequest {
        date: settings.date.unwrap_or(NO_DATE),
        deck: deck.as_str(),
    })
}

/// The deck that the words after `fmt` name.
fn format_of(words: &[String]) -> Option<FormatRequest<'_>>
    ensures asked { IfSome result (λ request. AsksForFormat (codes "fmt" ∷ map string_bytes words.now) (format_view request)) }
    ensures refused { IfNone result ((request : FormatAsked)
        → AsksForFormat (codes "fmt" ∷ map string_bytes words.now) request → ⊥) }
{
    match words {
        [deck] if is_file_word(deck.as_bytes()) => Some(FormatRequest {
            deck: deck.as_str(),
        }),
        _ => None,
    }
}

/// What the words before the deck's name set.
fn settings_of(words: &[String]) -> Option<CheckSettings<'_>>
    ensures set { IfSome result (λ found. (settings : List Setting) × HasSettings settings found
        × (map string_bytes words.now ≡ words_of settings)) }
    ensures refused { IfNone result ((settings : List Setting)
        → map string_bytes words.now ≡ words_of settings → AreServed settings → ⊥) }
{
    let mut settings = CheckSettings { date: None };
    let mut rest = words;
    'pairs: while rest.len() >= 2 {
        if !settings.set(rest[0].as_str(), rest[1].as_str()) {
            return None;
        }
        rest = &rest[2..];
    }
    if rest.is_empty() {
        Some(settings)
    } else {
        None
    }
}

impl<'a> CheckSettings<'a> {
    /// Sets an option, where it is served and wasn't set before.
    fn set(&mut self, option: &str, value: &'a str) -> bool
        ensures { TakesSetting (record { option = option.now; value = value.now }) result self.old self.new }
    {
        match option {
            "--date" if self.date.is_none() && is_date(value.as_bytes()) => {
                self.date = Some(value);
                true
            }
            _ => false,
        }
    }
}

fn is_date(text: &[u8]) -> bool
    ensures { IsTrue result ↔ IsDate text.now }
{
    !text.is_empty() && text.len() <= 40 && text.iter().all(|byte| is_printable(*byte))
}

fn is_file_word(word: &[u8]) -> bool
    ensures { IsTrue result ↔ IsFileWord word.now }
{
    match word {
        [] => false,
        [first, ..] => *first != b'-',
    }
}
