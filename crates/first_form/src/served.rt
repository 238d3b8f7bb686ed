//! Which decks are of the first form, and what they say.

ghost use Rattle.std.specs.Prelude.{◌≡◌, IfSome, IfNone};
ghost use Rattle.std.specs.List.{list_all};
ghost use Rattle.std.specs.Option.{option_map};
ghost use Rattle.first_form.specs.FirstForm.{ServedDeck, IsFirstForm, is_file_byte};
ghost use Rattle.first_form.specs.Reading.{IsReadingOf};
ghost use Rattle.first_form.specs.Working.Parts.{is_file_name, files_fit, served_in};
ghost use Rattle.first_form.specs.Working.Views.{Gives, head_of, choice_in, chosen_number, Reads};

use crate::digits::{is_bound, units};
use crate::statement::{DeckParts, Preamble, parts_of};
use deck_tree::{Deck, Statement};

/// Database units in a user unit.
pub const PRECISION: u32 = 1000;

/// Of how many results a check writes at most.
pub const LIMIT: usize = 1000;

/// What a deck of the first form says.
#[derive(Drop)]
pub struct FirstDeck<'a> {
    /// The layout's file.
    pub layout: &'a [u8],
    /// The cell at the layout's top.
    pub primary: &'a [u8],
    /// The results' file.
    pub results: &'a [u8],
    /// The check's name.
    pub check: &'a [u8],
    /// The check's note.
    pub note: &'a [u8],
    /// The number of the layer that the check looks at.
    pub number: u16,
    /// The bound below which a side is short, in database units.
    pub bound: u32,
}

fn is_file_byte(byte: u8) -> bool
    ensures { result ≡ is_file_byte byte }
{
    byte < 128
}

fn all_file_bytes(name: &[u8]) -> bool
    ensures { result ≡ list_all is_file_byte name.now }
{
    name.iter().all(|b| is_file_byte(*b))
}

#[tactic(auto, unfolding(crate::specs::Working::Parts::is_file_name))]
fn is_file_name(name: &[u8]) -> bool
    ensures { result ≡ is_file_name name.now }
{
    !name.is_empty() && all_file_bytes(name)
}

#[tactic(auto, unfolding(crate::specs::Working::Parts::files_fit))]
fn files_fit(deck_name: &[u8], preamble: &Preamble<'_>) -> bool
    ensures { result ≡ files_fit deck_name.now (head_of preamble.now) }
{
    is_file_name(preamble.layout)
        && is_file_name(preamble.results)
        && preamble.layout != preamble.results
        && preamble.layout != deck_name
        && preamble.results != deck_name
}

/// The number of the layer that the check looks at, where its name is that of one of the layers, whose names differ.
#[tactic(auto, unfolding(crate::specs::Working::Parts::choice_of))]
fn input_number(parts: &DeckParts<'_>) -> Option<u16>
    ensures { Gives (λ n. n) result (option_map (λ o. chosen_number parts.now o) (choice_in parts.now)) }
{
    let input = parts.rule.input;
    match &parts.second {
        None if input == parts.first.name => Some(parts.first.number),
        None => None,
        Some(second) if parts.first.name == second.name => None,
        Some(_) if input == parts.first.name => Some(parts.first.number),
        Some(second) if input == second.name => Some(second.number),
        Some(_) => None,
    }
}

#[tactic(auto, unfolding(crate::specs::Working::Parts::served_in))]
fn read<'a>(statements: &'a [Statement], deck_name: &[u8]) -> Option<FirstDeck<'a>>
    ensures { Reads result (served_in deck_name.now statements.entry.now) }
{
    let parts = parts_of(statements)?;
    let number = input_number(&parts)?;
    if !is_bound(parts.rule.bound) || !files_fit(deck_name, &parts.preamble) {
        return None;
    }
    Some(FirstDeck {
        layout: parts.preamble.layout,
        primary: parts.preamble.primary,
        results: parts.preamble.results,
        check: parts.rule.name,
        note: parts.rule.note,
        number,
        bound: units(parts.rule.bound),
    })
}

/// What the deck says, if it is of the first form where its own name is `deck_name`. It takes no memory.
pub fn first_deck<'a>(deck: &'a Deck, deck_name: &[u8]) -> Option<FirstDeck<'a>>
    ensures found { IfSome result (λ found. (d : ServedDeck) × IsFirstForm deck_name.now deck.now d × IsReadingOf found d) }
    ensures none { IfNone result ((d : ServedDeck) → IsFirstForm deck_name.now deck.now d → ⊥) }
{
    read(deck.statements.as_slice(), deck_name)
}
