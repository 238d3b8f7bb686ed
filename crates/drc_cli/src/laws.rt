//! Laws of the definitions, which the contracts of the top call rest on: each text and each stream has one meaning, and
//! so have the words over given files. They do nothing when they are called.
ghost use Rattle.std.specs.Prelude.{◌≡◌, List, ℕ, Option, Some};
ghost use Rattle.gds_records.specs.declared.fault.LayoutRefusal.{LayoutRefusal};
ghost use Rattle.first_form.specs.FirstForm.{ServedDeck};
ghost use Rattle.drc_cli.specs.Deck.{Spells};
ghost use Rattle.drc_cli.specs.Layout.{Element, Accepts, Refuses};
ghost use Rattle.drc_cli.specs.Command.{CheckRequest, FormatRequest, AsksForCheck, AsksForFormat, AreRefused};
ghost use Rattle.drc_cli.specs.CheckMeaning.{IsJudged};
ghost use Rattle.drc_cli.specs.Outcome.{Outcome};
ghost use Rattle.drc_cli.specs.Meaning.{Due, refused_words};

use deck_lexer::tokens_or_a_fact;
use deck_parser::{one_text_answer, some_text_answer};

/// A text is at most one deck of the first form.
pub fn one_deck()
    ensures { (name text : List ℕ) (d e : ServedDeck) → Spells name text d → Spells name text e → d ≡ e }
{
    one_text_answer();
}

/// A stream is accepted with one list of elements and then isn't refused, or it is refused for one fact.
pub fn one_layout_answer()
    ensures elements { (primary bytes : List ℕ) (one other : List Element)
        → Accepts primary bytes one → Accepts primary bytes other → one ≡ other }
    ensures accepted { (primary bytes : List ℕ) (elements : List Element) (refusal : LayoutRefusal)
        → Accepts primary bytes elements → Refuses primary bytes refusal → ⊥ }
    ensures refused { (primary bytes : List ℕ) (one other : LayoutRefusal)
        → Refuses primary bytes one → Refuses primary bytes other → one ≡ other }
{}

/// Over given files words have at most one outcome.
pub fn one_outcome()
    ensures { (held : List ℕ → Option (List ℕ)) (words : List (List ℕ)) (one other : Outcome)
        → Due held words one → Due held words other → one ≡ other }
{
    one_text_answer();
}

/// And at least one: words that ask for nothing; a deck that is held, whose canonical text is asked for; and a check whose
/// deck is held and either spells nothing that is served or names a layout that is held, and is accepted or refused.
pub fn some_outcome()
    ensures words { (held : List ℕ → Option (List ℕ)) (words : List (List ℕ)) → AreRefused words
        → Due held words refused_words }
    ensures check { (held : List ℕ → Option (List ℕ)) (words : List (List ℕ)) (request : CheckRequest) (text : List ℕ)
        → AsksForCheck words request → held request.deck ≡ Some text
        → ((d : ServedDeck) → Spells request.deck text d → IsJudged held d) → (outcome : Outcome)
        × Due held words outcome }
    ensures format { (held : List ℕ → Option (List ℕ)) (words : List (List ℕ)) (request : FormatRequest) (text : List ℕ)
        → AsksForFormat words request → held request.deck ≡ Some text → (outcome : Outcome) × Due held words outcome }
{
    some_text_answer();
    tokens_or_a_fact();
}
