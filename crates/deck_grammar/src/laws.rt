//! The laws of the grammar. Each is a statement, and does nothing when it is called.

ghost use Rattle.std.specs.Prelude.{◌≡◌, ◌++◌, ℕ, List};
ghost use Rattle.deck_tree.specs.declared.statement.Statement.{Statement};
ghost use Rattle.deck_grammar.specs.Lexemes.{Lexeme};
ghost use Rattle.deck_tree.specs.declared.refusal.DeckRefusal.{DeckRefusal};
ghost use Rattle.deck_grammar.specs.Spelling.{SpellsDeck, Viable};
ghost use Rattle.deck_grammar.specs.Refusals.{IsAccepted, IsRefused};

/// A list of tokens spells one deck at most.
pub fn one_deck()
    ensures { (tokens : List Lexeme) (a b : List Statement) → SpellsDeck tokens a → SpellsDeck tokens b → a ≡ b }
{}

/// A list of tokens is viable exactly where more tokens can complete it to those of a deck.
pub fn viable_is_a_front()
    ensures front { (tokens more : List Lexeme) (all : List Statement) → SpellsDeck (tokens ++ more) all → Viable tokens }
    ensures completed { (tokens : List Lexeme) → Viable tokens → (more : List Lexeme) × (all : List Statement) × SpellsDeck (tokens ++ more) all }
{}

/// A list of tokens is refused in one way at most, and not where it is accepted.
pub fn one_answer()
    ensures refusal { (tokens : List Lexeme) (len : ℕ) (a b : DeckRefusal) → IsRefused tokens len a → IsRefused tokens len b → a ≡ b }
    ensures not_both { (tokens : List Lexeme) (len : ℕ) (all : List Statement) (a : DeckRefusal) → IsAccepted tokens all → IsRefused tokens len a → ⊥ }
{}
