//! The laws of tokens.

ghost use Rattle.std.specs.Prelude.{◌≡◌, ◌⊎◌, ℕ, List};
ghost use Rattle.deck_lexer.specs.declared.token.Token.{Token};
ghost use Rattle.deck_lexer.specs.declared.token.LexFault.{LexFault};
ghost use Rattle.deck_lexer.specs.Tokens.{lexes, IsFirstFact};

/// A text has one list of tokens at most, and one first fact at most. It is a statement, and does nothing when it is
/// called.
pub fn one_list_of_tokens()
    ensures tokens { (text : List ℕ) → (a b : List Token) → lexes text a → lexes text b → a ≡ b }
    ensures facts { (text : List ℕ) → (a b : LexFault) → IsFirstFact text a → IsFirstFact text b → a ≡ b }
    ensures not_both { (text : List ℕ) → (tokens : List Token) → (fault : LexFault) → lexes text tokens → IsFirstFact text fault → ⊥ }
{}

/// Each text has a list of tokens or a first fact. It is a statement, and does nothing when it is called.
pub fn tokens_or_a_fact()
    ensures { (text : List ℕ) → ((tokens : List Token) × lexes text tokens) ⊎ ((fault : LexFault) × IsFirstFact text fault) }
{}
