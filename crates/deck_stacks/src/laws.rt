//! The laws of stacks. Each is a statement, and does nothing when it is called.

ghost use Rattle.std.specs.Prelude.{◌≡◌, ◌⊎◌, ℕ, List, [], ◌∷◌, ◌++◌};
ghost use Rattle.deck_tree.specs.declared.statement.Statement.{Statement};
ghost use Rattle.deck_grammar.specs.declared.kind.Kind.{Kind};
ghost use Rattle.deck_grammar.specs.Lexemes.{Lexeme, lexeme};
ghost use Rattle.deck_grammar.specs.Rules as r;
ghost use Rattle.deck_grammar.specs.Spelling.{SpellsDeck, Viable};
ghost use Rattle.deck_stacks.specs.Stacks.{Among, Empties, AreNext, Behind};

/// Before the first token one stack is left, of the rule of decks alone. Behind one more token those are left that it
/// leads to; and for each list of stacks and each token there are such.
pub fn stacks_follow_tokens()
    ensures first { Behind [] ((r.rule r.statements ∷ []) ∷ []) }
    ensures more { (before : List Lexeme) (stacks next : List (List r.Part)) (k : Kind) (at : ℕ) (bytes : List ℕ) → AreNext k stacks next → Behind before stacks → Behind (before ++ lexeme k at bytes ∷ []) next }
    ensures some { (k : Kind) (stacks : List (List r.Part)) → (next : List (List r.Part)) × AreNext k stacks next }
{}

/// Tokens are a front of a deck exactly where a stack is left behind them, and those of a deck exactly where one of the
/// stacks may spell nothing; and of each stack it is decided whether it may.
pub fn stacks_tell_decks()
    ensures viable { (before : List Lexeme) (stack : List r.Part) (others : List (List r.Part)) → Behind before (stack ∷ others) → Viable before }
    ensures not_viable { (before : List Lexeme) → Behind before [] → Viable before → ⊥ }
    ensures deck { (before : List Lexeme) (stacks : List (List r.Part)) (stack : List r.Part) → Behind before stacks → Among stack stacks → Empties stack → (all : List Statement) × SpellsDeck before all }
    ensures no_other { (before : List Lexeme) (all : List Statement) (stacks : List (List r.Part)) → Behind before stacks → SpellsDeck before all → (stack : List r.Part) × Among stack stacks × Empties stack }
    ensures decided { (stack : List r.Part) → Empties stack ⊎ (Empties stack → ⊥) }
{}
