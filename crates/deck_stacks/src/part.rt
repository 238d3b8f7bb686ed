//! The parts of the grammar's alternatives.

ghost use Rattle.std.specs.Prelude.{◌≡◌};
ghost use Rattle.deck_stacks.specs.Working.Tables.{may_be_empty};
ghost use Rattle.deck_stacks.specs.Parts.{rule_of, part_of};
ghost use Rattle.deck_stacks.specs.Working.Opening.{token_of, is_empty_way};

use deck_grammar::{Keyword, Kind, Sign};
use deck_tree::DistanceKind;

/// A rule of the grammar, but for that of options.
#[derive(Clone, Copy)]
pub enum Rule {
    Statements,
    Statement,
    File,
    Names,
    Numbers,
    Ascii,
    Mode,
    MapKind,
    Items,
    Value,
    Addends,
    Product,
    Factors,
    Power,
    Exponent,
    Atom,
    Layer,
    Operations,
    InfixOperation,
    Primary,
    Term,
    Limits,
    Upper,
    Bound,
    Turn,
    Side,
    Distance(DistanceKind),
}

/// Which options of a check may still stand.
#[derive(Clone, Copy)]
pub struct Left {
    pub abut: bool,
    pub singular: bool,
    /// OPPOSITE or SQUARE.
    pub metric: bool,
    /// NOTCH or SPACE.
    pub gap: bool,
    pub region: bool,
}

/// A part of an alternative: one token, what a rule spells, or options.
#[derive(Clone, Copy)]
pub enum Part {
    Word(Keyword),
    Sign(Sign),
    Token(Kind),
    Rule(Rule),
    Options(Left),
}

fn rule_may_be_empty(rule: Rule) -> bool
    ensures { result ≡ may_be_empty (rule_of rule) }
{
    match rule {
        Rule::Statements
        | Rule::Names
        | Rule::Numbers
        | Rule::Ascii
        | Rule::Mode
        | Rule::Items
        | Rule::Addends
        | Rule::Factors
        | Rule::Exponent
        | Rule::Operations
        | Rule::Upper
        | Rule::Turn => true,
        Rule::Statement
        | Rule::File
        | Rule::MapKind
        | Rule::Value
        | Rule::Product
        | Rule::Power
        | Rule::Atom
        | Rule::Layer
        | Rule::InfixOperation
        | Rule::Primary
        | Rule::Term
        | Rule::Limits
        | Rule::Bound
        | Rule::Side
        | Rule::Distance(_) => false,
    }
}

impl Part {
    /// The kind of the token that it is, if it is one.
    pub fn token(self) -> Option<Kind>
        ensures { token_of (part_of self) ≡ result }
    {
        match self {
            Part::Word(word) => Some(Kind::Keyword(word)),
            Part::Sign(sign) => Some(Kind::Sign(sign)),
            Part::Token(kind) => Some(kind),
            Part::Rule(_) | Part::Options(_) => None,
        }
    }

    /// Whether it may spell no tokens.
    pub fn may_be_empty(self) -> bool
        ensures { result ≡ is_empty_way (part_of self) }
    {
        match self {
            Part::Rule(rule) => rule_may_be_empty(rule),
            Part::Options(_) => true,
            _ => false,
        }
    }
}
