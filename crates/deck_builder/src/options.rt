//! The options of a check of distances.

ghost use Rattle.std.specs.Prelude.{◌≡◌, ◌<◌, true, IfOk, IfSome};
ghost use Rattle.deck_grammar.specs.Alternatives.{no_options};
ghost use Rattle.deck_grammar.specs.Rules as r;
ghost use Rattle.deck_cursor.specs.Steps.{Reads};
ghost use Rattle.deck_builder.specs.Choices.{left_of, may_stand, without, with_choice, ReadsChoice, MayReadChoice, how_many};

use crate::tokens::{sign, word};
use crate::value::value;
use deck_cursor::{Cursor, Stop};
use deck_grammar::{Keyword, Kind, Sign};
use deck_tree::{Gap, Metric, Options, Value};
use sqlite_items::Boxed;
use std::alloc::Global;

/// Which options of a check may still stand: each stands at most once.
#[derive(Clone, Copy)]
pub struct Left {
    pub abut: bool,
    pub singular: bool,
    /// OPPOSITE or SQUARE.
    pub metric: bool,
    /// NOTCH or SPACE.
    pub gap: bool,
    pub region: bool,
}

/// One option.
#[derive(Drop)]
pub enum Choice {
    Abut(Boxed<Value>),
    Singular,
    Metric(Metric),
    Gap(Gap),
    Region,
}

/// None of the options.
fn none() -> Options
    ensures { result ≡ no_options }
{
    Options {
        abut: None,
        singular: false,
        metric: None,
        gap: None,
        region: false,
    }
}

#[tactic(auto, using(crate::proofs::DistanceRules::reads_abut))]
fn abut(alloc: Global, cursor: &mut Cursor<'_>) -> Result<Choice, Stop>
    ensures { IfOk result (λ it. ReadsChoice cursor.old cursor.new it) }
{
    word(cursor, Keyword::Abut)?;
    sign(cursor, Sign::Less)?;
    let value = value(alloc, cursor)?;
    Ok(Choice::Abut(Boxed::new(alloc, value)?))
}

// The next option, if one comes.
#[tactic(auto, using(crate::proofs::DistanceRules::reads_singular, crate::proofs::DistanceRules::reads_opposite, crate::proofs::DistanceRules::reads_square, crate::proofs::DistanceRules::reads_notch, crate::proofs::DistanceRules::reads_space, crate::proofs::DistanceRules::reads_region))]
fn option(alloc: Global, cursor: &mut Cursor<'_>) -> Result<Option<Choice>, Stop>
    ensures { IfOk result (λ it. MayReadChoice cursor.old cursor.new it) }
{
    match cursor.peek() {
        Some(Kind::Keyword(Keyword::Abut)) => Ok(Some(abut(alloc, cursor)?)),
        Some(Kind::Keyword(Keyword::Singular)) => {
            word(cursor, Keyword::Singular)?;
            Ok(Some(Choice::Singular))
        }
        Some(Kind::Keyword(Keyword::Opposite)) => {
            word(cursor, Keyword::Opposite)?;
            Ok(Some(Choice::Metric(Metric::Opposite)))
        }
        Some(Kind::Keyword(Keyword::Square)) => {
            word(cursor, Keyword::Square)?;
            Ok(Some(Choice::Metric(Metric::Square)))
        }
        Some(Kind::Keyword(Keyword::Notch)) => {
            word(cursor, Keyword::Notch)?;
            Ok(Some(Choice::Gap(Gap::Notch)))
        }
        Some(Kind::Keyword(Keyword::Space)) => {
            word(cursor, Keyword::Space)?;
            Ok(Some(Choice::Gap(Gap::Space)))
        }
        Some(Kind::Keyword(Keyword::Region)) => {
            word(cursor, Keyword::Region)?;
            Ok(Some(Choice::Region))
        }
        _ => Ok(None),
    }
}

// Which options may still stand behind this one; None where it may not stand itself.
fn without(left: Left, choice: &Choice) -> Option<Left>
    ensures stands { IfSome result (λ it. may_stand left choice.now ≡ true) }
    ensures value { IfSome result (λ it. it ≡ without left choice.now) }
    ensures fewer { IfSome result (λ it. how_many it < how_many left) }
{
    match choice {
        Choice::Abut(_) if left.abut => Some(Left {
            abut: false,
            ..left
        }),
        Choice::Singular if left.singular => Some(Left {
            singular: false,
            ..left
        }),
        Choice::Metric(_) if left.metric => Some(Left {
            metric: false,
            ..left
        }),
        Choice::Gap(_) if left.gap => Some(Left { gap: false, ..left }),
        Choice::Region if left.region => Some(Left {
            region: false,
            ..left
        }),
        _ => None,
    }
}

fn with_choice(others: Options, choice: Choice) -> Options
    ensures { result ≡ with_choice others choice }
{
    match choice {
        Choice::Abut(value) => Options {
            abut: Some(value),
            ..others
        },
        Choice::Singular => Options {
            singular: true,
            ..others
        },
        Choice::Metric(metric) => Options {
            metric: Some(metric),
            ..others
        },
        Choice::Gap(gap) => Options {
            gap: Some(gap),
            ..others
        },
        Choice::Region => Options {
            region: true,
            ..others
        },
    }
}

/// Options, in any order.
#[tactic(auto, using(crate::proofs::CheckRules::no_option, crate::proofs::DistanceRules::one_option))]
pub fn options(alloc: Global, cursor: &mut Cursor<'_>, left: Left) -> Result<Options, Stop>
    ensures { IfOk result (λ it. Reads (r.options (left_of left)) cursor.old cursor.new it) }
{
    let Some(choice) = option(alloc, cursor)? else {
        return Ok(none());
    };
    let Some(rest) = without(left, &choice) else {
        return Err(Stop::Wrong);
    };
    let others = options(alloc, cursor, rest)?;
    Ok(with_choice(others, choice))
}
