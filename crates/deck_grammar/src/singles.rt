//! The statements that must be there, and those that stand once.

ghost use Rattle.std.specs.Prelude.{◌≡◌, ◌↔◌, IsTrue, Contains, IfSome, IfNone, Some};
ghost use Rattle.deck_tree.specs.declared.refusal.Single.{Single};
ghost use Rattle.deck_grammar.specs.Refusals.{single_of, place_of, singles, wanted, IsMissing, IsRepeated, StandOnce};

use deck_tree::{Single, Statement};

/// Which of the statements that stand once it is, if any.
pub fn single_of(statement: &Statement) -> Option<Single>
    ensures { result ≡ single_of statement.now }
{
    match statement {
        Statement::LayoutSystem(_) => Some(Single::LayoutSystem),
        Statement::LayoutPath(_, _) => Some(Single::LayoutPath),
        Statement::LayoutPrimary(_, _) => Some(Single::LayoutPrimary),
        Statement::ResultsDatabase(_, _) => Some(Single::ResultsDatabase),
        Statement::SummaryReport(_, _) => Some(Single::SummaryReport),
        Statement::MaximumResults(_, _) => Some(Single::MaximumResults),
        Statement::Precision(_, _) => Some(Single::Precision),
        Statement::Title(_, _) => Some(Single::Title),
        _ => None,
    }
}

fn place_of(statement: &Statement) -> u64
    ensures { result ≡ place_of statement.now }
{
    match statement {
        Statement::LayoutSystem(at) => *at,
        Statement::LayoutPath(at, _) => *at,
        Statement::LayoutPrimary(at, _) => *at,
        Statement::ResultsDatabase(at, _) => *at,
        Statement::SummaryReport(at, _) => *at,
        Statement::MaximumResults(at, _) => *at,
        Statement::Precision(at, _) => *at,
        Statement::Title(at, _) => *at,
        _ => 0,
    }
}

fn is_same(a: Single, b: Single) -> bool
    ensures { IsTrue result ↔ (a ≡ b) }
{
    a == b
}

fn is_single(statement: &Statement, which: Single) -> bool
    ensures { IsTrue result ↔ (single_of statement.now ≡ Some which) }
{
    match single_of(statement) {
        Some(single) => is_same(single, which),
        None => false,
    }
}

// Whether one of the statements is this one.
fn has(all: &[Statement], which: Single) -> bool
    ensures { IsTrue result ↔ Contains (singles all.now) which }
{
    for statement in all {
        if is_single(statement, which) {
            return true;
        }
    }
    false
}

/// The first of the statements that must be there which isn't, if any.
pub fn missing(all: &[Statement]) -> Option<Single>
    ensures found { IfSome result (λ which. IsMissing all.now which) }
    ensures none { IfNone result ((one : Single) → Contains wanted one → Contains (singles all.now) one) }
{
    if !has(all, Single::LayoutSystem) {
        Some(Single::LayoutSystem)
    } else if !has(all, Single::LayoutPath) {
        Some(Single::LayoutPath)
    } else if !has(all, Single::LayoutPrimary) {
        Some(Single::LayoutPrimary)
    } else if !has(all, Single::ResultsDatabase) {
        Some(Single::ResultsDatabase)
    } else {
        None
    }
}

/// The first statement that stands once and comes a second time, and its offset, if any.
pub fn repeated(all: &[Statement]) -> Option<(Single, u64)>
    ensures found { IfSome result (λ it. IsRepeated all.now it.0 it.1) }
    ensures none { IfNone result (StandOnce all.now) }
{
    for (i, statement) in all.iter().enumerate() {
        if let Some(which) = single_of(statement) {
            if has(&all[..i], which) {
                return Some((which, place_of(statement)));
            }
        }
    }
    None
}
