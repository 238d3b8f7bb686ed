//! Operations between two layers.

ghost use Rattle.std.specs.Prelude.{◌≡◌, IfOk};
ghost use Rattle.deck_grammar.specs.Rules as r;
ghost use Rattle.deck_grammar.specs.Alternatives.{relation_word};
ghost use Rattle.deck_grammar.specs.declared.kind.Kind.TheVariants as kinds;
ghost use Rattle.deck_grammar.specs.declared.keyword.Keyword.TheVariants as k;
ghost use Rattle.deck_cursor.specs.Steps.{Reads};
ghost use Rattle.deck_builder.specs.Relations.{placed, MayTake, ReadsRelated, infix_of, begins_relation, begins_operation};

use crate::tokens::word;
use deck_cursor::{Cursor, Stop};
use deck_grammar::{Keyword, Kind};
use deck_tree::{EdgeRelation, Infix, Relation};

/// A relation, of polygons or of edges.
#[derive(Clone, Copy)]
pub enum Related {
    Polygons(Relation),
    Edges(EdgeRelation),
}

// EDGE, if it comes.
fn edge(cursor: &mut Cursor<'_>) -> Result<bool, Stop>
    ensures { IfOk result (λ it. MayTake (kinds.Keyword k.Edge) cursor.old cursor.new it) }
{
    match cursor.peek() {
        Some(Kind::Keyword(Keyword::Edge)) => {
            word(cursor, Keyword::Edge)?;
            Ok(true)
        }
        _ => Ok(false),
    }
}

#[tactic(auto, using(crate::proofs::InfixRules::inside_with_edge, crate::proofs::InfixRules::inside_alone))]
fn inside(cursor: &mut Cursor<'_>) -> Result<(u64, Related), Stop>
    ensures { IfOk result (λ it. ReadsRelated cursor.old cursor.new it.0 it.1) }
{
    let at = word(cursor, Keyword::Inside)?;
    if edge(cursor)? {
        Ok((at, Related::Edges(EdgeRelation::Inside)))
    } else {
        Ok((at, Related::Polygons(Relation::Inside)))
    }
}

#[tactic(auto, using(crate::proofs::InfixRules::outside_with_edge, crate::proofs::InfixRules::outside_alone))]
fn outside(cursor: &mut Cursor<'_>) -> Result<(u64, Related), Stop>
    ensures { IfOk result (λ it. ReadsRelated cursor.old cursor.new it.0 it.1) }
{
    let at = word(cursor, Keyword::Outside)?;
    if edge(cursor)? {
        Ok((at, Related::Edges(EdgeRelation::Outside)))
    } else {
        Ok((at, Related::Polygons(Relation::Outside)))
    }
}

#[tactic(auto, using(crate::proofs::InfixRules::with_edge))]
fn coincident(cursor: &mut Cursor<'_>) -> Result<(u64, Related), Stop>
    ensures { IfOk result (λ it. ReadsRelated cursor.old cursor.new it.0 it.1) }
{
    let at = word(cursor, Keyword::Coincident)?;
    word(cursor, Keyword::Edge)?;
    Ok((at, Related::Edges(EdgeRelation::Coincident)))
}

fn relation_word(relation: Relation) -> Keyword
    ensures { result ≡ relation_word relation }
{
    match relation {
        Relation::Inside => Keyword::Inside,
        Relation::Outside => Keyword::Outside,
        Relation::Interact => Keyword::Interact,
        Relation::Touch => Keyword::Touch,
        Relation::Cut => Keyword::Cut,
        Relation::Enclose => Keyword::Enclose,
    }
}

fn polygons(cursor: &mut Cursor<'_>, relation: Relation) -> Result<(u64, Related), Stop>
    ensures { IfOk result (λ it. ReadsRelated cursor.old cursor.new it.0 it.1) }
{
    let at = word(cursor, relation_word(relation))?;
    Ok((at, Related::Polygons(relation)))
}

// A relation, and the offset of its first word.
fn relation(cursor: &mut Cursor<'_>) -> Result<(u64, Related), Stop>
    ensures { IfOk result (λ it. ReadsRelated cursor.old cursor.new it.0 it.1) }
{
    match cursor.peek() {
        Some(Kind::Keyword(Keyword::Inside)) => inside(cursor),
        Some(Kind::Keyword(Keyword::Outside)) => outside(cursor),
        Some(Kind::Keyword(Keyword::Interact)) => polygons(cursor, Relation::Interact),
        Some(Kind::Keyword(Keyword::Touch)) => polygons(cursor, Relation::Touch),
        Some(Kind::Keyword(Keyword::Cut)) => polygons(cursor, Relation::Cut),
        Some(Kind::Keyword(Keyword::Enclose)) => polygons(cursor, Relation::Enclose),
        _ => coincident(cursor),
    }
}

fn begins_relation(kind: Option<Kind>) -> bool
    ensures { result ≡ begins_relation kind }
{
    matches!(
        kind,
        Some(Kind::Keyword(
            Keyword::Inside
                | Keyword::Outside
                | Keyword::Interact
                | Keyword::Touch
                | Keyword::Cut
                | Keyword::Enclose
                | Keyword::Coincident
        ))
    )
}

fn infix_of(negated: bool, related: Related) -> Infix
    ensures { result ≡ infix_of negated related }
{
    match related {
        Related::Polygons(relation) => Infix::Relation { negated, relation },
        Related::Edges(relation) => Infix::EdgeRelation { negated, relation },
    }
}

#[tactic(auto, using(crate::proofs::InfixRules::or_with_edge, crate::proofs::InfixRules::or_alone))]
fn or(cursor: &mut Cursor<'_>) -> Result<(u64, Infix), Stop>
    ensures { IfOk result (λ it. Reads r.infix_operation cursor.old cursor.new (placed it.0 it.1)) }
{
    let at = word(cursor, Keyword::Or)?;
    if edge(cursor)? {
        Ok((at, Infix::OrEdge))
    } else {
        Ok((at, Infix::Or))
    }
}

#[tactic(auto, using(crate::proofs::LayerRules::not))]
fn not(cursor: &mut Cursor<'_>) -> Result<(u64, Infix), Stop>
    ensures { IfOk result (λ it. Reads r.infix_operation cursor.old cursor.new (placed it.0 it.1)) }
{
    let at = word(cursor, Keyword::Not)?;
    if begins_relation(cursor.peek()) {
        let (_, related) = relation(cursor)?;
        Ok((at, infix_of(true, related)))
    } else {
        Ok((at, Infix::Not))
    }
}

/// Whether an operation between two layers begins with a token of this kind.
pub fn begins_operation(kind: Option<Kind>) -> bool
    ensures { result ≡ begins_operation kind }
{
    match kind {
        Some(Kind::Keyword(Keyword::And | Keyword::Or | Keyword::Not | Keyword::Xor)) => true,
        other => begins_relation(other),
    }
}

/// An operation between two layers, and the offset of its first word.
#[tactic(auto, using(crate::proofs::LayerRules::and, crate::proofs::LayerRules::xor))]
pub fn infix(cursor: &mut Cursor<'_>) -> Result<(u64, Infix), Stop>
    ensures { IfOk result (λ it. Reads r.infix_operation cursor.old cursor.new (placed it.0 it.1)) }
{
    match cursor.peek() {
        Some(Kind::Keyword(Keyword::And)) => Ok((word(cursor, Keyword::And)?, Infix::And)),
        Some(Kind::Keyword(Keyword::Xor)) => Ok((word(cursor, Keyword::Xor)?, Infix::Xor)),
        Some(Kind::Keyword(Keyword::Or)) => or(cursor),
        Some(Kind::Keyword(Keyword::Not)) => not(cursor),
        _ => {
            let (at, related) = relation(cursor)?;
            Ok((at, infix_of(false, related)))
        }
    }
}
