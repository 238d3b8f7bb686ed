//! The text of layers.

ghost use Rattle.std.specs.Prelude.{◌≡◌, ◌++◌, OnOk};
ghost use Rattle.deck_printer.specs.Values.{value_text};
ghost use Rattle.deck_printer.specs.Layers.{relation_text, edge_relation_text, not_text, infix_text, turn_text, side_text, expand_words, prefix_text, primary_text, term_text, operation_text, layer_text};

use crate::distance::push_distance;
use crate::limits::push_limits;
use crate::value::push_value;
use deck_tree::{
    EdgeRelation, ExpandSide, Infix, Layer, Operation, Prefix, Primary, Relation, Term, Turn, Value,
};
use std::alloc::AllocError;

fn push_relation(text: &mut Vec<u8>, relation: Relation) -> Result<(), AllocError>
    ensures { OnOk result (text.new.items ≡ text.old.items ++ relation_text relation) }
{
    match relation {
        Relation::Inside => text.extend_from_slice(b"INSIDE"),
        Relation::Outside => text.extend_from_slice(b"OUTSIDE"),
        Relation::Interact => text.extend_from_slice(b"INTERACT"),
        Relation::Touch => text.extend_from_slice(b"TOUCH"),
        Relation::Cut => text.extend_from_slice(b"CUT"),
        Relation::Enclose => text.extend_from_slice(b"ENCLOSE"),
    }
}

fn push_edge_relation(text: &mut Vec<u8>, relation: EdgeRelation) -> Result<(), AllocError>
    ensures { OnOk result (text.new.items ≡ text.old.items ++ edge_relation_text relation) }
{
    match relation {
        EdgeRelation::Inside => text.extend_from_slice(b"INSIDE EDGE"),
        EdgeRelation::Outside => text.extend_from_slice(b"OUTSIDE EDGE"),
        EdgeRelation::Coincident => text.extend_from_slice(b"COINCIDENT EDGE"),
    }
}

fn push_not(text: &mut Vec<u8>, negated: bool) -> Result<(), AllocError>
    ensures { OnOk result (text.new.items ≡ text.old.items ++ not_text negated) }
{
    if negated {
        text.extend_from_slice(b"NOT ")
    } else {
        Ok(())
    }
}

fn push_infix(text: &mut Vec<u8>, operator: Infix) -> Result<(), AllocError>
    ensures { OnOk result (text.new.items ≡ text.old.items ++ infix_text operator) }
{
    match operator {
        Infix::And => text.extend_from_slice(b"AND"),
        Infix::Or => text.extend_from_slice(b"OR"),
        Infix::Not => text.extend_from_slice(b"NOT"),
        Infix::Xor => text.extend_from_slice(b"XOR"),
        Infix::OrEdge => text.extend_from_slice(b"OR EDGE"),
        Infix::Relation { negated, relation } => {
            push_not(text, negated)?;
            push_relation(text, relation)
        }
        Infix::EdgeRelation { negated, relation } => {
            push_not(text, negated)?;
            push_edge_relation(text, relation)
        }
    }
}

fn push_turn(text: &mut Vec<u8>, turn: Option<Turn>) -> Result<(), AllocError>
    ensures { OnOk result (text.new.items ≡ text.old.items ++ turn_text turn) }
{
    match turn {
        None => Ok(()),
        Some(Turn::OverUnder) => text.extend_from_slice(b" OVERUNDER"),
        Some(Turn::UnderOver) => text.extend_from_slice(b" UNDEROVER"),
    }
}

fn push_side(text: &mut Vec<u8>, side: ExpandSide) -> Result<(), AllocError>
    ensures { OnOk result (text.new.items ≡ text.old.items ++ side_text side) }
{
    match side {
        ExpandSide::Inside => text.extend_from_slice(b" INSIDE BY "),
        ExpandSide::Outside => text.extend_from_slice(b" OUTSIDE BY "),
    }
}

#[tactic(auto, unfolding(crate::specs::Layers::expand_words))]
fn push_expand_words(text: &mut Vec<u8>) -> Result<(), AllocError>
    ensures { OnOk result (text.new.items ≡ text.old.items ++ expand_words) }
{
    text.extend_from_slice(b"EXPAND EDGE ")
}

// To which side and how far EXPAND EDGE goes.
fn push_reach(text: &mut Vec<u8>, side: ExpandSide, value: &Value) -> Result<(), AllocError>
    ensures { OnOk result (text.new.items ≡ text.old.items ++ (side_text side ++ value_text value.now)) }
{
    push_side(text, side)?;
    push_value(text, value)
}

#[cycle(layers)]
fn push_term(text: &mut Vec<u8>, term: &Term) -> Result<(), AllocError>
    ensures { OnOk result (text.new.items ≡ text.old.items ++ term_text term.now) }
{
    match term {
        Term::Name(name) => text.extend_from_slice(name.name.bytes()),
        Term::Bracketed(_, layer) => {
            text.extend_from_slice(b"(")?;
            push_layer(text, layer.get())?;
            text.extend_from_slice(b")")
        }
    }
}

#[cycle(layers)]
fn push_prefix(text: &mut Vec<u8>, prefix: &Prefix) -> Result<(), AllocError>
    ensures { OnOk result (text.new.items ≡ text.old.items ++ prefix_text prefix.now) }
{
    match prefix {
        Prefix::Copy(term) => {
            text.extend_from_slice(b"COPY ")?;
            push_term(text, term)
        }
        Prefix::Rectangle(term) => {
            text.extend_from_slice(b"RECTANGLE ")?;
            push_term(text, term)
        }
        Prefix::Area(term, limits) => {
            text.extend_from_slice(b"AREA ")?;
            push_term(text, term)?;
            push_limits(text, limits)
        }
        Prefix::Length(term, limits) => {
            text.extend_from_slice(b"LENGTH ")?;
            push_term(text, term)?;
            push_limits(text, limits)
        }
        Prefix::Size(term, value, turn) => {
            text.extend_from_slice(b"SIZE ")?;
            push_term(text, term)?;
            text.extend_from_slice(b" BY ")?;
            push_value(text, value)?;
            push_turn(text, *turn)
        }
        Prefix::Angle(term, value) => {
            text.extend_from_slice(b"ANGLE ")?;
            push_term(text, term)?;
            text.extend_from_slice(b" == ")?;
            push_value(text, value)
        }
        Prefix::Expand(term, side, value) => {
            push_expand_words(text)?;
            push_term(text, term)?;
            push_reach(text, *side, value)
        }
    }
}

#[cycle(layers)]
fn push_primary(text: &mut Vec<u8>, primary: &Primary) -> Result<(), AllocError>
    ensures { OnOk result (text.new.items ≡ text.old.items ++ primary_text primary.now) }
{
    match primary {
        Primary::Term(term) => push_term(text, term),
        Primary::Prefix(_, prefix) => push_prefix(text, prefix.get()),
        Primary::Distance(_, distance) => push_distance(text, distance.get()),
    }
}

#[cycle(layers)]
fn push_operation(text: &mut Vec<u8>, operation: &Operation) -> Result<(), AllocError>
    ensures { OnOk result (text.new.items ≡ text.old.items ++ operation_text operation.now) }
{
    text.extend_from_slice(b" ")?;
    push_infix(text, operation.operator)?;
    text.extend_from_slice(b" ")?;
    push_primary(text, &operation.right)
}

#[cycle(layers)]
pub fn push_layer(text: &mut Vec<u8>, layer: &Layer) -> Result<(), AllocError>
    ensures { OnOk result (text.new.items ≡ text.old.items ++ layer_text layer.now) }
{
    push_primary(text, &layer.first)?;
    for operation in layer.more.as_slice() {
        push_operation(text, operation)?;
    }
    Ok(())
}
