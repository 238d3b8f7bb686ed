//! The table of all operations.

ghost use Rattle.std.specs.Prelude.{◌≡◌, IfSome, IfNone};
ghost use Rattle.operation_types.specs.TypeTable.{HasType, given_by, signature_of, signature, first_of_check, second_of_check, given_by_check};
ghost use Rattle.operation_types.specs.declared.layer_type.LayerType.{LayerType};

use crate::{InputType, LayerType, Signature};
use layer_model::{Gives, Op, Polygons, Rule, RuleKind};

/// The type of the layer that the operation gives, where it takes inputs of these types.
pub fn type_given(
    operation: &Op,
    first: Option<LayerType>,
    second: Option<LayerType>,
) -> Option<LayerType>
    ensures given { IfSome result (HasType operation.now first second) }
    ensures none { IfNone result ((t : LayerType) → HasType operation.now first second t → ⊥) }
{
    match signature_of(operation) {
        Some(signature) => given_by(signature, first, second),
        None => None,
    }
}

/// What the operation takes and gives; none for WRITE, which gives no layer.
pub fn signature_of(operation: &Op) -> Option<Signature>
    ensures { result ≡ signature_of operation.now }
{
    match operation {
        Op::Drawn(_) => signature(InputType::Nothing, InputType::Nothing, LayerType::Polygon),
        Op::And
        | Op::Or
        | Op::Not
        | Op::Xor
        | Op::Inside { .. }
        | Op::Outside { .. }
        | Op::Cut { .. }
        | Op::Touch { .. }
        | Op::Interact { .. }
        | Op::Enclose { .. } => signature(
            InputType::Polygons,
            InputType::Polygons,
            LayerType::Polygon,
        ),
        Op::Size { .. }
        | Op::OverUnder { .. }
        | Op::UnderOver { .. }
        | Op::Area(_)
        | Op::Rectangle => signature(InputType::Polygons, InputType::Nothing, LayerType::Polygon),
        Op::ExpandInside { .. } | Op::ExpandOutside { .. } => {
            signature(InputType::Shapes, InputType::Nothing, LayerType::Polygon)
        }
        Op::Length(_) | Op::Angle { .. } => signature(
            InputType::Shapes,
            InputType::Nothing,
            LayerType::Edge,
        ),
        Op::InsideEdge { .. } | Op::OutsideEdge { .. } | Op::CoincidentEdge { .. } => {
            signature(InputType::Shapes, InputType::Polygons, LayerType::Edge)
        }
        Op::OrEdge => signature(InputType::Shapes, InputType::Shapes, LayerType::Edge),
        Op::Check { rule, gives } => signature(
            first_of_check(rule.polygons),
            second_of_check(rule),
            given_by_check(*gives),
        ),
        Op::Write => None,
    }
}

fn signature(first: InputType, second: InputType, gives: LayerType) -> Option<Signature>
    ensures { result ≡ signature first second gives }
{
    Some(Signature {
        first,
        second,
        gives,
    })
}

fn first_of_check(polygons: Polygons) -> InputType
    ensures { result ≡ first_of_check polygons }
{
    match polygons {
        Polygons::Any => InputType::Shapes,
        Polygons::Same | Polygons::Different => InputType::Polygons,
    }
}

fn second_of_check(rule: &Rule) -> InputType
    ensures { result ≡ second_of_check rule.now.kind rule.now.polygons }
{
    match (rule.kind, rule.polygons) {
        (RuleKind::Enclosure, _) => InputType::Polygons,
        (RuleKind::Internal | RuleKind::External, Polygons::Any) => InputType::MaybeShapes,
        (RuleKind::Internal | RuleKind::External, Polygons::Same | Polygons::Different) =>
            InputType::Nothing,
    }
}

fn given_by_check(gives: Gives) -> LayerType
    ensures { result ≡ given_by_check gives }
{
    match gives {
        Gives::Errors => LayerType::Errors,
        Gives::Region => LayerType::Polygon,
        Gives::First | Gives::Second | Gives::Both => LayerType::Edge,
    }
}

/// What the signature gives, where it takes the inputs.
fn given_by(
    signature: Signature,
    first: Option<LayerType>,
    second: Option<LayerType>,
) -> Option<LayerType>
    ensures { result ≡ given_by signature first second }
{
    if signature.first.takes(first) && signature.second.takes(second) {
        Some(signature.gives)
    } else {
        None
    }
}
