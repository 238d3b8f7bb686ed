//! Rows of the table.
use crate::{InputType, LayerType, signature_of, type_given};
use layer_model::{Gives, Metric, Op, Polygons, Rule, RuleKind};

fn check(kind: RuleKind, polygons: Polygons, gives: Gives) -> Op {
    let rule = Rule {
        kind,
        metric: Metric::Euclidean,
        bound: 100,
        inclusive: false,
        abut: false,
        singular: false,
        polygons,
    };
    Op::Check { rule, gives }
}

#[test]
fn types_of_layers(rt: HostRuntime) {
    let polygon = Some(LayerType::Polygon);
    let edge = Some(LayerType::Edge);
    let errors = Some(LayerType::Errors);
    let space = check(RuleKind::External, Polygons::Different, Gives::Errors);
    let around = check(RuleKind::Enclosure, Polygons::Any, Gives::First);
    let width = check(RuleKind::Internal, Polygons::Any, Gives::Region);
    for (op, first, second, want) in [
        (&Op::And, polygon, polygon, polygon),
        (&Op::And, polygon, edge, None),
        (&Op::OrEdge, polygon, edge, edge),
        (&Op::InsideEdge { negated: true }, edge, edge, None),
        (&Op::Size { by: -5 }, edge, None, None),
        (&Op::ExpandInside { by: 2 }, edge, None, polygon),
        (&space, polygon, None, errors),
        (&space, edge, None, None),
        (&around, edge, polygon, edge),
        (&around, polygon, edge, None),
        (&width, edge, None, polygon),
        (&Op::Angle { upright: true }, errors, None, None),
        (&Op::Write, polygon, None, None),
    ] {
        assert_eq!(rt; type_given(op, first, second), want);
    }
    assert_eq!(rt;
        signature_of(&Op::Rectangle).map(|signature| signature.second),
        Some(InputType::Nothing)
    );
}
