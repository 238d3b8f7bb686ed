ghost use Rattle.std.specs.Prelude.{◌≡◌};
ghost use Rattle.operation_types.specs.TypeTable.{takes};

use crate::LayerType;

/// What an input of an operation may be. A polygon layer that stands where edges are wanted means its boundary.
#[derive(Clone, Copy, Debug, PartialEq, Eq)]
pub enum InputType {
    /// There is no such input.
    Nothing,
    Polygons,
    /// Polygons or edges.
    Shapes,
    /// Polygons, edges or no input.
    MaybeShapes,
}

impl InputType {
    /// Whether a layer of the type may stand here, or none.
    pub fn takes(self, input: Option<LayerType>) -> bool
        ensures { result ≡ takes self input }
    {
        match input {
            None => self.takes_none(),
            Some(layer) => self.takes_layer(layer),
        }
    }

    fn takes_none(self) -> bool
        ensures { result ≡ takes self None }
    {
        match self {
            InputType::Nothing | InputType::MaybeShapes => true,
            InputType::Polygons | InputType::Shapes => false,
        }
    }

    fn takes_layer(self, layer: LayerType) -> bool
        ensures { result ≡ takes self (Some layer) }
    {
        match self {
            InputType::Nothing => false,
            InputType::Polygons => is_polygon(layer),
            InputType::Shapes | InputType::MaybeShapes => is_shape(layer),
        }
    }
}

fn is_polygon(layer: LayerType) -> bool
    ensures { result ≡ takes InputType.Polygons (Some layer) }
{
    match layer {
        LayerType::Polygon => true,
        LayerType::Edge | LayerType::Errors => false,
    }
}

fn is_shape(layer: LayerType) -> bool
    ensures { result ≡ takes InputType.Shapes (Some layer) }
{
    match layer {
        LayerType::Polygon | LayerType::Edge => true,
        LayerType::Errors => false,
    }
}
