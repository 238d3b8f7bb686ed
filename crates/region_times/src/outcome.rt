//! What comes of an operation.

ghost use Rattle.std.specs.Prelude.{◌≡◌};
ghost use Rattle.region_times.specs.Made.{count_of};

use drc_geom::Rect;
use edge_form::EdgeSet;
use region_form::Region;

/// What comes of an operation.
#[derive(Drop)]
pub enum Outcome {
    Squares(Region),
    Rects(Vec<Rect>),
    Units(EdgeSet),
}

impl Outcome {
    /// What is counted.
    pub fn unit(&self) -> &'static str {
        match self {
            Outcome::Squares(_) => "flips",
            Outcome::Rects(_) => "rectangles",
            Outcome::Units(_) => "runs",
        }
    }

    /// How many there are.
    pub fn count(&self) -> usize
        ensures { result ≡ count_of self.now }
    {
        match self {
            Outcome::Squares(region) => region.flips().len(),
            Outcome::Rects(rects) => rects.len(),
            Outcome::Units(edges) => edges.runs().len(),
        }
    }
}
