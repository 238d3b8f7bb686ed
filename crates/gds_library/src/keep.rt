//! Which elements are kept.

ghost use Rattle.std.specs.Prelude.{◌≡◌, List};
ghost use Rattle.gds_library.specs.declared.element.Point.{Point};
ghost use Rattle.layer_model.specs.DrawnNumbers.{takes};
ghost use Rattle.gds_library.specs.Kept.{is_kept};
ghost use Rattle.gds_library.specs.Meanings.{with_points};

use crate::element::{Element, Outline};
use layer_model::Reads;

/// Which elements of a layout are kept. All are checked.
#[derive(Debug, Drop)]
pub enum Keep {
    All,
    /// References, and what is drawn on layers that are read.
    Only(Reads),
}

impl Keep {
    /// Is an element kept?
    pub(crate) fn keeps(&self, element: &Element) -> bool
        ensures { (points : List Point) → result ≡ is_kept self.now (with_points element.now points) }
    {
        let Keep::Only(reads) = self else {
            return true;
        };
        match element {
            Element::Boundary(outline) | Element::Box(outline) => is_read(reads, outline),
            Element::Path(path) => is_read(reads, &path.outline),
            Element::Instance(_) => true,
        }
    }
}

fn is_read(reads: &Reads, outline: &Outline) -> bool
    ensures { result ≡ takes reads.now outline.now.layer outline.now.data_type }
{
    reads.takes(outline.layer, outline.data_type)
}
