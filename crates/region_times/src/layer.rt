//! The rectangles of a layer, and the region that they cover.

ghost use Rattle.std.specs.Prelude.{◌≡◌, [], ◌∷◌, ◌++◌, ◌+◌, ◌<◌, ◌^◌, ℤ, pos, IfOk, OnOk};
ghost use Rattle.std.specs.List.{AllByRecursion};
ghost use Rattle.drc_geom.specs.Squares.{IsRect, covered};
ghost use Rattle.region_form.specs.Flips.{squares};
ghost use Rattle.region_size.specs.Sizes.{LieWithin};

use drc_geom::Rect;
use region_form::Region;
use region_merge::merge;
use std::alloc::{AllocError, Global};
use std::marker::Model;

/// A list of rectangles that lie up and to the right of the origin.
#[derive(Drop)]
pub struct Layer {
    rects: Vec<Rect>,
}

impl Model for Layer {
    ghost use Rattle.std.specs.Prelude.{List};
    ghost use Rattle.std.specs.List.{AllByRecursion};
    ghost use Rattle.drc_geom.specs.declared.rect.Rect.{Rect};
    ghost use Rattle.region_times.specs.Reach.{IsInReach};

    ghost Value = { List Rect };

    ghost view = { λ l. l.rects.items };

    ghost invariant = { λ l. AllByRecursion IsInReach l.rects.items };
}

impl Layer {
    /// A layer that has no rectangle.
    pub fn new(alloc: Global) -> Layer
        ensures { result ≡ [] }
    {
        Layer {
            rects: Vec::new(alloc),
        }
    }

    /// Adds a rectangle by its lower left corner, in database units. Only want of memory is an error.
    pub fn add(&mut self, x: u32, y: u32, width: u32, height: u32) -> Result<(), AllocError>
        requires wide { 0 < width }
        requires high { 0 < height }
        ensures { OnOk result (self.new
            ≡ self.old ++ record { x0 = pos x; y0 = pos y; x1 = pos (x + width); y1 = pos (y + height) } ∷ []) }
    {
        let rect = rect_at(x, y, width, height);
        self.rects.push(rect)?;
        Ok(())
    }

    /// The rectangles. Each has an area, and what they cover lies within the reach of SIZE.
    pub fn rects(&self) -> &[Rect]
        ensures rects { result.now ≡ self.now }
        ensures area { AllByRecursion IsRect result.now }
        ensures within { LieWithin (pos (2 ^ 40)) (covered result.now) }
    {
        self.rects.as_slice()
    }
}

fn rect_at(x: u32, y: u32, width: u32, height: u32) -> Rect
    ensures { result ≡ record { x0 = pos x; y0 = pos y; x1 = pos (x + width); y1 = pos (y + height) } }
{
    Rect {
        x0: x as i64,
        y0: y as i64,
        x1: x as i64 + width as i64,
        y1: y as i64 + height as i64,
    }
}

/// The squares that the rectangles of a layer cover. Only want of memory is an error.
pub fn merged(alloc: Global, layer: Layer) -> Result<Region, AllocError>
    ensures squares { IfOk result (λ region. (x y : ℤ) → squares region x y ≡ covered layer x y) }
    ensures within { IfOk result (λ region. LieWithin (pos (2 ^ 40)) (squares region)) }
{
    let region = merge(alloc, layer.rects())?;
    Ok(region)
}
