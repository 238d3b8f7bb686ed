//! Layouts whose rectangles lie anywhere.

ghost use Rattle.std.specs.Prelude.{◌<◌, ◌≤◌};

use crate::draw::Draw;
use crate::layout::Layers;
use std::alloc::{AllocError, Global};

/// So many rectangles over a square of four times their area, each on either layer, with sides of 20 to 220 units.
pub fn random(alloc: Global, count: u32) -> Result<Layers, AllocError> {
    at_random(alloc, count, 240 * root_of(count), 20)
}

/// The same with coordinates ten times finer.
pub fn fine(alloc: Global, count: u32) -> Result<Layers, AllocError> {
    at_random(alloc, count, 2400 * root_of(count), 200)
}

// Rectangles whose lower left corners lie in a square with sides of `reach`, and whose own sides are `least` to 11
// times that.
fn at_random(alloc: Global, count: u32, reach: u32, least: u32) -> Result<Layers, AllocError>
    requires reach { 0 < reach }
    requires least { 0 < least }
    requires most { least ≤ 200 }
{
    let mut layers = Layers::new(alloc);
    let mut draw = Draw::new();
    for _ in 0..count {
        let (x, y) = (draw.below(reach), draw.below(reach));
        let width = least + draw.below(10 * least + 1);
        let height = least + draw.below(10 * least + 1);
        if draw.below(2) == 0 {
            layers.first.add(x, y, width, height)?;
        } else {
            layers.second.add(x, y, width, height)?;
        }
    }
    Ok(layers)
}

// The least number from 1 to 1024 whose square isn't less, or 1024.
fn root_of(count: u32) -> u32
    ensures least { 0 < result }
    ensures greatest { result ≤ 1024 }
{
    for root in 1..1024u32 {
        if root.saturating_mul(root) >= count {
            return root;
        }
    }
    1024
}

const WIRES: u32 = 10_000;

/// On the first layer 10,000 upright wires with a pitch of 200 units and a width of 100, and on the second so many
/// squares of 60 units, each on a wire.
pub fn wires(alloc: Global, count: u32) -> Result<Layers, AllocError> {
    let mut layers = Layers::new(alloc);
    let mut draw = Draw::new();
    for wire in 0..WIRES {
        let y = draw.below(1000);
        let height = 200 * WIRES + draw.below(1000);
        layers.first.add(200 * wire, y, 100, height)?;
    }
    for _ in 0..count {
        let (x, y) = (200 * draw.below(WIRES), 200 * draw.below(WIRES));
        layers.second.add(x + 20, y + 20, 60, 60)?;
    }
    Ok(layers)
}
