//! Layouts whose rectangles repeat.

ghost use Rattle.std.specs.Prelude.{◌<◌, ◌≤◌, ◌*◌, ◌^◌};

use crate::draw::Draw;
use crate::layer::Layer;
use crate::layout::Layers;
use std::alloc::{AllocError, Global};

/// On each layer a mesh of so many wires across so many, with a pitch of 200 units and a width of 100; that of the
/// second is moved by 50 units along x and y.
pub fn mesh(alloc: Global, count: u32) -> Result<Layers, AllocError>
    requires { count ≤ 2 ^ 20 }
{
    let mut layers = Layers::new(alloc);
    add_mesh(&mut layers.first, count, 0)?;
    add_mesh(&mut layers.second, count, 50)?;
    Ok(layers)
}

fn add_mesh(layer: &mut Layer, count: u32, from: u32) -> Result<(), AllocError>
    requires count { count ≤ 2 ^ 20 }
    requires from { from ≤ 50 }
{
    for wire in 0..count {
        let length = 200 * count - 100;
        layer.add(from, from + 200 * wire, length, 100)?;
        layer.add(from + 200 * wire, from, 100, length)?;
    }
    Ok(())
}

/// On the first layer a back with so many teeth, each of a height of its own; on the second ten bars across.
pub fn comb(alloc: Global, count: u32) -> Result<Layers, AllocError>
    requires some { 0 < count }
    requires most { count ≤ 2 ^ 20 }
{
    let mut layers = Layers::new(alloc);
    let mut draw = Draw::new();
    for tooth in 0..count {
        let width = 90 + draw.below(30);
        let height = 1000 + draw.below(9000);
        layers.first.add(1000 + 200 * tooth, 1000, width, height)?;
    }
    layers.first.add(1000, 0, 200 * count, 1000)?;
    for bar in 0..10u32 {
        layers
            .second
            .add(500, 1000 * bar + 1300, 200 * count + 1000, 200)?;
    }
    Ok(layers)
}

/// On the first layer so many unit squares above one another with a gap of one unit, from the top down; on the second
/// those that fill the gaps.
pub fn column(alloc: Global, count: u32) -> Result<Layers, AllocError>
    requires { count ≤ 2 ^ 20 }
{
    let mut layers = Layers::new(alloc);
    for below in (0..count).rev() {
        layers.first.add(0, 2 * below, 1, 1)?;
        layers.second.add(0, 2 * below + 1, 1, 1)?;
    }
    Ok(layers)
}

/// So many rows of so many cells of 2000 by 4000 units: on the first layer two squares of 180 units, and on the second
/// one of 80 units.
pub fn array(alloc: Global, count: u32) -> Result<Layers, AllocError>
    requires { count ≤ 2 ^ 20 }
{
    let mut layers = Layers::new(alloc);
    for row in 0..count {
        add_row(&mut layers, count, 4000 * row)?;
    }
    Ok(layers)
}

fn add_row(layers: &mut Layers, count: u32, y: u32) -> Result<(), AllocError>
    requires count { count ≤ 2 ^ 20 }
    requires y { y < 4000 * 2 ^ 20 }
{
    for cell in 0..count {
        let x = 2000 * cell;
        layers.first.add(x + 430, y + 910, 180, 180)?;
        layers.first.add(x + 790, y + 910, 180, 180)?;
        layers.second.add(x + 480, y + 960, 80, 80)?;
    }
    Ok(())
}
