//! The layouts, by their names.

ghost use Rattle.std.specs.Prelude.{◌<◌, ◌≤◌, ◌^◌};

use crate::layer::Layer;
use crate::random::{fine, random, wires};
use crate::regular::{array, column, comb, mesh};
use std::alloc::{AllocError, Global};

/// The greatest number of a layout.
pub const MOST: u32 = 1 << 20;

/// The two layers of a layout.
#[derive(Drop)]
pub struct Layers {
    pub first: Layer,
    pub second: Layer,
}

impl Layers {
    /// Layers that have no rectangle.
    pub fn new(alloc: Global) -> Layers {
        Layers {
            first: Layer::new(alloc),
            second: Layer::new(alloc),
        }
    }
}

/// The layers of a shape and a number, or none where there is no such shape. Only want of memory is an error.
pub fn layers_of(alloc: Global, shape: &str, count: u32) -> Result<Option<Layers>, AllocError>
    requires some { 0 < count }
    requires most { count ≤ 2 ^ 20 }
{
    let layers = match shape {
        "random" => random(alloc, count)?,
        "fine" => fine(alloc, count)?,
        "wires" => wires(alloc, count)?,
        "mesh" => mesh(alloc, count)?,
        "comb" => comb(alloc, count)?,
        "column" => column(alloc, count)?,
        "array" => array(alloc, count)?,
        _ => return Ok(None),
    };
    Ok(Some(layers))
}
