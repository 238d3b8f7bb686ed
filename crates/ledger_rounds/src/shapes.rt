//! Wirings of a shape.

use layer_model::Wire;
use std::alloc::{AllocError, Global};

/// A chain: each operation reads the one before, and the last is reported.
pub fn chain(alloc: Global, count: u32) -> Result<Vec<Wire>, AllocError> {
    let mut wires = Vec::new(alloc);
    for op in 0..count {
        wires.push(Wire {
            first: if op > 0 { Some(op - 1) } else { None },
            second: None,
            reported: op == count - 1,
        })?;
    }
    Ok(wires)
}

/// A fan: all other operations read operation 0 twice, and each is reported.
pub fn fan(alloc: Global, count: u32) -> Result<Vec<Wire>, AllocError> {
    let mut wires = Vec::new(alloc);
    for op in 0..count {
        let read = if op > 0 { Some(0) } else { None };
        wires.push(Wire {
            first: read,
            second: read,
            reported: true,
        })?;
    }
    Ok(wires)
}

/// A comb: the even operations read nothing, and each odd one reads the one before and the odd one before that. The odd
/// ones are reported.
pub fn comb(alloc: Global, count: u32) -> Result<Vec<Wire>, AllocError> {
    let mut wires = Vec::new(alloc);
    for op in 0..count {
        let odd = op % 2 == 1;
        wires.push(Wire {
            first: if odd { op.checked_sub(1) } else { None },
            second: if odd { op.checked_sub(2) } else { None },
            reported: odd || op == count - 1,
        })?;
    }
    Ok(wires)
}
