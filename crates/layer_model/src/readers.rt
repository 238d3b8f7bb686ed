//! How many places read each operation.

ghost use Rattle.std.specs.Prelude.{◌≡◌, ℕ, ◌+◌, ◌<◌, ◌^◌, IfOk, length, slice_index};
ghost use Rattle.layer_model.specs.Wirings.{CountsReaders, one_if_at};

use crate::wiring::Wire;
use std::alloc::{AllocError, Global};

/// For each operation, how many places read it. It fails only for want of memory.
pub fn reader_counts(alloc: Global, wires: &[Wire]) -> Result<Vec<u64>, AllocError>
    ensures { IfOk result (λ counts. CountsReaders wires.now counts.items) }
{
    let mut counts = vec![in alloc; 0u64; wires.len()]?;
    for wire in wires {
        count_reader(&mut counts, wire.first);
        count_reader(&mut counts, wire.second);
    }
    Ok(counts)
}

fn count_reader(counts: &mut [u64], input: Option<u32>)
    requires { (j : ℕ) → slice_index counts.old j < 2 ^ 63 }
    ensures { (j : ℕ) → j < length counts.old → slice_index counts.new j ≡ one_if_at input j + slice_index counts.old j }
{
    if let Some(op) = input {
        let op = op as usize;
        if op < counts.len() {
            counts[op] += 1;
        }
    }
}
