//! The tree in its vector: node k has the lesser of its children 2 k and 2 k + 1, and the leaf of number n stands at
//! bound + n.

ghost use Rattle.std.specs.Prelude.{◌≡◌, ◌⊎◌, ◌<◌, ◌≤◌, ◌^◌, nat_lt, false, replicate, IfOk, slice_set};
ghost use Rattle.number_set.specs.Trees.{IsTree, flags_of};

use std::alloc::{AllocError, Global};

/// The tree of the empty set.
#[tactic(auto, using(crate::proofs::Trees::flags_none))]
pub(crate) fn tree_of_none(alloc: Global, bound: u32) -> Result<Vec<u32>, AllocError>
    ensures tree { IfOk result (λ nodes. IsTree bound nodes.items) }
    ensures flags { IfOk result (λ nodes. flags_of bound nodes.items ≡ replicate bound false) }
{
    Ok(vec![in alloc; bound; 2 * bound as usize]?)
}

/// Writes a number's leaf, and the nodes above it.
pub(crate) fn set_leaf(bound: u32, nodes: &mut [u32], number: u32, value: u32)
    requires tree { IsTree bound nodes.old }
    requires number { number < bound }
    requires value { (value ≡ number) ⊎ (value ≡ bound) }
    ensures tree { IsTree bound nodes.new }
    ensures flags { flags_of bound nodes.new ≡ slice_set (flags_of bound nodes.old) number (nat_lt value bound) }
{
    let mut node = bound as usize + number as usize;
    nodes[node] = value;
    while node > 1 {
        node /= 2;
        nodes[node] = nodes[2 * node].min(nodes[2 * node + 1]);
    }
}
