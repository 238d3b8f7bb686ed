//! What is fixed for a run, as lists.

use layer_model::Wire;

/// The wires of the operations, their costs, the budget and the number of workers.
#[derive(Clone, Copy, Debug)]
pub struct SetupLists<'a> {
    pub wires: &'a [Wire],
    pub costs: &'a [u64],
    pub budget: u64,
    pub workers: u32,
}
