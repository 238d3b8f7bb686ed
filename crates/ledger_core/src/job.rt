//! What is to be computed.

ghost use Rattle.std.specs.Prelude.{◌≡◌, ℕ, ◌<◌, List, length, IfOk};
ghost use Rattle.std.specs.Option.{option_copied};
ghost use Rattle.layer_model.specs.declared.wiring.Wire.{Wire};
ghost use Rattle.layer_model.specs.Wirings.{input};
ghost use Rattle.ledger_core.specs.Jobs.{IsGiven};

use std::alloc::AllocError;

/// The job of a run. What is fixed for the run is named by the job's type: the wiring, the budget and the number of
/// workers, which layers are right for an operation, and what an operation costs.
pub trait Job: Send + Sync + Drop {
    /// What an operation computes.
    type Layer: Send + Sync + Drop;

    ghost wiring: { List Wire };

    ghost budget: { ℕ };

    ghost workers: { ℕ };

    ghost right: { ℕ → Self.Layer → Type 0 };

    ghost cost_of: { ℕ → ℕ };

    /// The layer of the operation, from the right layers of its inputs. It fails only for want of memory.
    fn make(
        &self,
        op: u32,
        first: Option<&Self::Layer>,
        second: Option<&Self::Layer>,
    ) -> Result<Self::Layer, AllocError>
        requires there { op < length wiring }
        requires first { IsGiven right (input wiring op 0) (option_copied first) }
        requires second { IsGiven right (input wiring op 1) (option_copied second) }
        ensures { IfOk result (λ l. right op l) };

    /// What the layer costs. It fails only for want of memory.
    fn cost(&self, op: u32, layer: &Self::Layer) -> Result<u64, AllocError>
        requires { right op layer.now }
        ensures { IfOk result (λ c. c ≡ cost_of op) };
}
