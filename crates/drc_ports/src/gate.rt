/// Passed once for each operation that a worker has claimed, before its layer is computed.
pub trait Gate {
    fn pass(&self, op: u32);
}

/// A gate that lets everybody pass at once.
#[derive(Clone, Copy, Debug)]
pub struct OpenGate;

impl Gate for OpenGate {
    fn pass(&self, _op: u32) {}
}
