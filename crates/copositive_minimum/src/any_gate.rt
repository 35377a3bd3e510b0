//! Whichever gate one is given.

use cone_pool::Gate;

/// A gate that is known as a gate alone, whatever its type: a reference to one that threads may share.
#[derive(Drop)]
pub struct AnyGate<F> {
    gate: F,
}

impl<'b> AnyGate<&'b (dyn Gate + Sync)> {
    /// This gate.
    pub fn of(gate: &'b (dyn Gate + Sync)) -> AnyGate<&'b (dyn Gate + Sync)> {
        AnyGate { gate }
    }
}

impl<'b> Gate for AnyGate<&'b (dyn Gate + Sync)> {
    fn pass(&self, worker: usize, turn: u64) {
        self.gate.pass(worker, turn)
    }
}
