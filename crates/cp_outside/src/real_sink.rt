//! The standard output.

ghost use Rattle.std.specs.Prelude.{◌≡◌, None};

use crate::sink::{PutEnd, Sink};
use std::io::ErrorKind;

/// The standard output. It tells no content. It is the trusted edge: that the real output behaves as [`Sink`]
/// says is not proved.
#[derive(Drop)]
pub struct RealSink<'a, R> {
    rt: &'a R,
    // The puts that failed; it stands still at its last value.
    faults: u64,
}

impl<'a, R: Print> RealSink<'a, R> {
    /// The standard output of this runtime. It takes no memory.
    pub fn new(rt: &'a R) -> RealSink<'a, R>
        ensures { ⟦<RealSink<'a, R> as Sink>⟧.faults result ≡ 0 }
    {
        RealSink { rt, faults: 0 }
    }
}

impl<'a, R: Print> Sink for RealSink<'a, R> {
    ghost told = { λ _. None };

    ghost faults = { λ sink. sink.faults };

    #[tactic(auto, using(crate::proofs::PutLaws::puts))]
    fn put(&mut self, bytes: &[u8]) -> PutEnd {
        if is_written(self.rt, bytes) {
            return PutEnd::Done;
        }
        self.faults = self.faults.saturating_add(1);
        PutEnd::Failed
    }
}

// Writes the bytes, and says whether all were taken. A write that takes nothing is a fault.
fn is_written<R: Print>(rt: &R, bytes: &[u8]) -> bool {
    let mut rest = bytes;
    for _ in 0..u64::MAX {
        if rest.is_empty() {
            return true;
        }
        match rt.write_some(rest) {
            Ok(0) => return false,
            Ok(count) => rest = &rest[count..],
            Err(error) if error.kind() == ErrorKind::Interrupted => {}
            Err(_) => return false,
        }
    }
    rest.is_empty()
}
