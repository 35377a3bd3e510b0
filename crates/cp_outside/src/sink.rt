//! A sink that takes bytes piece by piece.

ghost use Rattle.std.specs.Prelude.{◌≡◌, ℕ, ◌≤◌, List, Option};
ghost use Rattle.cp_outside.specs.Faults.{RoseOrFull};
ghost use Rattle.cp_outside.specs.Puts.{OnDone, OnPutFailed, OnPutOutOfMemory, UnlessPutFailed, appended, AppendsFront};

/// How a put ended.
#[derive(Clone, Copy, Debug, PartialEq, Eq)]
pub enum PutEnd {
    /// All bytes were taken.
    Done,
    /// A front of the bytes was taken, maybe none of them.
    Failed,
    /// Memory was wanting, and no byte was taken.
    OutOfMemory,
}

/// What takes bytes piece by piece.
///
/// `told` is the bytes written so far, where the type tells them, and `faults` counts the puts that failed.
/// No code that is generic over this trait can raise the count by itself.
pub trait Sink {
    ghost told: { Self → Option (List ℕ) };

    ghost faults: { Self → ℕ };

    /// Writes the bytes behind those written so far. `Failed` comes only where the count of faults rose, or
    /// stands at its last value.
    fn put(&mut self, bytes: &[u8]) -> PutEnd
        ensures done { OnDone result (told self.new ≡ appended (told self.old) bytes.now) }
        ensures front { OnPutFailed result (AppendsFront (told self.old) (told self.new) bytes.now) }
        ensures nothing { OnPutOutOfMemory result (told self.new ≡ told self.old) }
        // The cause of a failure is outside.
        ensures failed { OnPutFailed result (RoseOrFull (faults self.old) (faults self.new)) }
        ensures quiet { UnlessPutFailed result (faults self.new ≡ faults self.old) }
        ensures never_falls { faults self.old ≤ faults self.new };
}
