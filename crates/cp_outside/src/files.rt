//! Files that are read whole, by name.

ghost use Rattle.std.specs.Prelude.{◌≡◌, ◌≢◌, ℕ, ◌<◌, ◌≤◌, List, [], Option, length, IfSome};
ghost use Rattle.cp_outside.specs.Faults.{Rose};
ghost use Rattle.cp_outside.specs.Reads.{OnWhole, OnTooLong, OnReadFailed, UnlessReadFailed, UnlessWhole};

/// How a read of a file ended.
#[derive(Clone, Copy, Debug, PartialEq, Eq)]
pub enum ReadEnd {
    /// The file was read to its end.
    Whole,
    /// The file has more bytes than were allowed.
    TooLong,
    /// The file could not be read.
    Failed,
    /// Memory was wanting.
    OutOfMemory,
}

/// Files that are read by name. A name is the bytes of a text.
///
/// `told` says which bytes a file has, where the type tells it, and `faults` counts for each name the reads
/// that failed. No code that is generic over this trait can raise a count by itself.
pub trait Files {
    ghost told: { Self → List ℕ → Option (List ℕ) };

    ghost faults: { Self → List ℕ → ℕ };

    /// Reads the file into `into`, in place of what it held, if the file has at most `limit` bytes. In every
    /// case but `Whole` `into` is empty afterwards. `Failed` comes only where the count of `name` rose.
    fn read_file(&mut self, name: &str, into: &mut Vec<u8>, limit: usize) -> ReadEnd
        // The file's bytes.
        ensures whole { OnWhole result (IfSome (told self.old name.now) (λ bytes. into.new.items ≡ bytes)) }
        ensures within_limit { OnWhole result (length into.new.items ≤ limit) }
        ensures too_long { OnTooLong result (IfSome (told self.old name.now) (λ bytes. limit < length bytes)) }
        // The cause of a failure is outside.
        ensures failed { OnReadFailed result (Rose (faults self.old name.now) (faults self.new name.now)) }
        ensures empty { UnlessWhole result (into.new.items ≡ []) }
        ensures quiet { UnlessReadFailed result (faults self.new name.now ≡ faults self.old name.now) }
        ensures never_falls { faults self.old name.now ≤ faults self.new name.now }
        ensures told_stays { (other : List ℕ) → told self.new other ≡ told self.old other }
        ensures others_stay { (other : List ℕ) → other ≢ name.now → faults self.new other ≡ faults self.old other };
}
