//! How a command ends: its status, its cause, and what a walk did.

ghost use Rattle.std.specs.Prelude.{◌≡◌};
ghost use Rattle.cpfactor_top.specs.Causes.{status_number, proof_status, status_of, ending, ending_with, cut_off, ended_after};

use certificate_checker::Checked;
use cone_tree_certificate::VerdictFault;
use cp_outside::PutEnd;
use matrix_text::TextFault;
use perfect_walk::{Journal, Owed};
use unimodular_cone::Path;

/// The kind of an ending, which the program's exit status shows.
#[derive(Clone, Copy, Debug, PartialEq, Eq)]
pub enum Status {
    /// A verdict was written.
    Done,
    /// A verdict that separates was written, or a value that is too low.
    Separated,
    /// The checker refuses the verdict.
    ProofRefused,
    /// The command line is faulty.
    Usage,
    /// The matrix text or the proof text is refused.
    Text,
    /// The search came to its depth.
    Depth,
    /// The walk came to its limit of steps.
    Pivots,
    /// An operation's result doesn't fit.
    Overflow,
    /// A file could not be read.
    Read,
    /// The sink failed.
    Write,
    /// Memory was wanting.
    Memory,
}

impl Status {
    /// The exit status.
    pub fn number(self) -> u8
        ensures { result ≡ status_number self }
    {
        match self {
            Status::Done => 0,
            Status::Separated => 10,
            Status::ProofRefused => 11,
            Status::Usage => 2,
            Status::Text => 3,
            Status::Depth => 4,
            Status::Pivots => 5,
            Status::Overflow => 6,
            Status::Read => 7,
            Status::Write => 8,
            Status::Memory => 9,
        }
    }
}

/// Why a command ended as it did.
#[derive(Drop)]
pub enum Cause {
    /// The verdict was written, or the value that is too low.
    Fine,
    /// The word at this position, counted from 1, can't be read.
    Usage { position: u32 },
    /// The matrix file, or the proof file, is longer than its limit.
    TooLong,
    /// The matrix text has this first fault.
    MatrixFault(TextFault),
    /// The proof text has this first fault.
    ProofFault(VerdictFault),
    /// The first of the verdict's tests that fails, or the first operation of theirs that doesn't fit: neither `Accepted` nor
    /// `OutOfMemory`.
    Proof(Checked),
    /// The search leaves the cone of this path open: its first open path, which has as many digits as the depth allows.
    Depth { path: Path },
    /// The walk made as many steps as its limit, which this is, and another one is due.
    Pivots { used: u32 },
    /// This doesn't fit.
    Overflow(Owed),
    /// Reading a file that the words name failed.
    ReadFault,
    /// The sink failed.
    WriteFault,
    /// Memory was wanting.
    Memory,
}

/// The status where the checker refuses a verdict so.
fn proof_status(checked: &Checked) -> Status
    ensures { result ≡ proof_status checked.now }
{
    match checked {
        Checked::Wide { .. } => Status::Overflow,
        _ => Status::ProofRefused,
    }
}

/// The status that goes with a cause; with `Fine` it is `Done`.
fn status_of(cause: &Cause) -> Status
    ensures { result ≡ status_of cause.now }
{
    match cause {
        Cause::Fine => Status::Done,
        Cause::Usage { .. } => Status::Usage,
        Cause::TooLong | Cause::MatrixFault(_) | Cause::ProofFault(_) => Status::Text,
        Cause::Proof(checked) => proof_status(checked),
        Cause::Depth { .. } => Status::Depth,
        Cause::Pivots { .. } => Status::Pivots,
        Cause::Overflow(_) => Status::Overflow,
        Cause::ReadFault => Status::Read,
        Cause::WriteFault => Status::Write,
        Cause::Memory => Status::Memory,
    }
}

/// How a command ended.
#[derive(Drop)]
pub struct Ended {
    /// The kind of the ending.
    pub status: Status,
    /// Why it ended so.
    pub cause: Cause,
    /// What the walk of `solve` did, from where the matrix was read. After want of memory it may be missing.
    pub journal: Option<Journal>,
}

impl Ended {
    /// The ending with this cause. `Fine` comes with the status `Done`.
    pub fn by(cause: Cause) -> Ended
        ensures { result ≡ ending cause }
    {
        Ended::with(None, cause)
    }

    /// The ending with this journal and this cause. `Fine` comes with the status `Done`.
    pub fn with(journal: Option<Journal>, cause: Cause) -> Ended
        ensures { result ≡ ending_with journal cause }
    {
        Ended {
            status: status_of(&cause),
            cause,
            journal,
        }
    }

    /// This ending, where writing its text was cut off by this cause.
    fn cut_off(self, cause: Cause) -> Ended
        ensures { result ≡ cut_off cause self }
    {
        Ended::with(self.journal, cause)
    }

    /// This ending, after its text was put up to this end.
    pub fn after(self, end: PutEnd) -> Ended
        ensures { result ≡ ended_after end self }
    {
        match end {
            PutEnd::Done => self,
            PutEnd::Failed => self.cut_off(Cause::WriteFault),
            PutEnd::OutOfMemory => self.cut_off(Cause::Memory),
        }
    }
}
