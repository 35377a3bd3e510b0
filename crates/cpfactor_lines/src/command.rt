//! What a command line asks for, and how it is refused.

ghost use Rattle.std.specs.Prelude.{◌≡◌};
ghost use Rattle.cpfactor_lines.specs.Commands.{AreWorkers, HasRanges, workers_in};
ghost use Rattle.cpfactor_lines.specs.Requests.{request_of};

use perfect_walk::Limits;

/// A command, with what its words say.
#[derive(Clone, Copy, Debug, PartialEq, Eq)]
pub enum Command<'a> {
    /// `solve FILE [--pivots N] [--depth N] [--workers N] [--trace]`: factors or separates the matrix of a file.
    Solve {
        file: &'a str,
        limits: Limits,
        workers: u8,
        trace: bool,
    },
    /// `check FILE PROOF`: checks a verdict on the matrix of a file.
    Check {
        file: &'a str,
        proof: &'a str,
    },
    /// `minimum FILE [--depth N] [--workers N]`: the copositive minimum of the matrix of a file, and its minimal
    /// vectors.
    Minimum {
        file: &'a str,
        depth: u8,
        workers: u8,
    },
    /// `copositive FILE [--depth N] [--workers N]`: whether the matrix of a file is copositive.
    Copositive {
        file: &'a str,
        depth: u8,
        workers: u8,
    },
    /// `sample N K X [--workers M]`: solves the sum of v·vᵗ over `k` vectors of `n` coordinates, which a recurrence
    /// draws from `first` on, and tells its diagonal, how many matrices were visited, and the verdict.
    Sample {
        n: u8,
        k: u32,
        first: u64,
        workers: u8,
    },
}

impl Command<'_> {
    /// How many workers a command asks for. `check` searches nothing, and asks for one.
    pub fn workers(self) -> u8
        ensures asked { result ≡ workers_in (request_of self.entry) }
        ensures within { HasRanges (request_of self.entry) → AreWorkers result }
    {
        match self {
            Command::Solve { workers, .. } => workers,
            Command::Check { .. } => 1,
            Command::Minimum { workers, .. } => workers,
            Command::Copositive { workers, .. } => workers,
            Command::Sample { workers, .. } => workers,
        }
    }
}

/// A command line that is none of the program's.
#[derive(Clone, Copy, Debug, PartialEq, Eq)]
pub struct Usage {
    /// The first word that cannot be read, or the one that is missing, counted from 1 after the program's name.
    pub position: u32,
}
