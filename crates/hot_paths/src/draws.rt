//! Numbers that look random and are the same in each run.

ghost use Rattle.std.specs.Prelude.{◌<◌};

/// A linear recurrence modulo 2^64.
#[derive(Drop)]
pub struct Draws {
    state: u64,
}

impl Draws {
    /// The recurrence at its beginning, which is always the same.
    pub fn new() -> Draws {
        Draws { state: 1 }
    }

    /// The next number, below a limit that is at least 1.
    pub fn below(&mut self, limit: u64) -> u64
        requires { 0 < limit }
        ensures { result < limit }
    {
        self.state = self
            .state
            .wrapping_mul(6_364_136_223_846_793_005)
            .wrapping_add(1_442_695_040_888_963_407);
        // The low bits of such a recurrence have short periods.
        (self.state >> 33) % limit
    }
}
