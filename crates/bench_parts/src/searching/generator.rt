//! The numbers that the random sets are made of.

ghost use Rattle.std.specs.Prelude.{◌<◌};

/// A linear congruential generator, with the constants of Knuth's MMIX.
#[derive(Debug, Drop)]
pub(super) struct Generator {
    state: u64,
}

impl Generator {
    /// The generator that begins at this state.
    pub(super) fn new(seed: u64) -> Generator {
        Generator { state: seed }
    }

    /// The next number, which is less than the bound.
    pub(super) fn below(&mut self, bound: usize) -> usize
        requires { 0 < bound }
        ensures { result < bound }
    {
        self.state = self
            .state
            .wrapping_mul(6364136223846793005)
            .wrapping_add(1442695040888963407);
        (self.state >> 33) as usize % bound
    }
}
