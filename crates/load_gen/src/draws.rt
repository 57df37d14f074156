//! The pseudo-random numbers that are drawn.

ghost use Rattle.std.specs.Prelude.{◌≡◌, ◌<◌};
ghost use Rattle.load_gen.specs.Draws.{next_state, drawn};

/// A linear congruential generator of 64 bits, with the multiplier and the increment of Knuth's MMIX.
#[derive(Clone, Copy)]
pub(crate) struct Draws {
    pub(crate) state: u64,
}

impl Draws {
    const MULTIPLIER: u64 = 6364136223846793005;

    const INCREMENT: u64 = 1442695040888963407;
    /// How many of the state's lowest bits are left out of what is drawn, since they have the shortest periods.
    const LOWER_BITS: u32 = 33;

    /// Draws a number below `count`.
    #[tactic(auto, unfolding(crate::specs::Draws::next_state, crate::specs::Draws::drawn))]
    pub(crate) fn draw(&mut self, count: u32) -> u32
        requires { 0 < count }
        ensures number { result ≡ drawn self.old.state count }
        ensures below { result < count }
        ensures state { self.new.state ≡ next_state self.old.state }
    {
        self.state = self
            .state
            .wrapping_mul(Self::MULTIPLIER)
            .wrapping_add(Self::INCREMENT);
        ((self.state >> Self::LOWER_BITS) % u64::from(count)) as u32
    }
}
