// Draws of numbers that look random.
ghost use Rattle.std.specs.Prelude.{◌≡◌, ◌/◌, ◌^◌, ◌<◌};
ghost use Rattle.generated_runs.specs.Draws.{next_state};

/// A row of draws, of which each depends on the one before.
#[derive(Drop)]
pub(crate) struct Draws {
    pub(crate) state: u64,
}

impl Draws {
    /// The next number of the row, below 2^32.
    #[tactic(auto, unfolding(crate::specs::Draws::next_state))]
    pub(crate) fn next(&mut self) -> u64
        ensures state { self.new.state ≡ next_state self.old.state }
        ensures value { result ≡ next_state self.old.state / 2 ^ 32 }
        ensures small { result < 2 ^ 32 }
    {
        self.state = self
            .state
            .wrapping_mul(6_364_136_223_846_793_005)
            .wrapping_add(1_442_695_040_888_963_407);
        self.state >> 32
    }
}
