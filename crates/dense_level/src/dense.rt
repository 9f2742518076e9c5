ghost use Rattle.std.specs.Prelude.{◌≡◌, ◌≤◌, ◌<◌, ◌+◌, ◌*◌, IfOk, IsOk};
ghost use Rattle.level_core.specs.Entries.{one};
ghost use Rattle.limits.specs.Limits.{greatest_position_count};
ghost use Rattle.dense_level.specs.Dense.{IsAllowed};

use std::alloc::{AllocError, Global};
use std::marker::Model;

/// A dense level: parent `p` has the positions from `p * size` on and below `(p + 1) * size`, of the coordinates from 0
/// on and below `size`, in order.
#[derive(Debug, Drop)]
pub struct DenseLevel {
    pub(crate) size: u64,
}

impl Model for DenseLevel {
    ghost use Rattle.std.specs.Prelude.{ℕ, ◌≤◌};
    ghost use Rattle.limits.specs.Limits.{greatest_position_count};

    ghost Value = { ℕ };

    ghost view = { λ a. a.size };

    ghost invariant = { λ a. a.size ≤ greatest_position_count };
}

impl DenseLevel {
    /// A level of a mode with the range `n`. It takes no memory.
    pub fn new(_alloc: Global, n: u64) -> Result<Self, AllocError>
        requires { n ≤ greatest_position_count }
        ensures made { IfOk result (λ level. level ≡ n) }
        ensures always { IsOk result }
    {
        Ok(DenseLevel { size: n })
    }

    /// The position of a coordinate below a parent.
    pub(crate) fn place_of(&self, parent: u64, x: u64) -> u64
        requires parent { IsAllowed self.now (one parent) }
        requires below { x < self.now }
        ensures { result ≡ parent * self.now + x }
    {
        parent * self.size + x
    }
}
