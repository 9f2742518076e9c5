ghost use Rattle.std.specs.Prelude.{◌≡◌, ◌≤◌, ◌<◌, ◌↔◌, length, slice_index, IsTrue, IsSome, IfSome};
ghost use Rattle.limits.specs.Limits.{greatest_order, greatest_position_count};
ghost use Rattle.tensor_map.specs.Coords.{IsShape};

use crate::Coords;
use limits::{greatest_order_of_tensor, greatest_positions};
use std::alloc::Global;
use std::marker::Model;

/// The ranges of a tensor's modes, from mode 0 on: the coordinates of a mode are below its range. There are at
/// most as many as a tensor may have modes, and none is above the greatest position count.
#[derive(Debug, Drop)]
pub struct Shape {
    ranges: Coords,
}

impl Model for Shape {
    ghost use Rattle.std.specs.Prelude.{List, ℕ};
    ghost use Rattle.tensor_map.specs.Coords.{IsShape};

    ghost Value = { List ℕ };

    ghost view = { λ s. s.ranges };

    ghost invariant = { λ s. IsShape s.ranges };
}

impl Shape {
    /// A shape of these ranges, and none exactly where they are too many or one is too large. It takes no memory.
    pub fn new(alloc: Global, ranges: &[u64]) -> Option<Shape>
        ensures ranges { IfSome result (λ shape. shape ≡ ranges.now) }
        ensures made { IsSome result ↔ IsShape ranges.now }
    {
        if !is_shape(ranges) {
            return None;
        }
        Some(Shape {
            ranges: Coords::from_slice(alloc, ranges),
        })
    }

    /// The ranges.
    pub fn ranges(&self) -> &[u64]
        ensures value { result.now ≡ self.now }
        ensures shape { IsShape self.now }
    {
        self.ranges.as_slice()
    }

    /// The number of modes.
    pub fn order(&self) -> usize
        ensures value { result ≡ length self.now }
        ensures short { result ≤ greatest_order }
    {
        self.ranges.len()
    }

    /// The range of a mode.
    pub fn range(&self, mode: usize) -> u64
        requires { mode < length self.now }
        ensures value { result ≡ slice_index self.now mode }
        ensures within { result ≤ greatest_position_count }
    {
        self.ranges.as_slice()[mode]
    }
}

/// Whether there are few enough ranges, and none is too large.
fn is_shape(ranges: &[u64]) -> bool
    ensures { IsTrue result ↔ IsShape ranges.now }
{
    let greatest = greatest_positions();
    ranges.len() as u64 <= greatest_order_of_tensor()
        && ranges.iter().all(|range| *range <= greatest)
}
