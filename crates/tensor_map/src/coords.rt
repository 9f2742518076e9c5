ghost use Rattle.std.specs.Prelude.{◌≡◌, ◌≤◌, ◌<◌, [], ◌∷◌, ◌++◌, ◌↔◌, length, IsTrue};
ghost use Rattle.limits.specs.Limits.{greatest_order};

use smallvec::SmallVec;
use std::alloc::Global;
use std::marker::Model;

/// A coordinate list of a tensor: at most as many numbers as a tensor may have modes. It takes no memory, since
/// they stand in the value itself.
#[derive(Debug, Drop)]
pub struct Coords {
    numbers: SmallVec<u64, 6>,
}

impl Model for Coords {
    ghost use Rattle.std.specs.Prelude.{List, ℕ};
    ghost use Rattle.tensor_map.specs.Coords.{IsInline};

    ghost Value = { List ℕ };

    ghost view = { λ c. c.numbers.items };

    ghost invariant = { λ c. IsInline c.numbers };
}

impl Coords {
    /// No coordinates.
    #[tactic(auto, unfolding(limits::specs::Limits::greatest_order))]
    pub fn new(alloc: Global) -> Coords
        ensures { result ≡ [] }
    {
        Coords {
            numbers: SmallVec::new(alloc),
        }
    }

    /// These coordinates.
    #[tactic(auto, unfolding(limits::specs::Limits::greatest_order))]
    pub fn from_slice(alloc: Global, coords: &[u64]) -> Coords
        requires { length coords.now ≤ greatest_order }
        ensures { result ≡ coords.now }
    {
        Coords {
            numbers: SmallVec::from_slice(alloc, coords).unwrap(),
        }
    }

    /// The same coordinates once more.
    #[tactic(auto, unfolding(limits::specs::Limits::greatest_order))]
    pub fn copied(&self) -> Coords
        ensures { result ≡ self.now }
    {
        Coords::from_slice(*self.numbers.allocator(), self.as_slice())
    }

    /// Appends a coordinate.
    #[tactic(auto, unfolding(limits::specs::Limits::greatest_order))]
    pub fn push(&mut self, coordinate: u64)
        requires { length self.old < greatest_order }
        ensures { self.new ≡ self.old ++ coordinate ∷ [] }
    {
        self.numbers.push_reserved(coordinate);
    }

    /// The coordinates, from mode 0 on.
    pub fn as_slice(&self) -> &[u64]
        ensures value { result.now ≡ self.now }
        ensures short { length self.now ≤ greatest_order }
    {
        self.numbers.as_slice()
    }

    /// The number of coordinates.
    pub fn len(&self) -> usize
        ensures value { result ≡ length self.now }
        ensures short { result ≤ greatest_order }
    {
        self.numbers.len()
    }

    /// Whether there is no coordinate.
    pub fn is_empty(&self) -> bool
        ensures { IsTrue result ↔ (self.now ≡ []) }
    {
        self.numbers.is_empty()
    }
}
