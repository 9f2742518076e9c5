//! The arrays of levels, by name.
ghost use Rattle.std.specs.Prelude.{◌≡◌};
ghost use Rattle.level_core.specs.Arrays.{array_of};

use kernel_code::Arr;

/// An array of a level: a kind has some of them.
#[derive(Clone, Copy, Debug, PartialEq, Eq, Drop)]
pub enum LevelArray {
    /// The range, one word.
    Dimension,
    /// Where the segments of the parents end, behind a zero.
    Ends,
    /// How many slots each parent has, one word.
    Width,
    /// The coordinate at each position; the last word stands in an empty slot.
    Coordinates,
}

impl LevelArray {
    /// The array of the level of this number of a tensor, as kernels name it.
    pub fn named(self, tensor: u64, level: u64) -> Arr
        ensures { result ≡ array_of self tensor level }
    {
        match self {
            LevelArray::Dimension => Arr::Dimension(tensor, level),
            LevelArray::Ends => Arr::Ends(tensor, level),
            LevelArray::Width => Arr::Width(tensor, level),
            LevelArray::Coordinates => Arr::Coordinates(tensor, level),
        }
    }
}
