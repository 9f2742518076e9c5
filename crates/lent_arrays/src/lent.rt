//! The arrays that a kernel only reads, lent by those that have them.
ghost use Rattle.std.specs.Prelude.{◌≡◌, Some, option_map};
ghost use Rattle.kernel_code.specs.Meaning.{word_at, length_of};
ghost use Rattle.lent_arrays.specs.Lent.{words_of_operand, values_of_operand, one_word, size_in, dimension_of, lent_array, numbered};

use kernel_code::Arr;
use level_core::{Level, LevelArray};
use tensor_storage::StorageLevel;

/// What is lent of an operand: its levels from the top, and its values.
#[derive(Drop)]
pub struct Operand<'a> {
    pub levels: &'a [StorageLevel],
    pub values: &'a [u64],
}

impl<'a> Operand<'a> {
    /// The level of a number, of which the top one is 1.
    fn level(&self, level: u64) -> Option<&StorageLevel>
        ensures { option_map (λ l. l.now) result ≡ numbered self.now.levels.now level }
    {
        if level == 0 {
            return None;
        }
        self.levels.get(level as usize - 1)
    }

    fn length(&self, level: u64, array: LevelArray) -> Option<u64>
        ensures { result ≡ length_of (words_of_operand array level (Some self.now)) }
    {
        match self.level(level) {
            None => None,
            Some(level) => level.array_len(array),
        }
    }

    fn word(&self, level: u64, array: LevelArray, at: u64) -> Option<u64>
        ensures { result ≡ word_at (words_of_operand array level (Some self.now)) (Some at) }
    {
        match self.level(level) {
            None => None,
            Some(level) => level.array_word(array, at),
        }
    }
}

/// The arrays that a kernel only reads: the ranges of the variables, the ranges of the result's levels, each where the level has an
/// array for it, and the operands.
#[derive(Drop)]
pub struct LentArrays<'a> {
    pub ranges: &'a [u64],
    pub sizes: Vec<Option<u64>>,
    pub operands: Vec<Operand<'a>>,
}

impl<'a> LentArrays<'a> {
    /// What is lent of the tensor of a number; the result is tensor 0.
    fn operand(&self, tensor: u64) -> Option<&Operand<'a>>
        ensures { option_map (λ o. o.now) result ≡ numbered self.now.operands.items tensor }
    {
        if tensor == 0 {
            return None;
        }
        self.operands.get(tensor as usize - 1)
    }

    /// The range of a level of the result, of which the top one is 1, where the level has an array for it.
    fn size(&self, level: u64) -> Option<u64>
        ensures { result ≡ size_in self.now.sizes.items level }
    {
        if level == 0 {
            return None;
        }
        match self.sizes.get(level as usize - 1) {
            None => None,
            Some(size) => *size,
        }
    }

    fn level_length(&self, tensor: u64, level: u64, array: LevelArray) -> Option<u64>
        ensures { result ≡ length_of (words_of_operand array level (numbered self.now.operands.items tensor)) }
    {
        match self.operand(tensor) {
            None => None,
            Some(operand) => operand.length(level, array),
        }
    }

    fn level_word(&self, tensor: u64, level: u64, array: LevelArray, at: u64) -> Option<u64>
        ensures { result ≡ word_at (words_of_operand array level (numbered self.now.operands.items tensor)) (Some at) }
    {
        match self.operand(tensor) {
            None => None,
            Some(operand) => operand.word(level, array, at),
        }
    }

    fn size_length(&self, level: u64) -> Option<u64>
        ensures { result ≡ length_of (one_word (size_in self.now.sizes.items level)) }
    {
        match self.size(level) {
            None => None,
            Some(_) => Some(1),
        }
    }

    fn size_word(&self, level: u64, at: u64) -> Option<u64>
        ensures { result ≡ word_at (one_word (size_in self.now.sizes.items level)) (Some at) }
    {
        match self.size(level) {
            Some(size) if at == 0 => Some(size),
            _ => None,
        }
    }

    fn dimension_length(&self, tensor: u64, level: u64) -> Option<u64>
        ensures { result ≡ length_of (dimension_of self.now tensor level) }
    {
        if tensor == 0 {
            return self.size_length(level);
        }
        self.level_length(tensor, level, LevelArray::Dimension)
    }

    fn dimension_word(&self, tensor: u64, level: u64, at: u64) -> Option<u64>
        ensures { result ≡ word_at (dimension_of self.now tensor level) (Some at) }
    {
        if tensor == 0 {
            return self.size_word(level, at);
        }
        self.level_word(tensor, level, LevelArray::Dimension, at)
    }

    fn values_length(&self, tensor: u64) -> Option<u64>
        ensures { result ≡ length_of (values_of_operand (numbered self.now.operands.items tensor)) }
    {
        match self.operand(tensor) {
            None => None,
            Some(operand) => Some(operand.values.len() as u64),
        }
    }

    fn values_word(&self, tensor: u64, at: u64) -> Option<u64>
        ensures { result ≡ word_at (values_of_operand (numbered self.now.operands.items tensor)) (Some at) }
    {
        match self.operand(tensor) {
            None => None,
            Some(operand) => operand.values.get(at as usize).copied(),
        }
    }

    /// The number of words of an array, where it is there.
    pub fn length(&self, a: Arr) -> Option<u64>
        ensures { result ≡ length_of (lent_array self.now a) }
    {
        match a {
            Arr::Range => Some(self.ranges.len() as u64),
            Arr::Values(tensor) => self.values_length(tensor),
            Arr::Dimension(tensor, level) => self.dimension_length(tensor, level),
            Arr::Ends(tensor, level) => self.level_length(tensor, level, LevelArray::Ends),
            Arr::Coordinates(tensor, level) => {
                self.level_length(tensor, level, LevelArray::Coordinates)
            }
            Arr::Width(tensor, level) => self.level_length(tensor, level, LevelArray::Width),
            Arr::Key(_, _) | Arr::Sums(_) | Arr::ListCoordinates(_) | Arr::ListPositions(_) => None,
        }
    }

    /// The word of an array at a place, where it is there.
    pub fn word(&self, a: Arr, at: u64) -> Option<u64>
        ensures { result ≡ word_at (lent_array self.now a) (Some at) }
    {
        match a {
            Arr::Range => self.ranges.get(at as usize).copied(),
            Arr::Values(tensor) => self.values_word(tensor, at),
            Arr::Dimension(tensor, level) => self.dimension_word(tensor, level, at),
            Arr::Ends(tensor, level) => self.level_word(tensor, level, LevelArray::Ends, at),
            Arr::Coordinates(tensor, level) => {
                self.level_word(tensor, level, LevelArray::Coordinates, at)
            }
            Arr::Width(tensor, level) => self.level_word(tensor, level, LevelArray::Width, at),
            Arr::Key(_, _) | Arr::Sums(_) | Arr::ListCoordinates(_) | Arr::ListPositions(_) => None,
        }
    }
}
