ghost use Rattle.std.specs.Prelude.{◌≡◌, ◌≤◌, ◌<◌, ◌-◌, ◌↔◌, ℕ, length, All, IsTrue, Some, slice_get, replicate};
ghost use Rattle.limits.specs.Limits.{greatest_order};
ghost use Rattle.level_core.specs.declared.letter.Letter.TheVariants.{Dense};
ghost use Rattle.format_spec.specs.Formats.{letters_of, modes_of, standing, IsFormat, IsStored};

use level_core::Letter;
use smallvec::SmallVec;
use std::alloc::Global;
use std::marker::Model;

/// A level of a format.
#[derive(Clone, Copy, Debug, PartialEq, Eq, Drop)]
pub struct FormatLevel {
    /// The kind of the level.
    pub letter: Letter,
    /// The mode that it stores, from 0.
    pub mode: usize,
}

impl Default for FormatLevel {
    ghost is_default = { λ level. level ≡ record { letter = Dense; mode = 0 } };

    /// A dense level of mode 0.
    fn default() -> FormatLevel {
        FormatLevel {
            letter: Letter::Dense,
            mode: 0,
        }
    }
}

/// A storage format of a tensor: its levels from the top, which store each mode once. A level with groups has a
/// singleton level directly below it, which stands nowhere else, and below a hashed level are those alone that can be
/// inserted into. A format takes no memory, since its levels stand in the value itself.
#[derive(Debug, Drop)]
pub struct Format {
    levels: SmallVec<FormatLevel, 6>,
}

impl Model for Format {
    ghost use Rattle.std.specs.Prelude.{List};
    ghost use Rattle.format_spec.specs.Formats.{FormatLevel, IsStored};

    ghost Value = { List FormatLevel };

    ghost view = { λ f. f.levels.items };

    ghost invariant = { λ f. IsStored f.levels };
}

impl Format {
    /// The format of these levels.
    pub(crate) fn from_levels(levels: SmallVec<FormatLevel, 6>) -> Format
        requires { IsStored levels }
        ensures { result ≡ levels.items }
    {
        Format { levels }
    }

    /// The format of a tensor of this order whose levels are all dense and store the modes in their own order.
    #[tactic(auto, unfolding(limits::specs::Limits::greatest_order))]
    pub fn all_dense(alloc: Global, order: usize) -> Format
        requires { order ≤ greatest_order }
        ensures letters { letters_of result ≡ replicate order Dense }
        ensures modes { modes_of result ≡ standing order }
    {
        let mut levels = SmallVec::new(alloc);
        for mode in 0..order {
            levels.push_reserved(FormatLevel {
                letter: Letter::Dense,
                mode,
            });
        }
        Format { levels }
    }

    /// Whether all levels are dense, whatever the order of the modes.
    pub fn is_all_dense(&self) -> bool
        ensures told { IsTrue result ↔ All (λ level. level.letter ≡ Dense) self.now }
        ensures format { IsFormat self.now }
    {
        self.levels
            .as_slice()
            .iter()
            .all(|level| level.letter == Letter::Dense)
    }

    /// The same format once more. It takes no memory.
    #[tactic(auto, unfolding(limits::specs::Limits::greatest_order))]
    pub fn copied(&self) -> Format
        ensures value { result ≡ self.now }
        ensures format { IsFormat result }
    {
        let alloc = self.allocator();
        Format {
            levels: SmallVec::from_slice(alloc, self.levels.as_slice()).unwrap(),
        }
    }

    /// Where lists that go with the format may take memory.
    pub(crate) fn allocator(&self) -> Global {
        *self.levels.allocator()
    }

    /// The levels, from the top.
    pub fn levels(&self) -> &[FormatLevel]
        ensures value { result.now ≡ self.now }
        ensures format { IsFormat self.now }
    {
        self.levels.as_slice()
    }

    /// The number of levels, which is that of the tensor's modes.
    pub fn order(&self) -> usize
        ensures value { result ≡ length self.now }
        ensures short { result ≤ greatest_order }
    {
        self.levels.len()
    }

    /// The kind of a level, of which the top one is number 1.
    pub fn letter(&self, level: usize) -> Letter
        requires first { 1 ≤ level }
        requires last { level ≤ length self.now }
        ensures { slice_get (letters_of self.now) (level - 1) ≡ Some result }
    {
        self.levels.as_slice()[level - 1].letter
    }

    /// The mode that a level stores, from 0, of which the top level is number 1.
    pub fn mode(&self, level: usize) -> usize
        requires first { 1 ≤ level }
        requires last { level ≤ length self.now }
        ensures value { slice_get (modes_of self.now) (level - 1) ≡ Some result }
        ensures within { result < length self.now }
    {
        self.levels.as_slice()[level - 1].mode
    }
}
