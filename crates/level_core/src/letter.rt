ghost use Rattle.std.specs.Prelude.{◌≡◌, ◌<◌, ◌^◌, suc};
ghost use Rattle.level_core.specs.Kinds.{properties, capabilities, parents_below, zeros_at_start};

use crate::arrays::LevelArray;

/// A kind of level. Formats name it by a letter.
#[derive(Clone, Copy, Debug, PartialEq, Eq, Drop)]
pub enum Letter {
    /// `d`: every coordinate below the range.
    Dense,
    /// `s`: compressed, each coordinate once below a parent.
    Compressed,
    /// `u`: compressed, with groups of positions that have one coordinate.
    CompressedGroups,
    /// `q`: singleton, each coordinate once below a parent.
    Singleton,
    /// `c`: singleton, with groups of positions that have one coordinate.
    SingletonGroups,
    /// `h`: hashed.
    Hashed,
}

/// What is true of the entries below each allowed parent of a level of some kind.
#[derive(Clone, Copy, Debug, PartialEq, Eq, Drop)]
pub struct Properties {
    /// Every coordinate below the range stands there.
    pub full: bool,
    /// The coordinates rise in the order of positions.
    pub ordered: bool,
    /// Each coordinate has one child position.
    pub unique: bool,
    /// A parent of one position has one coordinate.
    pub branchless: bool,
    /// Each position of the segment is a child of some coordinate.
    pub compact: bool,
}

/// What can be done with a level of some kind.
#[derive(Clone, Copy, Debug, PartialEq, Eq, Drop)]
pub struct Capabilities {
    /// Go over the coordinates, whose positions follow from them.
    pub coordinate_iteration: bool,
    /// Go over the positions, whose coordinates are stored.
    pub position_iteration: bool,
    /// Find the position of a coordinate.
    pub locate: bool,
    /// Store a coordinate at any time.
    pub insert: bool,
    /// Store coordinates in the order of positions.
    pub append: bool,
}

/// The properties of a kind of level, as "Format Abstraction for Sparse Tensor Algebra Compilers" tells
/// them: dense levels are full, hashed ones neither full nor ordered nor compact, singleton ones
/// branchless.
pub fn props_of(letter: Letter) -> Properties
    ensures { result ≡ properties letter }
{
    let unique = !matches!(letter, Letter::CompressedGroups | Letter::SingletonGroups);
    Properties {
        full: matches!(letter, Letter::Dense),
        ordered: !matches!(letter, Letter::Hashed),
        unique,
        branchless: matches!(letter, Letter::Singleton | Letter::SingletonGroups),
        compact: !matches!(letter, Letter::Hashed),
    }
}

/// The capabilities of a kind of level, from the same source: dense and hashed levels are located and
/// inserted into, the others are gone over by positions and appended to, as hashed ones are gone over too.
pub fn caps_of(letter: Letter) -> Capabilities
    ensures { result ≡ capabilities letter }
{
    let dense = matches!(letter, Letter::Dense);
    let located = matches!(letter, Letter::Dense | Letter::Hashed);
    Capabilities {
        coordinate_iteration: dense,
        position_iteration: !dense,
        locate: located,
        insert: located,
        append: !located,
    }
}

/// How many positions a level of a kernel's result has as the run starts, below so many parents: a dense one, whose range is `size`,
/// has them all, and any other none. The number is exact, and may be no word.
pub fn positions_at_start(letter: Letter, size: u64, parents: u64) -> u128
    ensures { result ≡ parents_below letter size parents }
{
    match letter {
        Letter::Dense => parents as u128 * size as u128,
        _ => 0,
    }
}

/// How many zeros stand in an array of a level of a kernel's result as the run starts, below so many parents, if it is one that the
/// run makes: the range of a dense level is lent.
pub fn zeros_at_start(letter: Letter, array: LevelArray, parents: u64) -> Option<u64>
    requires { suc parents < 2 ^ 64 }
    ensures { result ≡ zeros_at_start letter array parents }
{
    match letter {
        Letter::Dense => None,
        Letter::Compressed | Letter::CompressedGroups => match array {
            LevelArray::Ends => Some(parents + 1),
            LevelArray::Coordinates => Some(0),
            LevelArray::Dimension | LevelArray::Width => None,
        },
        Letter::Singleton | Letter::SingletonGroups => match array {
            LevelArray::Coordinates => Some(0),
            LevelArray::Dimension | LevelArray::Ends | LevelArray::Width => None,
        },
        Letter::Hashed => match array {
            LevelArray::Width | LevelArray::Coordinates => Some(0),
            LevelArray::Dimension | LevelArray::Ends => None,
        },
    }
}
