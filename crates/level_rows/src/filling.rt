ghost use Rattle.std.specs.Prelude.{◌≡◌, ◌≤◌, ◌^◌, ℕ, false, length};
ghost use Rattle.limits.specs.Limits.{greatest_position_count};
ghost use Rattle.kernel_code.specs.Widths.{slot_width};
ghost use Rattle.level_core.specs.Kinds.{capabilities, positions_for};
ghost use Rattle.level_rows.specs.Rows.{rows_at};
ghost use Rattle.level_rows.specs.Filling.{AreNeeded, MayFill, FillAnswer};

use crate::appending::append_rows;
use crate::counting::{greatest_below, positions_begun};
use crate::inserting::{insert_full, insert_rows};
use crate::rows::SortedRows;
use level_core::{Append, Insert, Letter, LevelKind, caps_of, props_of};
use limits::greatest_positions;

/// Why a level isn't given its rows.
#[derive(Clone, Copy, Debug, PartialEq, Eq, Drop)]
pub enum FillRefusal {
    /// Memory was wanted.
    Memory,
    /// The level would have so many positions, which pass the limit.
    TooMany(u128),
}

/// How many positions a level needs, and the greatest number below one parent, or of all where it is appended to.
#[derive(Clone, Copy, Debug, PartialEq, Eq, Drop)]
struct Need {
    positions: u128,
    most: u64,
}

/// The width of a block of slots for so many coordinates.
fn width_for(most: u64) -> u64
    requires { most ≤ 2 ^ 62 }
    ensures { result ≡ slot_width most }
{
    let power = most.next_power_of_two();
    2 * power
}

/// How many positions a level of this kind has for its parents' coordinates once they are prepared, each for at most `most`: a full one,
/// whose range is `size`, all of them, one that is inserted into a block of slots for each parent, and one that is appended to none. It
/// takes no memory, and the number is exact: it may be no word.
pub fn prepared_positions(letter: Letter, size: u64, parents: u64, most: u64) -> u128
    requires { most ≤ 2 ^ 62 }
    ensures { result ≡ positions_for letter size parents most }
{
    if props_of(letter).full {
        return parents as u128 * size as u128;
    }
    if caps_of(letter).insert {
        return parents as u128 * width_for(most) as u128;
    }
    0
}

/// Counts the positions that a level needs for the rows below so many parents.
fn count_positions<L: LevelKind, R: SortedRows>(
    level: &L,
    size: u64,
    parents: u64,
    rows: &R,
    positions: &[u64],
) -> Need
    requires size { size ≡ L.meaning.size level.now }
    requires range { size ≤ greatest_position_count }
    requires parents { parents ≤ greatest_position_count }
    requires rows { MayFill L.meaning parents (rows_at (R.keys rows.now) positions.now) level.now }
    requires many { length positions.now ≡ (R.keys rows.now).count }
    ensures needed { AreNeeded (L.meaning.kind level.now) (L.meaning.size level.now) parents (rows_at (R.keys rows.now) positions.now)
        result.positions result.most }
    ensures few { (capabilities (L.meaning.kind level.now)).append ≡ false → result.most ≤ 2 ^ 62 }
{
    if level.caps().append {
        let most = positions_begun(rows);
        return Need {
            positions: most as u128,
            most,
        };
    }
    if level.props().full {
        return Need {
            positions: parents as u128 * size as u128,
            most: 0,
        };
    }
    let most = greatest_below(rows, positions);
    Need {
        positions: parents as u128 * width_for(most) as u128,
        most,
    }
}

/// Gives a new level of any kind its rows, below so many parents, and answers how many positions it has. `size` is the level's
/// range; `positions` has the position of the level above of each row, and then its position at this level. Refused for want of
/// memory, or exactly where the positions would pass the limit, and then nothing has changed.
pub fn fill_level<L: Append + Insert, R: SortedRows>(
    level: &mut L,
    size: u64,
    parents: u64,
    rows: &R,
    positions: &mut [u64],
) -> Result<u64, FillRefusal>
    requires size { size ≡ L.meaning.size level.old }
    requires range { size ≤ greatest_position_count }
    requires parents { parents ≤ greatest_position_count }
    requires rows { MayFill L.meaning parents (rows_at (R.keys rows.now) positions.old) level.old }
    requires many { length positions.old ≡ (R.keys rows.now).count }
    ensures { (needed : ℕ) × (most : ℕ)
        × AreNeeded (L.meaning.kind level.old) (L.meaning.size level.old) parents (rows_at (R.keys rows.now) positions.old) needed most
        × FillAnswer L.meaning parents (rows_at (R.keys rows.now) positions.old) needed most positions.old positions.new
        level.old level.new result }
{
    let need = count_positions(level, size, parents, rows, positions);
    if need.positions > greatest_positions() as u128 {
        return Err(FillRefusal::TooMany(need.positions));
    }
    let count = need.positions as u64;
    let given = if level.caps().append {
        append_rows(level, parents, need.most, rows, positions)
    } else if level.props().full {
        insert_full(level, size, parents, need.most, rows, positions)
    } else {
        insert_rows(level, parents, need.most, rows, positions)
    };
    match given {
        Ok(()) => Ok(count),
        Err(_) => Err(FillRefusal::Memory),
    }
}
