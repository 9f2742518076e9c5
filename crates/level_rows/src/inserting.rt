ghost use Rattle.std.specs.Prelude.{◌≡◌, ◌≤◌, ◌<◌, ◌+◌, ℕ, List, true, false, length, replicate, OnOk, OnErr};
ghost use Rattle.limits.specs.Limits.{greatest_position_count};
ghost use Rattle.level_core.specs.Entries.{one};
ghost use Rattle.level_core.specs.Kinds.{properties, positions_for, MayPrepare, MayInsert};
ghost use Rattle.level_rows.specs.Filling.{AreNeeded, MayFill, FillAnswer};
ghost use Rattle.level_rows.specs.Rows.{rows_at, begun_below, HasCoords, MayInsertRows};
ghost use Rattle.level_rows.specs.Taken.{InsertsRows};

use crate::filling::FillRefusal;
use crate::rows::SortedRows;
use level_core::Insert;
use limits::greatest_positions;
use std::alloc::AllocError;

/// Inserts a row's coordinate if it begins a position, and answers the row's position: else that of the row before.
#[inline(always)]
fn insert_first<L: Insert>(level: &mut L, parent: u64, x: u64, begins: bool, before: u64) -> u64
    requires parent { begins ≡ true → L.meaning.allowed level.old (one parent) }
    requires may { begins ≡ true → MayInsert (L.meaning.kind level.old) (L.meaning.size level.old)
        (L.meaning.segment_of level.old (one parent))
        (L.meaning.entries level.old (one parent)) x }
    ensures first { begins ≡ true → L.meaning.inserted level.old parent x result level.new }
    ensures again { begins ≡ false → (level.new ≡ level.old) × (result ≡ before) }
{
    if begins {
        level.insert_coord(parent, x)
    } else {
        before
    }
}

/// Fills a level that coordinates are inserted into, below so many parents, from rows. Where the level isn't full, rows begin at
/// most `most` positions below each parent.
/// `positions` has the position of the level above of each row, and then its position at this level. Refused for want of
/// memory alone, and then nothing has changed.
pub fn insert_rows<L: Insert, R: SortedRows>(
    level: &mut L,
    parents: u64,
    most: u64,
    rows: &R,
    positions: &mut [u64],
) -> Result<(), AllocError>
    requires rows { MayInsertRows (L.meaning.size level.old) parents (rows_at (R.keys rows.now) positions.old) }
    requires many { length positions.old ≡ (R.keys rows.now).count }
    requires may { MayPrepare (L.meaning.kind level.old) (L.meaning.width level.old) most }
    requires most { (properties (L.meaning.kind level.old)).full ≡ false → (p : ℕ) → p < parents
        → begun_below (rows_at (R.keys rows.now) positions.old) p (R.keys rows.now).count ≤ most }
    requires within { positions_for (L.meaning.kind level.old) (L.meaning.size level.old) parents most ≤ greatest_position_count }
    ensures ok { OnOk result (InsertsRows L.meaning parents most (rows_at (R.keys rows.now) positions.old) positions.new
        level.old level.new) }
    ensures err { OnErr result ((level.new ≡ level.old) × (positions.new ≡ positions.old)) }
{
    level.tell_rules();
    level.prepare(parents, most)?;
    let mut at = 0;
    let mut done = 0;
    while done < positions.len() {
        at = insert_first(
            level,
            positions[done],
            rows.coord(done),
            rows.begins(done),
            at,
        );
        positions[done] = at;
        done += 1;
    }
    Ok(())
}

/// Fills a full level, of this range, as `insert_rows` does: it has a position for each coordinate already, which is counted and not
/// asked for.
pub(crate) fn insert_full<L: Insert, R: SortedRows>(
    level: &mut L,
    size: u64,
    parents: u64,
    most: u64,
    rows: &R,
    positions: &mut [u64],
) -> Result<(), AllocError>
    requires full { (properties (L.meaning.kind level.old)).full ≡ true }
    requires size { size ≡ L.meaning.size level.old }
    requires rows { MayInsertRows (L.meaning.size level.old) parents (rows_at (R.keys rows.now) positions.old) }
    requires many { length positions.old ≡ (R.keys rows.now).count }
    requires may { MayPrepare (L.meaning.kind level.old) (L.meaning.width level.old) most }
    requires within { positions_for (L.meaning.kind level.old) (L.meaning.size level.old) parents most ≤ greatest_position_count }
    ensures ok { OnOk result (InsertsRows L.meaning parents most (rows_at (R.keys rows.now) positions.old) positions.new
        level.old level.new) }
    ensures err { OnErr result ((level.new ≡ level.old) × (positions.new ≡ positions.old)) }
{
    level.tell_rules();
    level.prepare(parents, most)?;
    for row in 0..positions.len() {
        positions[row] = positions[row] * size + rows.coord(row);
    }
    Ok(())
}

/// Gives a new full level, of this range, its rows below so many parents, as `fill_level` does, where all are below the first parent and
/// their coordinates stand in a list: that has their positions too, and none is told.
pub fn fill_first<L: Insert, R: SortedRows>(
    level: &mut L,
    size: u64,
    parents: u64,
    _rows: &R,
    _column: &[u32],
) -> Result<u64, FillRefusal>
    requires full { (properties (L.meaning.kind level.old)).full ≡ true }
    requires size { size ≡ L.meaning.size level.old }
    requires range { size ≤ greatest_position_count }
    requires parents { parents ≤ greatest_position_count }
    requires rows { MayFill L.meaning parents (rows_at (R.keys _rows.now) (replicate (R.keys _rows.now).count 0)) level.old }
    requires column { HasCoords (R.keys _rows.now) _column.now }
    ensures { (needed : ℕ) × (most : ℕ) × (places : List ℕ)
        × AreNeeded (L.meaning.kind level.old) (L.meaning.size level.old) parents
        (rows_at (R.keys _rows.now) (replicate (R.keys _rows.now).count 0)) needed most
        × FillAnswer L.meaning parents (rows_at (R.keys _rows.now) (replicate (R.keys _rows.now).count 0)) needed most
        (replicate (R.keys _rows.now).count 0) places level.old level.new result
        × OnOk result (places ≡ _column.now) }
{
    let positions = parents as u128 * size as u128;
    if positions > greatest_positions() as u128 {
        return Err(FillRefusal::TooMany(positions));
    }
    level.tell_rules();
    match level.prepare(parents, 0) {
        Ok(()) => Ok(positions as u64),
        Err(_) => Err(FillRefusal::Memory),
    }
}
