//! Runs of a column of coordinates, which are rows that follow one another with one coordinate: the rows of a run share a position, whose
//! number is the run's, and none is told.
ghost use Rattle.std.specs.Prelude.{◌≡◌, ◌≢◌, ◌≤◌, ◌<◌, ℕ, List, true, length, replicate, slice_index, OnOk, OnErr};
ghost use Rattle.limits.specs.Limits.{greatest_position_count};
ghost use Rattle.level_core.specs.Kinds.{capabilities};
ghost use Rattle.level_core.specs.Logs.{nothing_reserved};
ghost use Rattle.level_rows.specs.Filling.{AreNeeded, MayFill, FillAnswer};
ghost use Rattle.level_rows.specs.Rows.{rows_at, begun, HasCoords, MayAppendRows};
ghost use Rattle.level_rows.specs.Runs.{begins_run, run_numbers, AreRuns};
ghost use Rattle.level_rows.specs.Taken.{AppendsRows};

use crate::appending::{Cursor, append_first, close};
use crate::filling::FillRefusal;
use crate::rows::SortedRows;
use level_core::Append;
use limits::greatest_positions;
use std::alloc::AllocError;

/// Whether a row of a column is the first of a run.
#[inline(always)]
pub fn begins_run(column: &[u32], row: usize) -> bool
    requires { row < length column.now }
    ensures { result ≡ begins_run column.now row }
{
    if row == 0 {
        return true;
    }
    column[row - 1] != column[row]
}

/// Where the run ends that begins at this row.
pub(crate) fn run_end(column: &[u32], first: usize) -> usize
    requires { first < length column.now }
    ensures within { result ≤ length column.now }
    ensures more { first < result }
    ensures same { (i : ℕ) → first ≤ i → i < result → slice_index column.now i ≡ slice_index column.now first }
    ensures next { result < length column.now → slice_index column.now result ≢ slice_index column.now first }
{
    let run = &column[first..];
    let coord = run[0];
    let mut long = 1;
    for word in &run[1..] {
        if *word != coord {
            return first + long;
        }
        long += 1;
    }
    first + long
}

/// How many runs a column of some rows has.
fn runs_in(column: &[u32]) -> u64
    requires { 0 < length column.now }
    ensures { result ≡ begun (begins_run column.now) (length column.now) }
{
    let mut before = column[0];
    let mut runs = 1;
    for word in &column[1..] {
        if *word != before {
            runs += 1;
        }
        before = *word;
    }
    runs
}

/// Fills a level as `append_rows` does, of some rows, which are all below the first parent and of which each run of a column shares a
/// position.
fn append_firsts<L: Append, R: SortedRows>(
    level: &mut L,
    parents: u64,
    most: u64,
    _rows: &R,
    column: &[u32],
) -> Result<(), AllocError>
    requires rows { MayAppendRows (L.meaning.kind level.old) (L.meaning.size level.old) parents
        (rows_at (R.keys _rows.now) (replicate (R.keys _rows.now).count 0)) }
    requires fresh { L.meaning.log level.old ≡ nothing_reserved }
    requires parents { parents ≤ greatest_position_count }
    requires most { most ≡ begun (R.keys _rows.now).first (R.keys _rows.now).count }
    requires room { most ≤ greatest_position_count }
    requires runs { AreRuns (R.keys _rows.now) column.now }
    requires column { HasCoords (R.keys _rows.now) column.now }
    requires some { 0 < length column.now }
    ensures ok { OnOk result (AppendsRows L.meaning parents (rows_at (R.keys _rows.now) (replicate (R.keys _rows.now).count 0))
        (run_numbers column.now) level.old level.new) }
    ensures err { OnErr result (level.new ≡ level.old) }
{
    level.reserve(most, parents)?;
    level.tell_rules();
    let start = Cursor {
        last: 0,
        begin: 0,
        count: 0,
    };
    let mut before = column[0];
    let mut at = append_first(level, start, true, before as u64);
    for word in &column[1..] {
        if *word != before {
            at = append_first(level, at, true, *word as u64);
        }
        before = *word;
    }
    close(level, at, true);
    level.finish(parents);
    Ok(())
}

/// Gives a new level that is appended to its rows, of which there are some, below so many parents, as `fill_level` does, where all rows are
/// below the first parent and each run of the column of their coordinates shares a position. Each row's is the number of its run, which
/// isn't told.
pub fn fill_runs<L: Append, R: SortedRows>(
    level: &mut L,
    parents: u64,
    rows: &R,
    column: &[u32],
) -> Result<u64, FillRefusal>
    requires append { (capabilities (L.meaning.kind level.old)).append ≡ true }
    requires parents { parents ≤ greatest_position_count }
    requires rows { MayFill L.meaning parents (rows_at (R.keys rows.now) (replicate (R.keys rows.now).count 0)) level.old }
    requires runs { AreRuns (R.keys rows.now) column.now }
    requires column { HasCoords (R.keys rows.now) column.now }
    requires some { 0 < length column.now }
    ensures { (needed : ℕ) × (most : ℕ) × (places : List ℕ)
        × AreNeeded (L.meaning.kind level.old) (L.meaning.size level.old) parents
        (rows_at (R.keys rows.now) (replicate (R.keys rows.now).count 0)) needed most
        × FillAnswer L.meaning parents (rows_at (R.keys rows.now) (replicate (R.keys rows.now).count 0)) needed most
        (replicate (R.keys rows.now).count 0) places level.old level.new result
        × OnOk result (places ≡ run_numbers column.now) }
{
    let count = runs_in(column);
    if count > greatest_positions() {
        return Err(FillRefusal::TooMany(count as u128));
    }
    match append_firsts(level, parents, count, rows, column) {
        Ok(()) => Ok(count),
        Err(_) => Err(FillRefusal::Memory),
    }
}
