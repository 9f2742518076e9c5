ghost use Rattle.std.specs.Prelude.{◌≡◌, ◌≢◌, ◌≤◌, ◌<◌, ◌+◌, ℕ, true, if◌then◌else◌, length, slice_index, OnOk, OnErr};
ghost use Rattle.limits.specs.Limits.{greatest_position_count};
ghost use Rattle.level_core.specs.Logs.{MayAppend, MayAppendAll, MayAppendEdges, nothing_reserved, with_coords};
ghost use Rattle.level_core.specs.Meaning.{ChangesLog};
ghost use Rattle.level_rows.specs.Rows.{rows_at, begun, AllBegin, HasCoords, MayAppendRows};
ghost use Rattle.level_rows.specs.Taken.{AppendsRows};
ghost use Rattle.level_rows.specs.Appending.{turned, turned_log, added, added_log, closed_log, AreNumbered};

use crate::rows::SortedRows;
use level_core::Append;
use std::alloc::AllocError;

/// How far appending is: the last row's parent, where its positions begin, and how many coordinates are appended.
#[derive(Clone, Copy, Debug, PartialEq, Eq, Drop)]
pub(crate) struct Cursor {
    pub(crate) last: u64,
    pub(crate) begin: u64,
    pub(crate) count: u64,
}

/// Gives the last parent its positions where the next row has another.
#[inline(always)]
pub(crate) fn turn<L: Append>(level: &mut L, at: Cursor, next: u64) -> Cursor
    requires { at.last ≢ next → MayAppendEdges (L.meaning.kind level.old) at.last at.begin at.count (L.meaning.log level.old) }
    ensures cursor { result ≡ turned at next }
    ensures log { ChangesLog L.meaning (turned_log (L.meaning.kind level.old) at next (L.meaning.log level.old)) level.old level.new }
    ensures keeps { L.meaning.keeps level.new }
    ensures spare { L.spare level.new ≡ L.spare level.old }
{
    if at.last == next {
        level.tell_rules();
        return at;
    }
    level.append_edges(at.last, at.begin, at.count);
    level.tell_rules();
    Cursor {
        last: next,
        begin: at.count,
        count: at.count,
    }
}

/// Appends a row's coordinate if it begins a position.
#[inline(always)]
pub(crate) fn append_first<L: Append>(level: &mut L, at: Cursor, begins: bool, x: u64) -> Cursor
    requires may { begins ≡ true → MayAppend (L.meaning.kind level.old) (L.meaning.size level.old) x (L.meaning.log level.old) }
    requires spare { begins ≡ true → 0 < L.spare level.old }
    requires room { begins ≡ true → length (L.meaning.log level.old).coords < greatest_position_count }
    requires count { at.count ≡ length (L.meaning.log level.old).coords }
    ensures cursor { result ≡ added at begins }
    ensures log { ChangesLog L.meaning (added_log begins x (L.meaning.log level.old)) level.old level.new }
    ensures keeps { L.meaning.keeps level.new }
    ensures spare { L.spare level.new + (if begins then 1 else 0) ≡ L.spare level.old }
{
    if !begins {
        level.tell_rules();
        return at;
    }
    level.append_coord(x);
    level.tell_rules();
    Cursor {
        last: at.last,
        begin: at.begin,
        count: at.count + 1,
    }
}

/// Whether a row begins a position, where it may be known that all do.
#[inline(always)]
fn begins<R: SortedRows>(rows: &R, all: bool, row: usize) -> bool
    requires row { row < (R.keys rows.now).count }
    requires all { all ≡ true → AllBegin (R.keys rows.now) }
    ensures { result ≡ (R.keys rows.now).first row }
{
    if all {
        return true;
    }
    rows.begins(row)
}

/// Gives the last parent its positions, if there were rows.
pub(crate) fn close<L: Append>(level: &mut L, at: Cursor, some: bool)
    requires { some ≡ true → MayAppendEdges (L.meaning.kind level.old) at.last at.begin at.count (L.meaning.log level.old) }
    ensures log { ChangesLog L.meaning (closed_log (L.meaning.kind level.old) at some (L.meaning.log level.old)) level.old level.new }
    ensures keeps { L.meaning.keeps level.new }
{
    if !some {
        level.tell_rules();
        return;
    }
    level.append_edges(at.last, at.begin, at.count);
    level.tell_rules();
}

/// Fills a level below so many parents from rows, one position after another, row by row.
fn append_each<L: Append, R: SortedRows>(
    level: &mut L,
    parents: u64,
    most: u64,
    rows: &R,
    positions: &mut [u64],
) -> Result<(), AllocError>
    requires rows { MayAppendRows (L.meaning.kind level.old) (L.meaning.size level.old) parents (rows_at (R.keys rows.now) positions.old) }
    requires many { length positions.old ≡ (R.keys rows.now).count }
    requires fresh { L.meaning.log level.old ≡ nothing_reserved }
    requires parents { parents ≤ greatest_position_count }
    requires most { most ≡ begun (R.keys rows.now).first (R.keys rows.now).count }
    requires room { most ≤ greatest_position_count }
    ensures ok { OnOk result (AppendsRows L.meaning parents (rows_at (R.keys rows.now) positions.old) positions.new level.old level.new) }
    ensures err { OnErr result ((level.new ≡ level.old) × (positions.new ≡ positions.old)) }
{
    level.reserve(most, parents)?;
    level.tell_rules();
    let all = rows.all_begin();
    let mut at = Cursor {
        last: 0,
        begin: 0,
        count: 0,
    };
    let mut done = 0;
    while done < positions.len() {
        at = turn(level, at, positions[done]);
        at = append_first(level, at, begins(rows, all, done), rows.coord(done));
        positions[done] = at.count - 1;
        done += 1;
    }
    close(level, at, done > 0);
    level.finish(parents);
    Ok(())
}

/// Appends the coordinates of rows of one parent, each of which begins a position.
pub(crate) fn append_run<L: Append>(level: &mut L, at: Cursor, xs: &[u32]) -> Cursor
    requires may { MayAppendAll (L.meaning.kind level.old) (L.meaning.size level.old) xs.now (L.meaning.log level.old) }
    requires spare { length xs.now ≤ L.spare level.old }
    requires room { length (L.meaning.log level.old).coords + length xs.now ≤ greatest_position_count }
    requires count { at.count ≡ length (L.meaning.log level.old).coords }
    ensures cursor { result ≡ record at { count = at.count + length xs.now } }
    ensures log { ChangesLog L.meaning (with_coords xs.now (L.meaning.log level.old)) level.old level.new }
    ensures keeps { L.meaning.keeps level.new }
    ensures spare { L.spare level.new + length xs.now ≡ L.spare level.old }
{
    level.append_coords(xs);
    level.tell_rules();
    Cursor {
        last: at.last,
        begin: at.begin,
        count: at.count + xs.len() as u64,
    }
}

/// Gives the rows from this one on that have its parent their own numbers as positions, and answers where they end.
fn number_run(positions: &mut [u64], first: usize) -> usize
    requires { first < length positions.old }
    ensures within { result ≤ length positions.old }
    ensures more { first < result }
    ensures same { (i : ℕ) → first ≤ i → i < result → slice_index positions.old i ≡ slice_index positions.old first }
    ensures numbered { AreNumbered first result positions.old positions.new }
{
    let parent = positions[first];
    positions[first] = first as u64;
    for next in first + 1..positions.len() {
        if positions[next] != parent {
            return next;
        }
        positions[next] = next as u64;
    }
    positions.len()
}

/// Fills a level as `append_each` does, of rows of which each begins a position and whose coordinates stand in a list: they are taken from
/// there, the rows of one parent at once.
fn append_runs<L: Append, R: SortedRows>(
    level: &mut L,
    parents: u64,
    most: u64,
    _rows: &R,
    column: &[u32],
    positions: &mut [u64],
) -> Result<(), AllocError>
    requires rows { MayAppendRows (L.meaning.kind level.old) (L.meaning.size level.old) parents (rows_at (R.keys _rows.now) positions.old) }
    requires many { length positions.old ≡ (R.keys _rows.now).count }
    requires fresh { L.meaning.log level.old ≡ nothing_reserved }
    requires parents { parents ≤ greatest_position_count }
    requires most { most ≡ begun (R.keys _rows.now).first (R.keys _rows.now).count }
    requires room { most ≤ greatest_position_count }
    requires all { AllBegin (R.keys _rows.now) }
    requires column { HasCoords (R.keys _rows.now) column.now }
    ensures ok { OnOk result (AppendsRows L.meaning parents (rows_at (R.keys _rows.now) positions.old) positions.new level.old level.new) }
    ensures err { OnErr result ((level.new ≡ level.old) × (positions.new ≡ positions.old)) }
{
    level.reserve(most, parents)?;
    level.tell_rules();
    let mut at = Cursor {
        last: 0,
        begin: 0,
        count: 0,
    };
    let mut done = 0;
    while done < positions.len() {
        let parent = positions[done];
        let end = number_run(positions, done);
        at = turn(level, at, parent);
        at = append_run(level, at, &column[done..end]);
        done = end;
    }
    close(level, at, done > 0);
    level.finish(parents);
    Ok(())
}

/// Fills a level below so many parents from rows, one position after another. `positions` has the position of the level above
/// of each row, and then its position at this level. Refused for want of memory alone, and then nothing has changed.
pub fn append_rows<L: Append, R: SortedRows>(
    level: &mut L,
    parents: u64,
    most: u64,
    rows: &R,
    positions: &mut [u64],
) -> Result<(), AllocError>
    requires rows { MayAppendRows (L.meaning.kind level.old) (L.meaning.size level.old) parents (rows_at (R.keys rows.now) positions.old) }
    requires many { length positions.old ≡ (R.keys rows.now).count }
    requires fresh { L.meaning.log level.old ≡ nothing_reserved }
    requires parents { parents ≤ greatest_position_count }
    requires most { most ≡ begun (R.keys rows.now).first (R.keys rows.now).count }
    requires room { most ≤ greatest_position_count }
    ensures ok { OnOk result (AppendsRows L.meaning parents (rows_at (R.keys rows.now) positions.old) positions.new level.old level.new) }
    ensures err { OnErr result ((level.new ≡ level.old) × (positions.new ≡ positions.old)) }
{
    if rows.all_begin() {
        if let Some(column) = rows.column() {
            return append_runs(level, parents, most, rows, column, positions);
        }
    }
    append_each(level, parents, most, rows, positions)
}
