// The operands, entry by entry.
ghost use Rattle.std.specs.Prelude.{◌≡◌, ◌+◌, ◌*◌, ◌<◌, ◌≤◌, ◌++◌, ◌∷◌, [], pos, ◌-ℤ◌, OnOk, IfOk};
ghost use Rattle.limits.specs.Limits.{greatest_workload};
ghost use Rattle.numbers.specs.Signed.{word_of_signed};
ghost use Rattle.generated_runs.specs.Draws.{state_after};
ghost use Rattle.generated_runs.specs.Generated.{entry_at, value_of, drawn, AreSummed, IsGenerated};

use crate::draws::Draws;
use numbers::{Ring, unsigned};
use std::alloc::{AllocError, Global};
use tensor_map::Entries;

/// The value of a draw, from -9 to 9.
fn value_of_draw(draw: u64) -> u64
    ensures { result ≡ value_of draw }
{
    unsigned((draw % 19) as i64 - 9)
}

/// Draws an entry of a square matrix of so many rows: its row, its column and its value.
fn draw_entry(entries: &mut Entries, draws: &mut Draws, n: u64) -> Result<(), AllocError>
    requires rows { 0 < n }
    requires order { entries.old.order ≡ 2 }
    ensures order { entries.new.order ≡ 2 }
    ensures drawn { OnOk result (entries.new.list ≡ entries.old.list ++ entry_at n draws.old.state ∷ []) }
    ensures state { OnOk result (draws.new.state ≡ state_after draws.old.state 3) }
{
    let row = draws.next() % n;
    let column = draws.next() % n;
    let value = value_of_draw(draws.next());
    entries.push(&[row, column], value)?;
    Ok(())
}

/// Draws as many entries as the matrix has rows, as they come.
fn draw_entries(alloc: Global, draws: &mut Draws, n: u64) -> Result<Entries, AllocError>
    ensures order { IfOk result (λ entries. entries.order ≡ 2) }
    ensures drawn { IfOk result (λ entries. entries.list ≡ drawn n draws.old.state) }
    ensures state { OnOk result (draws.new.state ≡ state_after draws.old.state (3 * n)) }
{
    let mut entries = Entries::new(alloc, 2)?;
    for _drawn in 0..n {
        draw_entry(&mut entries, draws, n)?;
    }
    Ok(entries)
}

/// Draws the entries of a matrix, and adds those with equal coordinates.
fn draw_tensor(alloc: Global, draws: &mut Draws, n: u64) -> Result<Entries, AllocError>
    ensures summed { IfOk result (AreSummed n (drawn n draws.old.state)) }
    ensures state { OnOk result (draws.new.state ≡ state_after draws.old.state (3 * n)) }
{
    let mut entries = draw_entries(alloc, draws, n)?;
    entries.sort_sum::<Ring>()?;
    Ok(entries)
}

/// The operands B, C and D of the workload of this size, in this order: each of as many rows, columns and drawn entries, of which those
/// with equal coordinates are added. Refused only for want of memory.
pub(crate) fn generate(alloc: Global, n: u64) -> Result<(Entries, Entries, Entries), AllocError>
    requires { n ≤ greatest_workload }
    ensures { IfOk result (λ operands. IsGenerated n 0 operands.0 × IsGenerated n 1 operands.1 × IsGenerated n 2 operands.2) }
{
    let mut draws = Draws { state: n };
    let first = draw_tensor(alloc, &mut draws, n)?;
    let second = draw_tensor(alloc, &mut draws, n)?;
    let third = draw_tensor(alloc, &mut draws, n)?;
    Ok((first, second, third))
}
