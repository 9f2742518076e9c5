//! What is told of the workload's run.
ghost use Rattle.std.specs.Prelude.{◌≡◌, ◌≤◌, ◌∷◌, [], IfOk, map};
ghost use Rattle.limits.specs.Limits.{greatest_workload};
ghost use Rattle.numbers.specs.Ring.{ring};
ghost use Rattle.numbers.specs.Sums.{total_of};
ghost use Rattle.generated_runs.specs.Workloads.{IsWorkload};

use crate::computing::compute;
use crate::tensors::generate;
use numbers::{add, zero};
use reports::Workload;
use std::alloc::{AllocError, Global};
use tensor_map::Entries;

/// The sum of the values of entries.
fn sum_of(entries: &Entries) -> u64
    ensures { result ≡ total_of ring (map (λ entry. entry.value) entries.now.list) }
{
    let mut sum = zero();
    for i in 0..entries.len() {
        sum = add(sum, entries.value(i));
    }
    sum
}

/// Runs the workload of this size: draws B, C and D, each with as many entries as rows, of which those with equal coordinates are added,
/// and computes `A(i,j) = B(i,j) * C(i,j) + D(i,j)` by its kernel, all tensors in format `ds`.
///
/// Its merged loops turn no more often than the cost that is told. Refused only for want of memory.
pub fn run_workload(alloc: Global, size: u64) -> Result<Workload, AllocError>
    requires { size ≤ greatest_workload }
    ensures run { IfOk result (IsWorkload size) }
    ensures few { IfOk result (λ workload. workload.turns.merge ≤ workload.cost) }
{
    let (first, second, third) = generate(alloc, size)?;
    let first_count = first.len() as u64;
    let second_count = second.len() as u64;
    let third_count = third.len() as u64;
    let run = compute(alloc, size, first, second, third)?;
    Ok(Workload {
        size,
        first: first_count,
        second: second_count,
        third: third_count,
        turns: run.turns,
        cost: size + first_count + second_count + third_count,
        values: run.entries.len() as u64,
        sum: sum_of(&run.entries),
    })
}
