//! Runs of kernels of which nothing is known, within so many turns.
ghost use Rattle.std.specs.Prelude.{◌≡◌, ◌≤◌, ℕ, All, length, replicate, IfOk, MatchOption, MatchResult};
ghost use Rattle.limits.specs.Limits.{greatest_position_count};
ghost use Rattle.storage_builder.specs.Building.{building};
ghost use Rattle.storage_builder.specs.Checked.{IsWhole};
ghost use Rattle.tensor_storage.specs.Handed.{no_words};
ghost use Rattle.kernel_interpreter.specs.Store.{state_of};
ghost use Rattle.kernel_correctness.specs.Stores.{Store, result_sizes};
ghost use Rattle.kernel_machine.specs.Begins.{IsReadyFor, store_of};
ghost use Rattle.kernel_machine.specs.Checked.{HasStarted, LeavesWhole, IsCheckedRun, IsCheckedFault, IsEndOf, IsRunFault};
ghost use Rattle.kernel_machine.specs.Runs.{IsMadeFrom};

use crate::checked_fault::CheckedFault;
use crate::handing::{hand_over, taken_array};
use crate::prepared::Prepared;
use crate::preparing::prepare;
use crate::refusal::RunRefusal;
use crate::running::place_of;
use format_spec::Format;
use kernel_code::{Arr, Kernel, Turns};
use kernel_interpreter::{Ending, Machine, run_statements};
use numbers::Semiring;
use std::alloc::{AllocError, Global};
use storage_builder::Builder;
use tensor_storage::Tensor;

/// The tensor that the arrays of the result make, if they are a storage of its format that keeps every rule, with `nothing` at each value
/// where no path ends. Refused for want of memory alone.
fn checked_tensor(
    alloc: Global,
    nothing: u64,
    mut machine: Machine,
    mut builder: Builder,
    order: usize,
) -> Result<Option<Tensor>, AllocError>
    requires order { order ≡ length builder.format }
    requires started { (store : Store) × HasStarted nothing store (state_of machine).arrays
        × (builder ≡ building store.format (result_sizes store) (replicate (length store.format) no_words)) }
    ensures { IfOk result (λ made. (store : Store) → HasStarted nothing store (state_of machine.entry).arrays
        → builder ≡ building store.format (result_sizes store) (replicate (length store.format) no_words)
        → MatchOption made (LeavesWhole nothing store (state_of machine.entry).arrays → ⊥)
        (λ t. LeavesWhole nothing store (state_of machine.entry).arrays
        × IsMadeFrom builder.format builder.sizes (state_of machine.entry).arrays t)) }
{
    hand_over(&mut machine, &mut builder, alloc, order);
    let values = taken_array(&mut machine, alloc, Arr::Values(0));
    builder.finish_checked(nothing, values)
}

/// Runs a kernel that stands ready, whatever it is, for at most so many turns. It answers the result and the turns that the loops made
/// where the kernel's meaning finishes so and leaves a storage that keeps every rule; or what the meaning comes to in place of that; or
/// it wants memory.
fn run_prepared<S: Semiring>(
    prepared: Prepared,
    budget: u64,
) -> Result<(Tensor, Turns), CheckedFault>
    requires { (store : Store) × IsReadyFor S.arithmetic prepared.kernel.now store prepared }
    ensures { (store : Store) → (ready : IsReadyFor S.arithmetic prepared.entry.kernel.now store prepared.entry) → MatchResult result
        (λ r. IsEndOf S.arithmetic prepared.entry.kernel.now store ready.starts.given budget r.0 r.1)
        (IsRunFault S.arithmetic prepared.entry.kernel.now store ready.starts.given budget) }
{
    let Prepared {
        alloc,
        kernel,
        code,
        order,
        mut machine,
        builder,
    } = prepared;
    let Ok(ending) = run_statements::<S>(
        &mut machine,
        code.as_slice(),
        kernel.workspaces.as_slice(),
        budget,
    ) else {
        return Err(CheckedFault::Memory);
    };
    match ending {
        Ending::Ended => {
            let turns = machine.turns();
            match checked_tensor(alloc, S::zero(), machine, builder, order) {
                Ok(Some(tensor)) => Ok((tensor, turns)),
                Ok(None) => Err(CheckedFault::BadStore),
                Err(_) => Err(CheckedFault::Memory),
            }
        }
        Ending::Over { array, count } => {
            let place = place_of(order, array);
            Err(CheckedFault::SizeLimit { place, count })
        }
        Ending::Stuck { statement } => Err(CheckedFault::Trap { statement }),
        Ending::More => Err(CheckedFault::Budget),
    }
}

/// Runs a kernel of which nothing is known on operands, with these ranges of its variables and a result of this format, for at most
/// `budget` turns in all. It answers the result and the turns that the loops made, where the kernel's meaning finishes within so many
/// turns and leaves a storage that keeps every rule of the format, with one value for each position and zero where no path ends. Else it
/// answers, exactly as the meaning is: the statement at which the run can't go on; that the turns aren't enough; a level of the result
/// that can't be begun, as `prepare` does, or an array that would grow past its limit; or that what is left is no such storage. Any of
/// these yields to want of memory. It always returns.
pub fn run_checked<S: Semiring>(
    alloc: Global,
    kernel: &Kernel,
    format: Format,
    operands: &[Tensor],
    ranges: &[u64],
    budget: u64,
) -> Result<(Tensor, Turns), CheckedFault>
    requires enough { length format ≤ length ranges.now }
    requires small { All (λ range. range ≤ greatest_position_count) ranges.now }
    ensures { MatchResult result
        (λ r. IsCheckedRun S.arithmetic kernel.now (store_of ranges.now operands.now format) budget r.0 r.1)
        (IsCheckedFault S.arithmetic kernel.now (store_of ranges.now operands.now format) budget) }
{
    match prepare::<S>(alloc, kernel, format, operands, ranges) {
        Ok(prepared) => run_prepared::<S>(prepared, budget),
        Err(RunRefusal::SizeLimit { place, count }) => {
            Err(CheckedFault::SizeLimit { place, count })
        }
        Err(RunRefusal::Memory) => Err(CheckedFault::Memory),
    }
}
