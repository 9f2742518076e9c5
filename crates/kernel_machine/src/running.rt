//! Runs of kernels that stand ready.
ghost use Rattle.std.specs.Prelude.{◌≡◌, ◌∷◌, [], ◌<◌, ◌≤◌, ℕ, IfOk, IsOk};
ghost use Rattle.std.specs.Prelude.{MatchResult, length, replicate};
ghost use Rattle.kernel_code.specs.declared.syntax.Arr.{Arr};
ghost use Rattle.kernel_code.specs.Kernels.{place_of};
ghost use Rattle.level_core.specs.Meaning.{Arrays};
ghost use Rattle.storage_builder.specs.Building.{building, AreDense};
ghost use Rattle.tensor_storage.specs.Handed.{no_words};
ghost use Rattle.kernel_interpreter.specs.Store.{state_of};
ghost use Rattle.kernel_correctness.specs.Kernels.{IsSoundOn};
ghost use Rattle.kernel_correctness.specs.Results.{LeavesStorage, IsLeft};
ghost use Rattle.kernel_correctness.specs.Stores.{Store, result_sizes};
ghost use Rattle.kernel_machine.specs.Begins.{IsReadyFor};
ghost use Rattle.kernel_machine.specs.Runs.{most_turns, HasRun, IsRunRefusal, IsMadeFrom};

use crate::handing::{hand_over, taken_array};
use crate::prepared::Prepared;
use crate::refusal::RunRefusal;
use kernel_code::{Arr, Place, Turns};
use kernel_interpreter::{Ending, Machine, run_statements};
use numbers::Semiring;
use std::alloc::{AllocError, Global};
use storage_builder::Builder;
use tensor_storage::Tensor;

/// The turns that a run may make in all.
#[tactic(auto, unfolding(crate::specs::Runs::most_turns))]
fn most_turns() -> u64
    ensures { result ≡ most_turns }
{
    u64::MAX
}

/// Where an array that grew too long stands.
pub(crate) fn place_of(order: usize, a: Arr) -> Place
    ensures { result ≡ place_of order a }
{
    match a {
        Arr::Values(_) => Place::Level(order),
        Arr::Ends(_, level)
        | Arr::Coordinates(_, level)
        | Arr::Width(_, level)
        | Arr::Dimension(_, level) => Place::Level(level as usize),
        Arr::Range => Place::Level(0),
        Arr::Key(_, _) | Arr::Sums(_) | Arr::ListCoordinates(_) | Arr::ListPositions(_) => {
            Place::Workspace
        }
    }
}

/// The tensor that the arrays of the result make. Where all levels are dense it takes no memory.
fn made_tensor(
    alloc: Global,
    mut machine: Machine,
    mut builder: Builder,
    order: usize,
) -> Result<Tensor, AllocError>
    requires order { order ≡ length builder.format }
    requires left { (nothing : ℕ) × (store : Store) × LeavesStorage nothing store (state_of machine).arrays
        × (builder ≡ building store.format (result_sizes store) (replicate (length store.format) no_words)) }
    ensures made { IfOk result (λ t. IsMadeFrom builder.format builder.sizes (state_of machine.entry).arrays t) }
    ensures dense { AreDense builder.format → IsOk result }
{
    hand_over(&mut machine, &mut builder, alloc, order);
    let values = taken_array(&mut machine, alloc, Arr::Values(0));
    builder.finish(values)
}

/// Runs a kernel that is sound on the store on which it stands ready. It answers the result and the turns that the loops made, exactly
/// where the kernel's meaning finishes so within 2^64 - 1 turns; or the growth that it is refused, exactly where the meaning is; or it
/// wants memory, also where there would be more turns. A kernel that appends and sorts nothing takes no memory where its result is all
/// dense.
pub fn run<S: Semiring>(prepared: Prepared) -> Result<(Tensor, Turns), RunRefusal>
    requires { (store : Store) × IsReadyFor S.arithmetic prepared.kernel.now store prepared
        × IsSoundOn S.arithmetic prepared.kernel.now store }
    ensures { (store : Store) → (ready : IsReadyFor S.arithmetic prepared.entry.kernel.now store prepared.entry) → MatchResult result
        (λ r. HasRun S.arithmetic prepared.entry.kernel.now store ready.starts.given r.0 r.1)
        (IsRunRefusal S.arithmetic prepared.entry.kernel.now store ready.starts.given) }
{
    let Prepared {
        alloc,
        kernel,
        code,
        order,
        mut machine,
        builder,
    } = prepared;
    let Ok(ending) = run_statements::<S>(
        &mut machine,
        code.as_slice(),
        kernel.workspaces.as_slice(),
        most_turns(),
    ) else {
        return Err(RunRefusal::Memory);
    };
    match ending {
        Ending::Ended => {
            let turns = machine.turns();
            match made_tensor(alloc, machine, builder, order) {
                Ok(tensor) => Ok((tensor, turns)),
                Err(_) => Err(RunRefusal::Memory),
            }
        }
        Ending::Over { array, count } => {
            let place = place_of(order, array);
            Err(RunRefusal::SizeLimit { place, count })
        }
        Ending::Stuck { .. } | Ending::More => Err(RunRefusal::Memory),
    }
}
