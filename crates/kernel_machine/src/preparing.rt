//! Kernels made ready to run.
ghost use Rattle.std.specs.Prelude.{◌≡◌, ◌≤◌, All, length, replicate, IfOk, MatchResult};
ghost use Rattle.limits.specs.Limits.{greatest_position_count};
ghost use Rattle.format_spec.specs.Formats.{IsFormat, letters_of};
ghost use Rattle.tensor_storage.specs.Handed.{no_words};
ghost use Rattle.tensor_storage.specs.Storages.{in_level_order};
ghost use Rattle.storage_builder.specs.Building.{building};
ghost use Rattle.kernel_correctness.specs.Stores.{StartsFew};
ghost use Rattle.resolved_code.specs.Rooms.{room_of_code};
ghost use Rattle.kernel_interpreter.specs.Memory.{variable_room};
ghost use Rattle.kernel_machine.specs.Begins.{store_of, StartsOn, IsReadyFor, IsBeginRefusal};

use crate::prepared::Prepared;
use crate::refusal::RunRefusal;
use crate::sizes::{TooLarge, first_too_large};
use format_spec::{Format, FormatLevel};
use kernel_code::{Kernel, Place};
use kernel_interpreter::{Machine, make_room};
use lent_arrays::LentArrays;
use machine_starts::{begin_result, begin_scratch, lent_operands, sizes_lent};
use numbers::Semiring;
use resolved_code::{Resolved, resolve};
use std::alloc::{AllocError, Global};
use storage_builder::{Builder, level_sizes};
use tensor_map::Shape;
use tensor_storage::Tensor;

/// A machine with the arrays with which a kernel's run starts, and with a place for each variable of its code.
fn started_machine<'a, S: Semiring>(
    alloc: Global,
    kernel: &Kernel,
    code: &[Resolved],
    format: &[FormatLevel],
    operands: &'a [Tensor],
    ranges: &'a [u64],
    sizes: &[u64],
) -> Result<Machine<'a>, AllocError>
    requires sizes { sizes.now ≡ in_level_order format.now ranges.now }
    requires few { StartsFew (letters_of format.now) sizes.now 1 }
    ensures starts { IfOk result (StartsOn S.arithmetic.zero kernel.now (store_of ranges.now operands.now format.now)) }
    ensures room { IfOk result (λ m. room_of_code code.now ≤ variable_room m) }
{
    let lent = LentArrays {
        ranges,
        sizes: sizes_lent(alloc, format, sizes)?,
        operands: lent_operands(alloc, operands)?,
    };
    let mut machine = Machine::new(alloc, lent);
    begin_result(&mut machine, alloc, format, sizes, S::zero())?;
    begin_scratch(
        &mut machine,
        alloc,
        kernel.workspaces.as_slice(),
        kernel.lists,
    )?;
    make_room(&mut machine, code)?;
    Ok(machine)
}

/// A builder for a tensor of this format, to which nothing was handed over.
fn empty_builder(alloc: Global, format: Format, ranges: &[u64]) -> Result<Builder, AllocError>
    requires { length format ≤ length ranges.now }
    ensures { IfOk result (λ b. b ≡ building format (in_level_order format ranges.now) (replicate (length format) no_words)) }
{
    let order = format.levels().len();
    let Some(shape) = Shape::new(alloc, &ranges[..order]) else {
        return Err(AllocError);
    };
    Builder::new(alloc, format, &shape)
}

/// The kernel ready to run, where its result can be begun.
fn begun_kernel<'a, S: Semiring>(
    alloc: Global,
    kernel: &'a Kernel,
    format: Format,
    operands: &'a [Tensor],
    ranges: &'a [u64],
    sizes: &[u64],
) -> Result<Prepared<'a>, AllocError>
    requires enough { length format ≤ length ranges.now }
    requires sizes { sizes.now ≡ in_level_order format ranges.now }
    requires few { StartsFew (letters_of format) sizes.now 1 }
    ensures { IfOk result (IsReadyFor S.arithmetic kernel.now (store_of ranges.now operands.now format)) }
{
    let code = resolve(alloc, kernel.body.as_slice())?;
    let machine = started_machine::<S>(
        alloc,
        kernel,
        code.as_slice(),
        format.levels(),
        operands,
        ranges,
        sizes,
    )?;
    let order = format.order();
    let builder = empty_builder(alloc, format, ranges)?;
    Ok(Prepared {
        alloc,
        kernel,
        code,
        order,
        machine,
        builder,
    })
}

/// Makes a kernel ready to run on operands, with these ranges of its variables and a result of this format.
/// The operands are lent, and the code is resolved. Refused for want of memory, or exactly where the result can't be begun, since dense
/// levels alone would have more positions than may be: the first such level is told, and how many it would have.
pub fn prepare<'a, S: Semiring>(
    alloc: Global,
    kernel: &'a Kernel,
    format: Format,
    operands: &'a [Tensor],
    ranges: &'a [u64],
) -> Result<Prepared<'a>, RunRefusal>
    requires enough { length format ≤ length ranges.now }
    requires small { All (λ range. range ≤ greatest_position_count) ranges.now }
    ensures { MatchResult result (IsReadyFor S.arithmetic kernel.now (store_of ranges.now operands.now format))
        (IsBeginRefusal (store_of ranges.now operands.now format)) }
{
    let Ok(sizes) = level_sizes(alloc, format.levels(), ranges) else {
        return Err(RunRefusal::Memory);
    };
    if let Some(TooLarge { level, count }) = first_too_large(format.levels(), &sizes) {
        let place = Place::Level(level);
        return Err(RunRefusal::SizeLimit { place, count });
    }
    match begun_kernel::<S>(alloc, kernel, format, operands, ranges, &sizes) {
        Ok(prepared) => Ok(prepared),
        Err(_) => Err(RunRefusal::Memory),
    }
}
