//! The arrays of the result as a run starts.
ghost use Rattle.std.specs.Prelude.{◌≡◌, ◌≤◌, ◌+◌, ◌^◌, ◌<◌, IfOk, OnOk, length};
ghost use Rattle.limits.specs.Limits.{greatest_position_count};
ghost use Rattle.level_core.specs.declared.letter.Letter.{Letter};
ghost use Rattle.format_spec.specs.Formats.{letters_of};
ghost use Rattle.kernel_interpreter.specs.Store.{state_of};
ghost use Rattle.machine_starts.specs.Begun.{begun, begun_result, sizes_lent, with_zeros, IsFew};

use format_spec::FormatLevel;
use kernel_code::Arr;
use kernel_interpreter::Machine;
use level_core::{Letter, LevelArray, positions_at_start, props_of, zeros_at_start};
use seg_buffer::Segment;
use std::alloc::{AllocError, Global};

/// An array of a level of a kind, below so many parents, if it is one that the run makes.
fn begin_array(
    machine: &mut Machine,
    alloc: Global,
    letter: Letter,
    array: LevelArray,
    level: u64,
    parents: u64,
) -> Result<(), AllocError>
    requires { parents ≤ greatest_position_count }
    ensures { OnOk result (state_of machine.new ≡ with_zeros letter array parents level (state_of machine.old)) }
{
    match zeros_at_start(letter, array, parents) {
        None => Ok(()),
        Some(count) => {
            let zeros = Segment::filled(alloc, count as usize, 0)?;
            machine.add_array(array.named(0, level), zeros)?;
            Ok(())
        }
    }
}

/// The arrays of a level of a kind, below so many parents.
fn begin_level(
    machine: &mut Machine,
    alloc: Global,
    letter: Letter,
    level: u64,
    parents: u64,
) -> Result<(), AllocError>
    requires { parents ≤ greatest_position_count }
    ensures { OnOk result (state_of machine.new ≡ begun letter parents level (state_of machine.old)) }
{
    begin_array(machine, alloc, letter, LevelArray::Ends, level, parents)?;
    begin_array(machine, alloc, letter, LevelArray::Width, level, parents)?;
    begin_array(
        machine,
        alloc,
        letter,
        LevelArray::Coordinates,
        level,
        parents,
    )?;
    Ok(())
}

/// The ranges of a result's levels, each where a run has an array of it: of full levels alone. Refused for want of memory alone.
pub fn sizes_lent(
    alloc: Global,
    format: &[FormatLevel],
    sizes: &[u64],
) -> Result<Vec<Option<u64>>, AllocError>
    requires { length sizes.now ≡ length format.now }
    ensures { IfOk result (λ lent. lent.items ≡ sizes_lent (letters_of format.now) sizes.now) }
{
    let mut lent = Vec::with_capacity(alloc, format.len())?;
    for number in 0..format.len() {
        let full = props_of(format[number].letter).full;
        lent.push(full.then_some(sizes[number]))?;
    }
    Ok(lent)
}

/// The arrays of a result of these levels and their ranges, and its values, each of which is nothing. Refused for want of memory alone.
pub fn begin_result(
    machine: &mut Machine,
    alloc: Global,
    format: &[FormatLevel],
    sizes: &[u64],
    nothing: u64,
) -> Result<(), AllocError>
    requires same { length sizes.now ≡ length format.now }
    requires few { IsFew (letters_of format.now) sizes.now 1 }
    ensures { OnOk result (state_of machine.new ≡ begun_result nothing (letters_of format.now) sizes.now 1 1 (state_of machine.old)) }
{
    let mut parents = 1;
    for number in 0..format.len() {
        let letter = format[number].letter;
        begin_level(machine, alloc, letter, number as u64 + 1, parents)?;
        let positions = positions_at_start(letter, sizes[number], parents);
        parents = positions as u64;
    }
    let values = Segment::filled(alloc, parents as usize, nothing)?;
    machine.add_array(Arr::Values(0), values)?;
    Ok(())
}
