//! The arrays of the result's levels, taken out of the machine.
ghost use Rattle.std.specs.Prelude.{◌≡◌, ℕ, List, Some, false, true, length};
ghost use Rattle.kernel_code.specs.declared.syntax.Arr.{Arr};
ghost use Rattle.kernel_code.specs.Arrays.{same_arr, may_write};
ghost use Rattle.level_core.specs.Fragments.{IsOf};
ghost use Rattle.kernel_interpreter.specs.Store.{state_of};
ghost use Rattle.kernel_machine.specs.Runs.{WordsLeft, WasHanded};

use kernel_code::Arr;
use kernel_interpreter::Machine;
use seg_buffer::Segment;
use std::alloc::Global;
use storage_builder::Builder;
use tensor_storage::LevelWords;

/// The words of an array, taken out of the machine: none where the array isn't there.
pub(crate) fn taken_array(machine: &mut Machine, alloc: Global, array: Arr) -> Segment<u64>
    requires { may_write array ≡ true }
    ensures words { (xs : List ℕ) → (state_of machine.old).arrays array ≡ Some xs → xs ≡ result.items }
    ensures others { (b : Arr) → same_arr array b ≡ false → (state_of machine.new).arrays b ≡ (state_of machine.old).arrays b }
{
    match machine.take_array(array) {
        Some(words) => words,
        None => Segment::new(alloc),
    }
}

/// What is left of a level, taken out of the machine: no words of an array that the level doesn't have.
pub(crate) fn taken_words(machine: &mut Machine, alloc: Global, level: u64) -> LevelWords
    ensures words { WordsLeft level result (state_of machine.old).arrays }
    ensures others { (b : Arr) → (IsOf 0 level b → ⊥) → (state_of machine.new).arrays b ≡ (state_of machine.old).arrays b }
{
    let ends = taken_array(machine, alloc, Arr::Ends(0, level));
    let width = taken_array(machine, alloc, Arr::Width(0, level));
    let coordinates = taken_array(machine, alloc, Arr::Coordinates(0, level));
    LevelWords {
        ends,
        width,
        coordinates,
    }
}

/// Hands over the arrays of each level.
pub(crate) fn hand_over(machine: &mut Machine, builder: &mut Builder, alloc: Global, order: usize)
    requires order { order ≡ length builder.old.format }
    requires long { length builder.old.parts ≡ order }
    ensures { WasHanded builder.old (state_of machine.old).arrays builder.new (state_of machine.new).arrays }
{
    for number in 0..order {
        let words = taken_words(machine, alloc, number as u64 + 1);
        builder.hand_over(number + 1, words);
    }
}
