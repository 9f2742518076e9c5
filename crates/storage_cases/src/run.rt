//! A kernel's body run on the arrays of all cases, and what it leaves.
ghost use Rattle.std.specs.Prelude.{◌≡◌, ◌<◌, ◌≤◌, true, IfOk, IfSome};
ghost use Rattle.kernel_code.specs.Arrays.{may_write};
ghost use Rattle.storage_arrays.specs.Arrays.{AreDone};
ghost use Rattle.resolved_code.specs.Rooms.{room_of_code};
ghost use Rattle.kernel_interpreter.specs.Memory.{variable_room};
ghost use Rattle.kernel_interpreter.specs.Store.{made};

use crate::names::OWN;
use crate::tensors::{Parts, pack};
use case_files::Answer;
use kernel_code::{Arr, KStmt, Turns};
use kernel_interpreter::{Ending, Machine, make_room, run_statements};
use lent_arrays::{LentArrays, Operand};
use machine_starts::lent_operands;
use numbers::Semiring;
use resolved_code::{Resolved, resolve};
use seg_buffer::Segment;
use std::alloc::{AllocError, Global};
use tensor_storage::Tensor;

/// The turns that a run may make.
const TURNS: u64 = 1000;

/// The tensor of a line, packed; none where the line says none, or for want of memory.
pub(crate) fn tensor_of(answer: &mut Answer, line: &str) -> Option<Tensor>
    ensures { IfSome result (λ t. AreDone 1 t.levels) }
{
    match pack(answer, Parts::of(line)?)? {
        Ok(tensor) => Some(tensor),
        Err(_) => None,
    }
}

/// An array that a run may write, by its place in the table, and the number of words that it starts with.
fn own_array(number: usize) -> (Arr, usize)
    requires { number < 8 }
    ensures { may_write result.0 ≡ true }
{
    let (_name, own) = OWN[number];
    own
}

/// The word that an array starts with: values with the zero of their semiring.
fn first_word(array: Arr, zero: u64) -> u64 {
    match array {
        Arr::Values(_) => zero,
        _ => 0,
    }
}

/// A machine with the arrays of all cases, of which the result's values are this zero, and these operands, and with a place for each
/// variable of code.
fn started<'a>(
    alloc: Global,
    zero: u64,
    ranges: &'a [u64],
    operands: Vec<Operand<'a>>,
    code: &[Resolved],
) -> Result<Machine<'a>, AllocError>
    ensures made { IfOk result (λ m. made m ≡ 0) }
    ensures room { IfOk result (λ m. room_of_code code.now ≤ variable_room m) }
{
    let lent = LentArrays {
        ranges,
        sizes: Vec::new(alloc),
        operands,
    };
    let mut machine = Machine::new(alloc, lent);
    for number in 0..OWN.len() {
        let (array, count) = own_array(number);
        let word = first_word(array, zero);
        machine.add_array(array, Segment::filled(alloc, count, word)?)?;
    }
    make_room(&mut machine, code)?;
    Ok(machine)
}

/// How a run ended, and its turns. Where it is stuck, the number of the statement is told, and where a growth was refused, its count.
fn tell_ending(answer: &mut Answer, ending: Ending, turns: Turns) {
    match ending {
        Ending::Ended => answer.tell("ended\n"),
        Ending::Stuck { statement } => {
            answer.tell("stuck at");
            answer.show_all(&[statement]);
            answer.tell("\n");
        }
        Ending::More => answer.tell("more turns\n"),
        Ending::Over { array, count } => {
            answer.tell("over\n    ");
            answer.show(array);
            answer.show_all(&[count]);
            answer.tell("\n");
        }
    }
    answer.tell("   ");
    tell_turns(answer, turns);
}

/// The turns of each kind, each behind a blank and its name.
pub(crate) fn tell_turns(answer: &mut Answer, turns: Turns) {
    let counts = [
        ("merge", turns.merge),
        ("skip", turns.skip),
        ("gather", turns.gather),
        ("drain", turns.drain),
        ("probe", turns.probe),
    ];
    for (kind, count) in &counts {
        answer.tell(" ");
        answer.tell(*kind);
        answer.show_all(&[*count]);
    }
    answer.tell("\n");
}

/// The arrays that have words, with these.
fn tell_arrays(answer: &mut Answer, machine: &Machine) {
    for number in 0..OWN.len() {
        let (name, (array, _zeros)) = OWN[number];
        let words = machine.array(array).unwrap_or(&[]);
        if !words.is_empty() {
            answer.tell("    ");
            answer.tell(name);
            answer.show_all(words);
            answer.tell("\n");
        }
    }
}

/// What a run over a semiring leaves, on the tensor of a line; none where the line says none, or for want of memory.
pub(crate) fn tell_run<S: Semiring>(answer: &mut Answer, line: &str, code: &[KStmt]) -> Option<()> {
    let alloc = answer.alloc();
    let tensors = [tensor_of(answer, line)?];
    let operands = lent_operands(alloc, &tensors);
    let operands = answer.made(operands)?;
    let code = resolve(alloc, code);
    let code = answer.made(code)?;
    let machine = started(alloc, S::zero(), &[6, 7], operands, code.as_slice());
    let mut machine = answer.made(machine)?;
    let ending = run_statements::<S>(&mut machine, code.as_slice(), &[1], TURNS);
    let ending = answer.made(ending)?;
    tell_ending(answer, ending, machine.turns());
    tell_arrays(answer, &machine);
    Some(())
}
