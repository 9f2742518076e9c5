//! Statements and loops, one turn after another.
ghost use Rattle.std.specs.Prelude.{◌≡◌, ◌≤◌, ◌+◌, map, IfOk, IsOk};
ghost use Rattle.kernel_code.specs.Meaning.{behind, run, run_list, run_turns, value};
ghost use Rattle.kernel_code.specs.Kernels.{within};
ghost use Rattle.resolved_code.specs.Erase.{erase, erase_value};
ghost use Rattle.resolved_code.specs.Fits.{Reads, Fits, FitsAll};
ghost use Rattle.resolved_code.specs.Rooms.{room_of_code};
ghost use Rattle.kernel_interpreter.specs.Memory.{IsInPlace, Through, Throughout, variable_room};
ghost use Rattle.kernel_interpreter.specs.Store.{state_of, outcome_of, outcome_at, made, setting, IsTold};

use crate::ending::{Ending, Step};
use crate::machine::Machine;
use crate::operands::{applied, operand_at, value_at};
use kernel_code::{LoopKind, Op};
use machine_parts::combine_operands;
use numbers::Semiring;
use resolved_code::{Resolved, Value};
use std::alloc::AllocError;

/// Runs a statement whose variables have places, until `limit` turns are made in all.
#[cycle(run)]
#[inline(always)]
fn run_statement<S: Semiring>(
    machine: &mut Machine,
    s: &Resolved,
    workspaces: &[u64],
    limit: u64,
) -> Step
    requires few { made machine.old + machine.old.turns.left ≡ limit }
    requires room { Fits (variable_room machine.old) s.now }
    ensures is { IsTold result → outcome_at result machine.new
        ≡ within limit (run (setting S.arithmetic workspaces.now) limit (erase s.now) (state_of machine.old)) }
    ensures left { made machine.new + machine.new.turns.left ≡ limit }
    ensures room { variable_room machine.new ≡ variable_room machine.old }
    ensures memory { Throughout IsInPlace (erase s.now) → IsTold result }
{
    match s {
        Resolved::Count(x, n) => {
            let value = applied(Op::Add, machine.slot(*x), Some(*n));
            machine.set(*x, value)
        }
        Resolved::Set(x, v) => {
            let value = value_at(machine, v);
            machine.set(*x, value)
        }
        Resolved::Combine(x, op, v, w) => {
            let first = operand_at(machine, v);
            let second = operand_at(machine, w);
            machine.set(*x, combine_operands::<S>(*op, first, second))
        }
        Resolved::Put(a, i, v) => {
            let i = operand_at(machine, i);
            let value = operand_at(machine, v);
            machine.put(*a, i, value)
        }
        Resolved::AddTo(a, i, v) => {
            let i = operand_at(machine, i);
            let value = operand_at(machine, v);
            machine.add::<S>(*a, i, value)
        }
        Resolved::Push(a, v) => {
            let value = operand_at(machine, v);
            machine.push(*a, value)
        }
        Resolved::Extend(a, count, v) => {
            let n = operand_at(machine, count);
            let value = operand_at(machine, v);
            machine.extend(*a, n, value)
        }
        Resolved::Cut(a, v) => {
            let n = operand_at(machine, v);
            machine.cut(*a, n)
        }
        Resolved::Sort(list) => match machine.sort(*list) {
            Ok(step) => step,
            Err(_) => Step::Memory,
        },
        Resolved::SortSum(workspace) => match machine.sort_sum::<S>(*workspace, workspaces) {
            Ok(step) => step,
            Err(_) => Step::Memory,
        },
        Resolved::If(test, first, second) => match value_at(machine, test) {
            None => Step::Stuck,
            Some(0) => {
                let step = run_body::<S>(machine, second.as_slice(), workspaces, limit);
                let step = machine.behind(step, first.as_slice());
                machine.inside(step)
            }
            Some(_) => {
                let step = run_body::<S>(machine, first.as_slice(), workspaces, limit);
                machine.inside(step)
            }
        },
        Resolved::While(kind, test, body) => {
            run_loop::<S>(machine, body.as_slice(), *kind, test, workspaces, limit)
        }
    }
}

/// Runs statements in order.
#[cycle(run)]
#[inline(always)]
fn run_in_order<S: Semiring>(
    machine: &mut Machine,
    statements: &[Resolved],
    workspaces: &[u64],
    limit: u64,
) -> Step
    requires few { made machine.old + machine.old.turns.left ≡ limit }
    requires room { FitsAll (variable_room machine.old) statements.now }
    ensures is { IsTold result → outcome_at result machine.new
        ≡ within limit (run_list (setting S.arithmetic workspaces.now) limit (map erase statements.now) (state_of machine.old)) }
    ensures left { made machine.new + machine.new.turns.left ≡ limit }
    ensures room { variable_room machine.new ≡ variable_room machine.old }
    ensures memory { Through IsInPlace (map erase statements.now) → IsTold result }
{
    for (i, s) in statements.iter().enumerate() {
        let step = run_statement::<S>(machine, s, workspaces, limit);
        if !step.has_ended() {
            return machine.behind(step, &statements[..i]);
        }
    }
    Step::Ended
}

/// Runs a body of an `if`. It is a call, so that the statements of a loop can be run where the loop is.
#[cycle(run)]
#[inline(never)]
fn run_body<S: Semiring>(
    machine: &mut Machine,
    statements: &[Resolved],
    workspaces: &[u64],
    limit: u64,
) -> Step
    requires few { made machine.old + machine.old.turns.left ≡ limit }
    requires room { FitsAll (variable_room machine.old) statements.now }
    ensures is { IsTold result → outcome_at result machine.new
        ≡ within limit (run_list (setting S.arithmetic workspaces.now) limit (map erase statements.now) (state_of machine.old)) }
    ensures left { made machine.new + machine.new.turns.left ≡ limit }
    ensures room { variable_room machine.new ≡ variable_room machine.old }
    ensures memory { Through IsInPlace (map erase statements.now) → IsTold result }
{
    run_in_order::<S>(machine, statements, workspaces, limit)
}

/// Runs a loop from its test on, until `limit` turns are made in all.
#[cycle(run)]
#[inline(never)]
fn run_loop<S: Semiring>(
    machine: &mut Machine,
    body: &[Resolved],
    kind: LoopKind,
    test: &Value,
    workspaces: &[u64],
    limit: u64,
) -> Step
    requires few { made machine.old + machine.old.turns.left ≡ limit }
    requires test { Reads (variable_room machine.old) test.now }
    requires room { FitsAll (variable_room machine.old) body.now }
    ensures is { IsTold result → outcome_at result machine.new
        ≡ within limit (run_turns limit kind (value (erase_value test.now))
        (λ s. behind 1 (run_list (setting S.arithmetic workspaces.now) limit (map erase body.now) s)) (state_of machine.old)) }
    ensures left { made machine.new + machine.new.turns.left ≡ limit }
    ensures room { variable_room machine.new ≡ variable_room machine.old }
    ensures memory { Through IsInPlace (map erase body.now) → IsTold result }
{
    for _ in 0..limit {
        match value_at(machine, test) {
            None => return Step::Stuck,
            Some(0) => return Step::Ended,
            Some(_) => {}
        }
        if machine.has_no_turn() {
            return Step::More;
        }
        machine.count_turn(kind);
        let step = run_in_order::<S>(machine, body, workspaces, limit);
        if !step.has_ended() {
            return machine.inside(step);
        }
    }
    match value_at(machine, test) {
        None => Step::Stuck,
        Some(0) => Step::Ended,
        Some(_) => Step::More,
    }
}

/// Runs code, each of whose variables has a place, until `limit` turns are made in all.
pub fn run_statements<S: Semiring>(
    machine: &mut Machine,
    code: &[Resolved],
    workspaces: &[u64],
    limit: u64,
) -> Result<Ending, AllocError>
    requires few { made machine.old ≤ limit }
    requires room { room_of_code code.now ≤ variable_room machine.old }
    ensures is { IfOk result (λ ending. outcome_of ending (state_of machine.new)
        ≡ within limit (run_list (setting S.arithmetic workspaces.now) limit (map erase code.now) (state_of machine.old))) }
    ensures room { variable_room machine.new ≡ variable_room machine.old }
    ensures memory { Through IsInPlace (map erase code.now) → IsOk result }
{
    machine.allow(limit);
    let step = run_in_order::<S>(machine, code, workspaces, limit);
    machine.ending(step)
}
