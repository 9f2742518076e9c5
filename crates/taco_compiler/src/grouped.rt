//! The kernel of a statement that calls for a workspace, all of whose result's levels have an order: the workspace stands inside the loops
//! over the left variables before the first summed one, and at each of their points it is drained into the result.
ghost use Rattle.std.specs.Prelude.{◌≡◌, ◌+◌, ◌≤◌, ◌∷◌, [], IfOk, length, take, drop};
ghost use Rattle.concrete_notation.specs.Nests.{left_in_order};
ghost use Rattle.concrete_notation.specs.Workspaces.{AreAllDense};
ghost use Rattle.expr_terms.specs.Groups.{groups as groups_of};
ghost use Rattle.nested_sums.specs.Pieces.{HasMeaningWithSums};
ghost use Rattle.grouped_kernels.specs.Workspaces.{BeginsEmpty, IsWorkspace};
ghost use Rattle.iteration_graph.specs.Edges.{format_of};
ghost use Rattle.kernel_code.specs.Semirings.{semiring_of};
ghost use Rattle.row_orders.specs.Orders.{AreOutsideSums};
ghost use Rattle.taco_compiler.specs.Compiled.{IsCompiled};
ghost use Rattle.taco_compiler.specs.Grouping.{AddsLoopsByGroups, AppendsToResult, IsTail, MayBeGrouped};
ghost use Rattle.taco_compiler.specs.Loops.{MayBeLowered};
ghost use Rattle.taco_compiler.specs.Tails.{from_sum, tail_of, tail_workspaces};

use crate::appended::result_sink;
use crate::dense::level_modes;
use crate::lowered::loops_of;
use crate::sparse::left_variables;
use crate::starts::first_places;
use appended_results::{AppendedSink, begin_levels, end_levels};
use drained_workspaces::DrainedWorkspace;
use expr_terms::Groups;
use format_spec::Format;
use grouped_loops::{Grouped, emit_grouped};
use index_notation::Statement;
use kernel_code::{KStmt, Kernel, KernelSemiring};
use kernel_emit::Emitted;
use numbers::Semiring;
use pair_workspaces::PairSink;
use row_orders::is_inside_sum;
use std::alloc::{AllocError, Global};
use term_code::at_top;
use touched_workspaces::{TouchedSink, begin_touched};
use trees::Items;

/// Code of the statement's loops, which add their rows to the result by groups, out of this sink's workspace. No summed variable stands in
/// their order before the variables that a group's rows have in common. Refused for want of memory alone.
fn group_rows<S: Semiring, W: DrainedWorkspace>(
    alloc: Global,
    statement: &Statement,
    formats: &[Format],
    order: &[usize],
    sink: &Grouped<W, AppendedSink>,
) -> Result<Emitted, AllocError>
    requires ready { MayBeLowered statement.now formats.now order.now }
    requires meant { HasMeaningWithSums S.has_minus statement.now }
    requires some { AreAllDense (format_of formats.now statement.now.left.tensor) → ⊥ }
    requires levels { sink.now.outer.now.levels ≡ format_of formats.now statement.now.left.tensor }
    requires base { sink.now.outer.now.base ≡ 0 }
    requires keys { sink.now.first + W.sink.keys sink.now.workspace.now ≡ length (left_in_order statement.now order.now) }
    requires outer { AreOutsideSums statement.now order.now (take sink.now.first (left_in_order statement.now order.now)) }
    ensures { IfOk result (AddsLoopsByGroups S.arithmetic W.sink W.draining statement.now formats.now order.now sink.now) }
{
    let base = sink.outer.base + 4 * sink.outer.levels.len() as u64;
    let loops = loops_of(alloc, statement, formats, order)?;
    let places = first_places(alloc, statement, base)?;
    let left = left_variables(alloc, statement, order)?;
    let target = left.as_slice();
    let emitted = emit_grouped::<S, W, AppendedSink>(
        alloc,
        sink,
        statement,
        formats,
        &places,
        target,
        0,
        &loops,
        0,
        base + 3,
    )?;
    Ok(emitted)
}

/// A kernel over a semiring whose rows are added to the result by groups, out of this sink's workspace, which the code `begun` leaves
/// empty; the kernel has these workspaces. Refused for want of memory alone.
fn kernel_around<S: Semiring, W: DrainedWorkspace>(
    alloc: Global,
    statement: &Statement,
    formats: &[Format],
    order: &[usize],
    sink: &Grouped<W, AppendedSink>,
    begun: Items<KStmt>,
    workspaces: Items<u64>,
) -> Result<Kernel, AllocError>
    requires grouped { MayBeGrouped statement.now formats.now order.now }
    requires meant { HasMeaningWithSums S.has_minus statement.now }
    requires outer { AppendsToResult S.arithmetic statement.now formats.now sink.now.outer.now }
    requires tail { IsTail statement.now formats.now order.now sink.now.first sink.now.modes.now }
    requires keys { W.sink.keys sink.now.workspace.now ≡ length sink.now.modes.now }
    requires workspace { IsWorkspace W.sink W.draining sink.now.workspace.now }
    requires suits { W.draining.suits sink.now.workspace.now workspaces }
    requires spaces { workspaces ≡ tail_workspaces (length (tail_of statement.now order.now)) }
    requires begins { BeginsEmpty W.sink sink.now.workspace.now sink.now.modes.now statement.now workspaces S.arithmetic begun }
    ensures compiled { IfOk result (IsCompiled S.arithmetic statement.now formats.now order.now) }
    ensures over { IfOk result (λ kernel. kernel.semiring ≡ semiring_of S.is_ring S.name) }
{
    let semiring = KernelSemiring::of::<S>(alloc)?;
    let grouped = group_rows::<S, W>(alloc, statement, formats, order, sink)?;
    let levels = sink.outer.levels.as_slice();
    let base = sink.outer.base + 4 * levels.len() as u64;
    let mut body = at_top(alloc, base)?;
    let begin = begin_levels(alloc, levels, sink.outer.base)?;
    body.append(begin)?;
    let mut code = begun;
    code.append(grouped.code)?;
    body.append(code)?;
    let end = end_levels(alloc, levels, sink.outer.base, base)?;
    body.append(end)?;
    Ok(Kernel {
        semiring,
        workspaces,
        lists: grouped.lists,
        body,
    })
}

/// Two workspaces of one key each.
pub(crate) fn two_workspaces(alloc: Global) -> Result<Items<u64>, AllocError>
    ensures { IfOk result (λ workspaces. workspaces ≡ 1 ∷ 1 ∷ []) }
{
    let mut workspaces = Items::new(alloc);
    workspaces.push(1)?;
    workspaces.push(1)?;
    Ok(workspaces)
}

/// A kernel over a semiring whose rows are appended to the result out of marks and sums, or above a range out of a list, of the one
/// variable of the tail. Refused for want of memory alone.
fn marked_kernel<S: Semiring>(
    alloc: Global,
    statement: &Statement,
    formats: &[Format],
    order: &[usize],
    outer: &AppendedSink,
    first: usize,
    modes: &[usize],
) -> Result<Kernel, AllocError>
    requires grouped { MayBeGrouped statement.now formats.now order.now }
    requires meant { HasMeaningWithSums S.has_minus statement.now }
    requires outer { AppendsToResult S.arithmetic statement.now formats.now outer.now }
    requires tail { IsTail statement.now formats.now order.now first modes.now }
    requires one { length modes.now ≡ 1 }
    ensures compiled { IfOk result (IsCompiled S.arithmetic statement.now formats.now order.now) }
    ensures over { IfOk result (λ kernel. kernel.semiring ≡ semiring_of S.is_ring S.name) }
{
    let workspace = TouchedSink {
        dense: 0,
        list: 1,
        variable: modes[0] as u64,
        zero: S::zero(),
    };
    let begun = begin_touched(alloc, workspace)?;
    let workspaces = two_workspaces(alloc)?;
    let sink = Grouped {
        workspace: &workspace,
        outer,
        first,
        modes,
    };
    kernel_around::<S, TouchedSink>(alloc, statement, formats, order, &sink, begun, workspaces)
}

/// One workspace, of so many keys.
fn one_workspace(alloc: Global, keys: u64) -> Result<Items<u64>, AllocError>
    ensures { IfOk result (λ workspaces. workspaces ≡ keys ∷ []) }
{
    let mut workspaces = Items::new(alloc);
    workspaces.push(keys)?;
    Ok(workspaces)
}

/// A kernel over a semiring whose rows are appended to the result out of a list of pairs, by the variables of the tail. Refused for want of
/// memory alone.
fn paired_kernel<S: Semiring>(
    alloc: Global,
    statement: &Statement,
    formats: &[Format],
    order: &[usize],
    outer: &AppendedSink,
    first: usize,
    modes: &[usize],
) -> Result<Kernel, AllocError>
    requires grouped { MayBeGrouped statement.now formats.now order.now }
    requires meant { HasMeaningWithSums S.has_minus statement.now }
    requires outer { AppendsToResult S.arithmetic statement.now formats.now outer.now }
    requires tail { IsTail statement.now formats.now order.now first modes.now }
    requires several { length modes.now ≡ 1 → ⊥ }
    ensures compiled { IfOk result (IsCompiled S.arithmetic statement.now formats.now order.now) }
    ensures over { IfOk result (λ kernel. kernel.semiring ≡ semiring_of S.is_ring S.name) }
{
    let workspace = PairSink {
        number: 0,
        keys: modes.len() as u64,
    };
    let workspaces = one_workspace(alloc, workspace.keys)?;
    let sink = Grouped {
        workspace: &workspace,
        outer,
        first,
        modes,
    };
    let begun = Items::new(alloc);
    kernel_around::<S, PairSink>(alloc, statement, formats, order, &sink, begun, workspaces)
}

/// How many of the left variables, which stand in loop order, come before each summed one.
fn outer_count(statement: &Statement, groups: &Groups, order: &[usize], left: &[usize]) -> usize
    requires { groups.now.list ≡ groups_of statement.now }
    ensures within { result ≤ length left.now }
    ensures outside { AreOutsideSums statement.now order.now (take result left.now) }
    ensures rest { drop result left.now ≡ from_sum statement.now order.now left.now }
{
    for (depth, variable) in left.iter().enumerate() {
        if is_inside_sum(statement, groups, order, *variable) {
            return depth;
        }
    }
    left.len()
}

/// A kernel over a semiring whose result is appended to out of a workspace inside its outer loops: by marks and sums where its tail has one
/// variable, and else by pairs. Refused for want of memory alone.
pub(crate) fn grouped_kernel<S: Semiring>(
    alloc: Global,
    statement: &Statement,
    groups: &Groups,
    formats: &[Format],
    order: &[usize],
) -> Result<Kernel, AllocError>
    requires groups { groups.now.list ≡ groups_of statement.now }
    requires grouped { MayBeGrouped statement.now formats.now order.now }
    requires meant { HasMeaningWithSums S.has_minus statement.now }
    ensures compiled { IfOk result (IsCompiled S.arithmetic statement.now formats.now order.now) }
    ensures over { IfOk result (λ kernel. kernel.semiring ≡ semiring_of S.is_ring S.name) }
{
    let left = left_variables(alloc, statement, order)?;
    let first = outer_count(statement, groups, order, left.as_slice());
    let all = level_modes(alloc, &formats[statement.left.tensor])?;
    let modes = &all.as_slice()[first..];
    let outer = result_sink::<S>(alloc, statement, formats)?;
    if modes.len() == 1 {
        return marked_kernel::<S>(alloc, statement, formats, order, &outer, first, modes);
    }
    paired_kernel::<S>(alloc, statement, formats, order, &outer, first, modes)
}
