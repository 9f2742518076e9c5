//! The kernel of a statement whose result isn't dense and which calls for no workspace: loops that append their rows to the result's levels
//! in place, as they come.
ghost use Rattle.std.specs.Prelude.{◌≡◌, false, IfOk, length};
ghost use Rattle.concrete_notation.specs.Workspaces.{AreAllDense};
ghost use Rattle.nested_sums.specs.Pieces.{HasMeaningWithSums};
ghost use Rattle.iteration_graph.specs.Edges.{HasFormat, format_of};
ghost use Rattle.kernel_code.specs.Semirings.{semiring_of};
ghost use Rattle.row_orders.specs.Takings.{calls_for_workspace};
ghost use Rattle.row_orders.specs.Heads.{head_levels};
ghost use Rattle.taco_compiler.specs.Appending.{AppendsLoops};
ghost use Rattle.taco_compiler.specs.Compiled.{IsCompiled};
ghost use Rattle.taco_compiler.specs.Loops.{MayBeLowered};

use crate::lowered::loops_of;
use crate::sparse::left_variables;
use crate::starts::first_places;
use appended_results::{AppendedSink, begin_levels, end_levels};
use format_spec::{Format, FormatLevel};
use index_notation::Statement;
use kernel_code::{Kernel, KernelSemiring};
use kernel_emit::{Emitted, emit};
use numbers::Semiring;
use row_orders::head_length;
use std::alloc::{AllocError, Global};
use term_code::at_top;
use trees::Items;

/// The levels of a format. Refused for want of memory alone.
fn levels_of(alloc: Global, format: &Format) -> Result<Items<FormatLevel>, AllocError>
    ensures { IfOk result (λ levels. levels ≡ format.now) }
{
    let mut levels = Items::new(alloc);
    for level in format.levels() {
        levels.push(*level)?;
    }
    Ok(levels)
}

/// The sink that appends rows to a statement's result. Its variables are the first ones. Refused for want of memory alone.
pub(crate) fn result_sink<S: Semiring>(
    alloc: Global,
    statement: &Statement,
    formats: &[Format],
) -> Result<AppendedSink, AllocError>
    requires { HasFormat formats.now statement.now.left }
    ensures levels { IfOk result (λ sink. sink.levels ≡ format_of formats.now statement.now.left.tensor) }
    ensures head { IfOk result (λ sink. sink.head ≡ length (head_levels (format_of formats.now statement.now.left.tensor))) }
    ensures base { IfOk result (λ sink. sink.base ≡ 0) }
    ensures zero { IfOk result (λ sink. sink.zero ≡ S.arithmetic.zero) }
{
    let format = &formats[statement.left.tensor];
    Ok(AppendedSink {
        levels: levels_of(alloc, format)?,
        head: head_length(format),
        base: 0,
        zero: S::zero(),
    })
}

/// Code of the statement's loops, which append their rows to the result: by this sink, behind whose variables the places stand. Refused for
/// want of memory alone.
fn append_rows<S: Semiring>(
    alloc: Global,
    statement: &Statement,
    formats: &[Format],
    order: &[usize],
    sink: &AppendedSink,
) -> Result<Emitted, AllocError>
    requires ready { MayBeLowered statement.now formats.now order.now }
    requires meant { HasMeaningWithSums S.has_minus statement.now }
    requires some { AreAllDense (format_of formats.now statement.now.left.tensor) → ⊥ }
    requires levels { sink.now.levels ≡ format_of formats.now statement.now.left.tensor }
    requires base { sink.now.base ≡ 0 }
    ensures { IfOk result (AppendsLoops S.arithmetic statement.now formats.now order.now sink.now) }
{
    let base = sink.base + 4 * sink.levels.len() as u64;
    let loops = loops_of(alloc, statement, formats, order)?;
    let places = first_places(alloc, statement, base)?;
    let left = left_variables(alloc, statement, order)?;
    let target = left.as_slice();
    let emitted = emit::<S, AppendedSink>(
        alloc,
        sink,
        statement,
        formats,
        &places,
        target,
        &loops,
        0,
        base + 3,
    )?;
    Ok(emitted)
}

/// A kernel over a semiring whose loops append their rows to the result's levels in place. Refused for want of memory alone.
pub(crate) fn appended_kernel<S: Semiring>(
    alloc: Global,
    statement: &Statement,
    formats: &[Format],
    order: &[usize],
) -> Result<Kernel, AllocError>
    requires ready { MayBeLowered statement.now formats.now order.now }
    requires meant { HasMeaningWithSums S.has_minus statement.now }
    requires some { AreAllDense (format_of formats.now statement.now.left.tensor) → ⊥ }
    requires none { calls_for_workspace statement.now formats.now order.now ≡ false }
    ensures compiled { IfOk result (IsCompiled S.arithmetic statement.now formats.now order.now) }
    ensures over { IfOk result (λ kernel. kernel.semiring ≡ semiring_of S.is_ring S.name) }
{
    let semiring = KernelSemiring::of::<S>(alloc)?;
    let sink = result_sink::<S>(alloc, statement, formats)?;
    let appended = append_rows::<S>(alloc, statement, formats, order, &sink)?;
    let levels = sink.levels.as_slice();
    let base = sink.base + 4 * levels.len() as u64;
    let mut body = at_top(alloc, base)?;
    let begin = begin_levels(alloc, levels, sink.base)?;
    body.append(begin)?;
    body.append(appended.code)?;
    let end = end_levels(alloc, levels, sink.base, base)?;
    body.append(end)?;
    let workspaces = Items::new(alloc);
    Ok(Kernel {
        semiring,
        workspaces,
        lists: appended.lists,
        body,
    })
}
