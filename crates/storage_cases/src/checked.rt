//! A kernel of which nothing is known, run by `run_checked`: the tensor that it makes, or why it makes none.
use crate::run::{tell_turns, tensor_of};
use crate::tensors::format_of;
use crate::values::{tell_level_limit, tell_store};
use case_files::{Answer, keyword_of};
use kernel_code::{Kernel, Place};
use kernel_machine::{CheckedFault, run_checked};
use numbers::Semiring;
use tensor_map::Shape;

/// Why a kernel has no result.
fn tell_fault(answer: &mut Answer, fault: CheckedFault) {
    match fault {
        CheckedFault::Trap { statement } => {
            answer.tell("trap at statement ");
            answer.show(statement);
        }
        CheckedFault::Budget => answer.tell("budget"),
        CheckedFault::SizeLimit {
            place: Place::Level(level),
            count,
        } => tell_level_limit(answer, level, count),
        CheckedFault::SizeLimit {
            place: Place::Workspace,
            count,
        } => {
            answer.tell("size limit: workspace would have ");
            answer.show(count);
            answer.tell(" pairs");
        }
        CheckedFault::BadStore => answer.tell("no storage"),
        CheckedFault::Memory => answer.tell("no memory"),
    }
}

/// What comes of a kernel on the tensor of a line, within the turns and with a result of the format and the ranges that another line says.
pub(crate) fn tell_checked<S: Semiring>(
    answer: &mut Answer,
    tensor: &str,
    line: &str,
    kernel: &Kernel,
) -> Option<()> {
    let mut parts = line.split('|');
    let (budget, format) = keyword_of(parts.next()?.trim());
    let budget = budget.parse::<u64>().ok()?;
    let ranges = answer.numbers(parts.next()?)?;
    let shape = Shape::new(answer.alloc(), ranges.as_slice())?;
    let format = format_of(answer.alloc(), format, shape.order())?;
    if format.order() != shape.order() {
        return None;
    }
    let operands = [tensor_of(answer, tensor)?];
    let alloc = answer.alloc();
    match run_checked::<S>(alloc, kernel, format, &operands, shape.ranges(), budget) {
        Ok((result, turns)) => {
            answer.tell("turns");
            tell_turns(answer, turns);
            tell_store::<S>(answer, 0, &result)
        }
        Err(fault) => {
            tell_fault(answer, fault);
            Some(())
        }
    }
}
