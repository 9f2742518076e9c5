//! The operands of what the words ask for, from their files.
ghost use Rattle.std.specs.Prelude.{◌≡◌, ℕ, List, map, true, IfOk, IfErr};
ghost use Rattle.index_notation.specs.Statement.{IsNumberedWithSums};
ghost use Rattle.bindings.specs.Tables.{file_in, path_to, paths_in};
ghost use Rattle.operand_files.specs.Reads.{OnlyReads};
ghost use Rattle.taco_top.specs.Asked.{needs_files};
ghost use Rattle.taco_top.specs.Written.{IsAccepted, HasOperands};
ghost use Rattle.taco_top.specs.Refused.{Stops};
ghost use Rattle.taco_top.specs.Values.{semiring};
ghost use Rattle.taco_top.specs.Run.{orders_of as orders_of_operands, operand_path, path_of as path_of_tensor};
ghost use Rattle.taco_top.specs.Run.{paths_of as paths_of_operands};
ghost use Rattle.taco_top.specs.Run.{request_of};

use crate::asked::Asked;
use bindings::{Bindings, FileFormat, TensorFile, first_named, order_of};
use index_notation::Statement;
use numbers::Semiring;
use operand_files::{OperandFault, Operands, read_operands};
use outside::Folder;
use refusals::Fault;
use std::alloc::{AllocError, Global};

/// The file of a tensor, if it has one.
pub(crate) fn file_of<'a>(bindings: &Bindings<'a>, tensor: usize) -> Option<TensorFile<'a>>
    ensures { path_to result ≡ path_of_tensor (map file_in bindings.now.files.entries) tensor }
{
    bindings.files.get(&tensor).copied()
}

/// The file of an operand, with an empty path where it has none.
fn operand_file<'a>(statement: &Statement, bindings: &Bindings<'a>, tensor: usize) -> TensorFile<'a>
    ensures { result.path.now ≡ operand_path statement.now (map file_in bindings.now.files.entries) tensor }
{
    match file_of(bindings, first_named(statement.tensors.as_slice(), tensor)) {
        Some(file) => file,
        None => TensorFile {
            path: "",
            format: FileFormat::Coordinates,
        },
    }
}

/// The order of each operand.
pub(crate) fn orders_of(alloc: Global, statement: &Statement) -> Result<Vec<usize>, AllocError>
    ensures { IfOk result (λ orders. orders.items ≡ orders_of_operands statement.now) }
{
    let mut orders = Vec::new(alloc);
    for n in 0..statement.tensors.len().saturating_sub(1) {
        orders.push(order_of(statement, n + 1))?;
    }
    Ok(orders)
}

/// The file of each operand.
pub(crate) fn files_of<'a>(
    alloc: Global,
    statement: &Statement,
    bindings: &Bindings<'a>,
) -> Result<Vec<TensorFile<'a>>, AllocError>
    ensures { IfOk result (λ files. paths_in files.items
        ≡ paths_of_operands statement.now (map file_in bindings.now.files.entries)) }
{
    let mut files = Vec::new(alloc);
    for n in 0..statement.tensors.len().saturating_sub(1) {
        files.push(operand_file(statement, bindings, n + 1))?;
    }
    Ok(files)
}

/// Reads the operands' files, each to its end, in the order of the tensors' numbers.
pub(crate) fn operands_of<'a, S: Semiring, F: Folder>(
    alloc: Global,
    asked: &Asked<'a>,
    files: &mut F,
) -> Result<Operands, Fault<'a>>
    requires accepted { (words : List (List ℕ)) × IsAccepted words (request_of asked.now) }
    requires numbered { IsNumberedWithSums asked.now.statement }
    requires reads { needs_files asked.now.task ≡ true }
    ensures only_reads { OnlyReads (F.state files.old) (F.state files.new) }
    ensures read { IfOk result (λ operands. (words : List (List ℕ)) → IsAccepted words (request_of asked.now)
        → HasOperands (semiring S.arithmetic S.has_minus S.is_ring S.is_signed S.name) words (F.state files.old) (F.state files.new)
        (request_of asked.now) operands.entries.items operands.bounds.items) }
    ensures refused { IfErr result (λ fault. (words : List (List ℕ)) → IsAccepted words (request_of asked.now)
        → Stops (semiring S.arithmetic S.has_minus S.is_ring S.is_signed S.name) words (F.state files.old) (F.state files.new) fault) }
{
    let orders = orders_of(alloc, &asked.statement)?;
    let sources = files_of(alloc, &asked.statement, &asked.bindings)?;
    match read_operands::<F, S>(alloc, files, orders.as_slice(), sources.as_slice()) {
        Ok(operands) => Ok(operands),
        Err(OperandFault::ReadFault(path)) => Err(Fault::ReadFault(path)),
        Err(OperandFault::FileBytes(path)) => Err(Fault::FileBytes(path)),
        Err(OperandFault::BadFile { path, line, kind }) => Err(Fault::BadFile { path, line, kind }),
        Err(OperandFault::Memory) => Err(Fault::Memory),
    }
}
