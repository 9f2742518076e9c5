//! Operands packed one after another.
ghost use Rattle.std.specs.Prelude.{◌≡◌, ◌≢◌, ◌+◌, ◌<◌, ℕ, List, [], false, true, length, slice_index, IfOk, OnOk, MatchResult};
ghost use Rattle.std.specs.List.{range_with_len};
ghost use Rattle.numbers.specs.Arithmetic.{Arithmetic};
ghost use Rattle.tensor_map.specs.Entries.{Entry as AnEntry};
ghost use Rattle.format_spec.specs.declared.format.FormatLevel.{FormatLevel as ALevel};
ghost use Rattle.tensor_map.specs.Coords.{IsShape};
ghost use Rattle.tensor_storage.specs.Arranged.{IsRefusalOf};
ghost use Rattle.operand_packing.specs.Drawn.{HaveOperands, StandsFor, drawn};
ghost use Rattle.operand_packing.specs.Packed.{AreSummed, ArePackedOperands, IsPackedOperand, IsPackRefusal};
ghost use Rattle.operand_packing.specs.Packed.{MayBePacked, MayAllBePacked, MayNotPack};

use crate::large_level::LargeLevel;
use crate::sizes::sizes_of;
use format_spec::Format;
use index_notation::Statement;
use numbers::Semiring;
use std::alloc::{AllocError, Global};
use tensor_map::{Entries, Shape};
use tensor_storage::{PackRefusal, Tensor};

/// Why operands aren't packed.
#[derive(Debug, Drop)]
pub enum PackFault {
    /// This level is the first of the first operand that would have more positions than may be.
    SizeLimit(LargeLevel),
    /// Want of memory.
    Memory(AllocError),
}

impl From<AllocError> for PackFault {
    ghost use Rattle.std.specs.Prelude.{◌≡◌};
    ghost use Rattle.operand_packing.specs.declared.packing.PackFault.TheVariants as pack_faults;

    ghost from_gives = { λ error fault. fault ≡ pack_faults.Memory error };

    fn from(error: AllocError) -> PackFault {
        PackFault::Memory(error)
    }
}

/// Why the tensor of this number isn't packed.
fn fault_of(tensor: usize, refusal: PackRefusal) -> PackFault
    ensures { (a : Arithmetic) (format : List ALevel) (sizes : List ℕ) (entries summed : List AnEntry)
        → AreSummed a (length format) entries summed → IsRefusalOf format sizes summed refusal
        → IsPackRefusal a format sizes entries tensor result }
{
    match refusal {
        PackRefusal::Memory => PackFault::Memory(AllocError),
        PackRefusal::SizeLimit { level, count } => PackFault::SizeLimit(LargeLevel {
            tensor,
            level,
            count,
        }),
    }
}

/// Puts the entries of an operand in order, and sums up those that have the same coordinates. Refused for want of memory alone.
fn sum_up<S: Semiring>(entries: &mut Entries) -> Result<(), AllocError>
    ensures order { entries.new.order ≡ entries.old.order }
    ensures summed { OnOk result (AreSummed S.arithmetic entries.old.order entries.old.list entries.new.list) }
{
    entries.sort_sum::<S>()?;
    Ok(())
}

/// The shape of these sizes.
fn shape_of(alloc: Global, sizes: &[u64]) -> Shape
    requires { IsShape sizes.now }
    ensures { result ≡ sizes.now }
{
    Shape::new(alloc, sizes).unwrap()
}

/// Lets the entries of an operand go, and the memory that they take.
fn let_go(alloc: Global, entries: &mut Entries)
    ensures { entries.new.list ≡ [] }
{
    let order = entries.order();
    *entries = Entries::new(alloc, order).unwrap();
}

/// Packs an operand with these sizes of its modes. Its entries are put in order and summed up where several have the same coordinates.
fn pack_summed<S: Semiring>(
    alloc: Global,
    format: &Format,
    sizes: &[u64],
    tensor: usize,
    entries: &mut Entries,
) -> Result<Tensor, PackFault>
    requires { MayBePacked format.now sizes.now entries.old }
    ensures packed { MatchResult result
        (λ packed. IsPackedOperand S.arithmetic format.now sizes.now entries.old.list packed)
        (IsPackRefusal S.arithmetic format.now sizes.now entries.old.list tensor) }
    ensures kept { OnOk result (StandsFor S.arithmetic entries.old entries.new) }
{
    sum_up::<S>(entries)?;
    let shape = shape_of(alloc, sizes);
    match Tensor::pack::<S>(alloc, format.copied(), &shape, entries) {
        Ok(packed) => Ok(packed),
        Err(refusal) => Err(fault_of(tensor, refusal)),
    }
}

/// Packs an operand so, and lets its entries go where they aren't stored again.
fn pack_operand<S: Semiring>(
    alloc: Global,
    format: &Format,
    sizes: &[u64],
    tensor: usize,
    entries: &mut Entries,
    again: bool,
) -> Result<Tensor, PackFault>
    requires { MayBePacked format.now sizes.now entries.old }
    ensures packed { MatchResult result
        (λ packed. IsPackedOperand S.arithmetic format.now sizes.now entries.old.list packed)
        (IsPackRefusal S.arithmetic format.now sizes.now entries.old.list tensor) }
    ensures kept { again ≡ true → OnOk result (StandsFor S.arithmetic entries.old entries.new) }
{
    match pack_summed::<S>(alloc, format, sizes, tensor, entries) {
        Ok(packed) => {
            if !again {
                let_go(alloc, entries);
            }
            Ok(packed)
        }
        Err(fault) => Err(fault),
    }
}

/// Whether the number at a place comes again behind it.
fn comes_again(numbers: &[usize], place: usize) -> bool
    requires { place < length numbers.now }
    ensures { result ≡ false → (later : ℕ) → place < later → later < length numbers.now
        → slice_index numbers.now later ≢ slice_index numbers.now place }
{
    for later in place + 1..numbers.len() {
        if numbers[later] == numbers[place] {
            return true;
        }
    }
    false
}

/// Packs the tensors of a statement from 1 on, each in its format and from the entries of one of the operands: `origins` has its number,
/// counted from 1. An operand's entries are put in order and summed up, and stand where they stood until the last tensor that stores them
/// is packed: then they are let go.
///
/// A mode's size is the greatest range of the variables that stand there in any access of the tensor. `formats` has the format of each
/// tensor, the result's first. Refused for the first level of the first tensor that would have more positions than may be, or for want of
/// memory.
pub fn pack_drawn<S: Semiring>(
    alloc: Global,
    statement: &Statement,
    formats: &[Format],
    origins: &[usize],
    ranges: &[u64],
    operands: &mut [Entries],
) -> Result<Vec<Tensor>, PackFault>
    requires many { length formats.now ≡ length origins.now + 1 }
    requires known { HaveOperands origins.now operands.old }
    requires may { MayAllBePacked statement.now formats.now (slice_index ranges.now) (drawn origins.now operands.old) }
    ensures { MatchResult result
        (λ packed. ArePackedOperands S.arithmetic statement.now formats.now (slice_index ranges.now) (drawn origins.now operands.old)
        packed.items)
        (MayNotPack S.arithmetic statement.now formats.now (slice_index ranges.now) (drawn origins.now operands.old)) }
{
    let mut tensors = Vec::new(alloc);
    for number in 0..origins.len() {
        let tensor = number + 1;
        let again = comes_again(origins, number);
        let format = &formats[tensor];
        let operand = origins[number] - 1;
        let entries = &mut operands[operand];
        let sizes = sizes_of(alloc, statement, ranges, tensor, entries.order())?;
        let packed = match pack_operand::<S>(alloc, format, &sizes, tensor, entries, again) {
            Ok(packed) => packed,
            Err(fault) => return Err(fault),
        };
        match tensors.push(packed) {
            Ok(()) => {}
            Err(error) => return Err(PackFault::Memory(AllocError::from(error))),
        }
    }
    Ok(tensors)
}

/// So many numbers, from 1 on.
fn numbers_from_one(alloc: Global, many: usize) -> Result<Vec<usize>, AllocError>
    ensures { IfOk result (λ numbers. numbers.items ≡ range_with_len 1 many) }
{
    let mut numbers = Vec::new(alloc);
    for number in 0..many {
        numbers.push(number + 1)?;
    }
    Ok(numbers)
}

/// Packs the operands of a statement, tensor 1 and on, each in its format. `formats` has the format of each tensor, the result's first.
/// A mode's size is the greatest range of the variables that stand there in any access. The entries of each operand are let go once it is
/// packed, before the next is.
///
/// Refused for the first level of the first operand that would have more positions than may be, or for want of memory.
pub fn pack_operands<S: Semiring>(
    alloc: Global,
    statement: &Statement,
    formats: &[Format],
    ranges: &[u64],
    operands: &mut [Entries],
) -> Result<Vec<Tensor>, PackFault>
    requires many { length formats.now ≡ length operands.old + 1 }
    requires may { MayAllBePacked statement.now formats.now (slice_index ranges.now) operands.old }
    ensures { MatchResult result
        (λ packed. ArePackedOperands S.arithmetic statement.now formats.now (slice_index ranges.now) operands.old packed.items)
        (MayNotPack S.arithmetic statement.now formats.now (slice_index ranges.now) operands.old) }
{
    let origins = numbers_from_one(alloc, operands.len())?;
    match pack_drawn::<S>(alloc, statement, formats, &origins, ranges, operands) {
        Ok(tensors) => Ok(tensors),
        Err(fault) => Err(fault),
    }
}
