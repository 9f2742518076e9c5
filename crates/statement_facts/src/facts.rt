//! The facts that every store of a statement keeps.
ghost use Rattle.std.specs.Prelude.{◌≡◌, ◌+◌, ◌≤◌, ◌^◌, length, option_to_list, IfOk};
ghost use Rattle.statement_facts.specs.Facts.{AreTrue, AreTrueOfLevels, IsTrueOfLevel, IsTrueOfTensor};

use crate::alone::alone_at;
use format_spec::{Format, FormatLevel};
use index_notation::Statement;
use level_core::props_of;
use std::alloc::{AllocError, Global};
use store_facts::StoreFact;
use trees::Items;

/// What is known of a level of a tensor, by its number: its size where it is full, and its coordinates where they stand in order.
fn fact_of(
    statement: &Statement,
    tensor: usize,
    number: usize,
    level: FormatLevel,
) -> Option<StoreFact>
    ensures { IsTrueOfLevel statement.now tensor number level result }
{
    let variable = alone_at(statement, tensor, level.mode)?;
    if variable >= statement.vars.len() {
        return None;
    }
    let tensor = tensor as u64;
    let number = number as u64;
    let variable = variable as u64;
    let properties = props_of(level.letter);
    if properties.full {
        return Some(StoreFact::Size {
            tensor,
            level: number,
            variable,
        });
    }
    if properties.ordered {
        return Some(StoreFact::Coordinates {
            tensor,
            level: number,
            variable,
        });
    }
    None
}

/// What is known of a level, in a list. Refused only for want of memory.
fn listed(alloc: Global, fact: Option<StoreFact>) -> Result<Items<StoreFact>, AllocError>
    ensures { IfOk result (λ facts. facts ≡ option_to_list fact) }
{
    let mut facts = Items::new(alloc);
    if let Some(fact) = fact {
        facts.push(fact)?;
    }
    Ok(facts)
}

/// What is known of the levels of a tensor, of which the first has this number.
fn facts_of_levels(
    alloc: Global,
    statement: &Statement,
    tensor: usize,
    number: usize,
    levels: &[FormatLevel],
) -> Result<Items<StoreFact>, AllocError>
    requires few { number + length levels.now ≤ 2 ^ 32 }
    ensures { IfOk result (AreTrueOfLevels statement.now tensor number levels.now) }
{
    let Some((first, others)) = levels.split_first() else {
        return Ok(Items::new(alloc));
    };
    let fact = fact_of(statement, tensor, number, *first);
    let mut facts = listed(alloc, fact)?;
    let rest = facts_of_levels(alloc, statement, tensor, number + 1, others)?;
    facts.append(rest)?;
    Ok(facts)
}

/// What is known of the levels of a tensor. Of the result nothing is: a kernel makes its levels.
fn facts_of_tensor(
    alloc: Global,
    statement: &Statement,
    tensor: usize,
    format: &Format,
) -> Result<Items<StoreFact>, AllocError>
    ensures { IfOk result (IsTrueOfTensor statement.now tensor format.now) }
{
    let sums = statement.sums.len();
    if tensor == 0 || tensor >= statement.tensors.len().saturating_sub(sums) {
        return Ok(Items::new(alloc));
    }
    let facts = facts_of_levels(alloc, statement, tensor, 1, format.levels())?;
    Ok(facts)
}

/// What every store of a statement and formats keeps of the operands' levels: the size of each full one is a variable's range, and the
/// coordinates of each other that has an order are below one. A mode at which several variables stand tells nothing. Refused only for
/// want of memory.
pub fn store_facts(
    alloc: Global,
    statement: &Statement,
    formats: &[Format],
) -> Result<Items<StoreFact>, AllocError>
    ensures { IfOk result (AreTrue statement.now formats.now) }
{
    let mut facts = Items::new(alloc);
    for (tensor, format) in formats.iter().enumerate() {
        let more = facts_of_tensor(alloc, statement, tensor, format)?;
        facts.append(more)?;
    }
    Ok(facts)
}
