//! The values of a dense result as the place where rows go.
ghost use Rattle.std.specs.Prelude.{◌≡◌, ◌+◌, ◌<◌, ◌^◌, length, IfOk};
ghost use Rattle.term_code.specs.DenseSinks.{by_level, dense_sink, position_below, position_code};
ghost use Rattle.term_code.specs.SinkLaws.{dense_laws};

use kernel_code::{Arr, KExpr, KStmt, Op, binary, one_statement, word_at};
use result_targets::RowSink;
use std::alloc::{AllocError, Global};
use trees::Items;

/// The values of a result whose levels are dense: the mode that each level stores, from the top. A row's value is added at its
/// coordinates' position, in the order of the levels.
#[derive(Debug, Drop)]
pub struct DenseSink {
    pub modes: Items<usize>,
}

/// The keys in the order of the levels.
fn level_keys(alloc: Global, modes: &[usize], keys: &[u64]) -> Result<Items<u64>, AllocError>
    ensures { IfOk result (λ list. list ≡ by_level modes.now keys.now) }
{
    let mut list = Items::new(alloc);
    for mode in modes {
        list.push(keys.get(*mode).copied().unwrap_or(0))?;
    }
    Ok(list)
}

/// The position of a coordinate below a position of the level above.
fn position_under(alloc: Global, level: u64, above: KExpr, key: u64) -> Result<KExpr, AllocError>
    ensures { IfOk result (λ e. e
        ≡ KExpr.Bin Op.Add (KExpr.Bin Op.Mul above (KExpr.At (Arr.Dimension 0 level) (KExpr.Num 0))) (KExpr.Var key)) }
{
    let size = word_at(alloc, Arr::Dimension(0, level), KExpr::Num(0))?;
    let begin = binary(alloc, Op::Mul, above, size)?;
    let position = binary(alloc, Op::Add, begin, KExpr::Var(key))?;
    Ok(position)
}

/// The position of coordinates, the first of which gives the position `above`, by the levels from 2 on.
fn position_of_rest(alloc: Global, above: KExpr, keys: &[u64]) -> Result<KExpr, AllocError>
    ensures { IfOk result (λ e. e ≡ position_below 2 above keys.now) }
{
    let mut position = above;
    for (n, key) in keys.iter().enumerate() {
        position = position_under(alloc, n as u64 + 2, position, *key)?;
    }
    Ok(position)
}

/// The position of the coordinates in these variables, one a level.
fn position_of(alloc: Global, keys: &[u64]) -> Result<KExpr, AllocError>
    ensures { IfOk result (λ e. e ≡ position_code keys.now) }
{
    match keys {
        [] => Ok(KExpr::Num(0)),
        [first, rest @ ..] => position_of_rest(alloc, KExpr::Var(*first), rest),
    }
}

impl RowSink for DenseSink {
    ghost sink = { dense_sink };

    fn add_row(
        &self,
        alloc: Global,
        keys: &[u64],
        value: u64,
        _free: u64,
    ) -> Result<Items<KStmt>, AllocError> {
        let ordered = level_keys(alloc, self.modes.as_slice(), keys)?;
        let position = position_of(alloc, ordered.as_slice())?;
        let code = one_statement(
            alloc,
            KStmt::AddTo(Arr::Values(0), position, KExpr::Var(value)),
        )?;
        Ok(code)
    }

    ghost laws = { dense_laws };
}
