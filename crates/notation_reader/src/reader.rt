// Symbols read one after another, or the fault of the first that is faulty.
ghost use Rattle.std.specs.Prelude.{◌≡◌, ◌≤◌, ◌<◌, ◌+◌, ◌^◌, None, IfOk, OnOk, MatchResult};
ghost use Rattle.limits.specs.Limits.{greatest_accesses, greatest_literal};
ghost use Rattle.notation_grammar.specs.Grammar.{Tree};
ghost use Rattle.notation_grammar.specs.Faults.{number_of, symbols_of, IsTreeOf, IsFirstFault};
ghost use Rattle.notation_reader.specs.Machine.{State};
ghost use Rattle.notation_reader.specs.Shown.{show};
ghost use Rattle.notation_reader.specs.Leads.{lead_of};
ghost use Rattle.notation_reader.specs.Counting.{IsCounted};
ghost use Rattle.notation_reader.specs.Judging.{Judges, IsRefused, HasLast};
ghost use Rattle.notation_reader.specs.Reading.{Shows, IsTakenBy, IsReadingOf};
ghost use Rattle.notation_reader.specs.declared.position.Lead.TheVariants as lead_is;

use crate::accesses::mention;
use crate::builder::{Builder, WrittenSum};
use crate::counts::Counts;
use crate::position::{Position, lead_at};
use index_notation::{Expr, Name, WrittenAccess};
use notation_grammar::{PlacedSymbol, Symbol, SymbolFault};
use std::alloc::{AllocError, Global};
use trees::Items;

/// What has been read, in four views: the position in the grammar, the counts that are limited, the accesses, and the
/// expression.
#[derive(Debug, Drop)]
pub struct Reader {
    pub position: Position,
    pub counts: Counts,
    pub accesses: Items<WrittenAccess>,
    pub builder: Builder,
}

/// A statement that has been read: the accesses in text order, the left one first, the names of variables by first
/// appearance, the nested sums in the order in which they end, and the expression of the right side.
#[derive(Debug, Drop)]
pub struct Reading {
    pub accesses: Items<WrittenAccess>,
    pub vars: Items<Name>,
    pub sums: Items<WrittenSum>,
    pub expr: Expr,
}

/// Moves on behind a symbol, or tells its fault.
fn judge(
    alloc: Global,
    position: &mut Position,
    counts: &mut Counts,
    symbol: &Symbol,
) -> Result<Option<SymbolFault>, AllocError>
    requires levels { position.old.levels < 2 ^ 63 }
    requires minuses { position.old.minuses < 2 ^ 63 }
    ensures number { IfOk result (λ fault. fault ≡ None → lead_of position.old.stand symbol.now ≡ lead_is.Number →
        number_of symbol.now ≤ greatest_literal) }
    ensures judged { IfOk result (λ fault. (s : State) → show s ≡ position.old → IsCounted s counts.old →
        Judges s symbol.now fault position.new counts.new) }
    ensures levels { OnOk result (position.new.levels ≤ position.old.levels + 1) }
    ensures minuses { OnOk result (position.new.minuses ≤ position.old.minuses + 1) }
{
    let lead = lead_at(position.stand, symbol);
    if let Some(fault) = counts.count(alloc, position.levels, symbol, lead)? {
        return Ok(Some(fault));
    }
    if position.move_on(lead)? {
        Ok(None)
    } else {
        Ok(Some(SymbolFault::BadNotation))
    }
}

impl Reader {
    ghost use Rattle.std.specs.Prelude.{[]};
    ghost use Rattle.notation_reader.specs.Machine.{Start};

    /// A reader before the first symbol.
    fn new(alloc: Global) -> Reader
        ensures shows { Shows Start result }
        ensures levels { result.position.levels ≡ 0 }
        ensures minuses { result.position.minuses ≡ 0 }
        ensures reads { result.builder.reads ≡ 0 }
        ensures ends { result.builder.ends ≡ greatest_accesses }
        ensures built_minuses { result.builder.frame.minuses ≡ 0 }
    {
        Reader {
            position: Position::new(alloc),
            counts: Counts::new(alloc),
            accesses: Items::new(alloc),
            builder: Builder::new(alloc),
        }
    }

    /// Takes a symbol, or tells its fault.
    fn take(self, alloc: Global, symbol: &Symbol) -> Result<Result<Reader, SymbolFault>, AllocError>
        requires levels { self.position.levels < 2 ^ 63 }
        requires minuses { self.position.minuses < 2 ^ 63 }
        requires reads { self.builder.reads < 2 ^ 63 }
        requires ends { self.builder.ends < 2 ^ 63 + greatest_accesses }
        requires built_minuses { self.builder.frame.minuses < 2 ^ 63 }
        ensures taken { IfOk result (λ answer. (s : State) → Shows s self →
            MatchResult answer (IsTakenBy s symbol.now) (IsRefused s symbol.now)) }
        ensures levels { IfOk result (λ answer. IfOk answer (λ r. r.position.levels ≤ self.position.levels + 1)) }
        ensures minuses { IfOk result (λ answer. IfOk answer (λ r. r.position.minuses ≤ self.position.minuses + 1)) }
        ensures reads { IfOk result (λ answer. IfOk answer (λ r. r.builder.reads ≤ self.builder.reads + 1)) }
        ensures ends { IfOk result (λ answer. IfOk answer (λ r. r.builder.ends ≤ self.builder.ends + 1)) }
    {
        let Reader {
            mut position,
            mut counts,
            mut accesses,
            builder,
        } = self;
        let stand = position.stand;
        let lead = lead_at(stand, symbol);
        if let Some(fault) = judge(alloc, &mut position, &mut counts, symbol)? {
            return Ok(Err(fault));
        }
        mention(alloc, &mut accesses, lead, symbol)?;
        let builder = builder.build(alloc, stand, lead, symbol)?;
        Ok(Ok(Reader {
            position,
            counts,
            accesses,
            builder,
        }))
    }
}

/// What the symbols say, or the byte and the fault of the first that is faulty.
pub fn read(
    alloc: Global,
    symbols: &[PlacedSymbol],
) -> Result<Result<Reading, (usize, SymbolFault)>, AllocError>
    requires { HasLast (symbols_of symbols.now) }
    ensures { IfOk result (λ answer. MatchResult answer
        (λ reading. (tree : Tree) × IsTreeOf (symbols_of symbols.now) tree × IsReadingOf tree reading)
        (λ found. IsFirstFault symbols.now found.0 found.1)) }
{
    let mut reader = Reader::new(alloc);
    for placed in symbols {
        match reader.take(alloc, &placed.symbol)? {
            Ok(next) => reader = next,
            Err(fault) => return Ok(Err((placed.at, fault))),
        }
    }
    let Reader {
        counts,
        accesses,
        builder,
        ..
    } = reader;
    let Counts { vars, .. } = counts;
    let Builder { sums, result, .. } = builder;
    match result {
        Some(expr) => Ok(Ok(Reading {
            accesses,
            vars,
            sums,
            expr,
        })),
        None => unreachable!(),
    }
}
