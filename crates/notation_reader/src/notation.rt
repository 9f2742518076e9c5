// The statement of a text, or its fault.
ghost use Rattle.std.specs.Prelude.{◌≡◌, IfOk, IfErr};
ghost use Rattle.index_notation.specs.Statement.{IsNumberedWithSums};
ghost use Rattle.notation_grammar.specs.Notation.{IsNotationOf, MayRefuseText, at_byte as fault_at_byte};

use crate::assigning::accumulates;
use crate::numbering::number_statement;
use crate::reader::read;
use crate::scanner::symbols_of;
use index_notation::Statement;
use notation_grammar::{NotationFault, SymbolFault};
use std::alloc::Global;

/// The fault of a symbol that begins at a byte.
fn at_byte(at: usize, fault: SymbolFault) -> NotationFault
    ensures { result ≡ fault_at_byte at fault }
{
    match fault {
        SymbolFault::BadNotation => NotationFault::BadNotation { at },
        SymbolFault::TooDeep => NotationFault::TooDeep { at },
        SymbolFault::TooMany(what) => NotationFault::TooMany { what, at },
        SymbolFault::LiteralRange => NotationFault::LiteralRange { at },
    }
}

/// The statement of a text: `left = right` or `left += right`, where the right side is made of accesses and numbers by `+`, `-`, `*`,
/// brackets, prefix minuses and nested sums `sum(variable, inside)`, which group to the left and bind as usual; no tensor is named
/// `sum`. Names and numbers are taken as long as possible, and spaces and tabs may stand between them.
///
/// Refused with `TextLength` where the text has more than 4,096 bytes, with the fault of its first faulty symbol where
/// it has one, and with `Memory` for want of memory alone.
pub fn parse(alloc: Global, text: &str) -> Result<Statement, NotationFault>
    ensures statement { IfOk result (IsNotationOf text.now) }
    ensures numbered { IfOk result IsNumberedWithSums }
    ensures fault { IfErr result (MayRefuseText text.now) }
{
    let bytes = text.as_bytes();
    if bytes.len() as u64 > limits::greatest_bytes_of_text() {
        return Err(NotationFault::TextLength);
    }
    let placed = symbols_of(alloc, bytes)?;
    let symbols = placed.as_slice();
    match read(alloc, symbols)? {
        Ok(reading) => {
            let accumulate = accumulates(symbols);
            Ok(number_statement(alloc, reading, accumulate)?)
        }
        Err((at, fault)) => Err(at_byte(at, fault)),
    }
}
