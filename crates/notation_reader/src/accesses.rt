// The accesses that have been read.
ghost use Rattle.std.specs.Prelude.{OnOk};
ghost use Rattle.notation_reader.specs.Accesses.{Extends, Mentions};
ghost use Rattle.index_notation.specs.declared.syntax.Name.{Name};

use crate::position::Lead;
use index_notation::{Name, Token, WrittenAccess, copy_name};
use notation_grammar::Symbol;
use std::alloc::{AllocError, Global};
use trees::Items;

/// Puts a variable into the last access.
fn extend_last(accesses: &mut Items<WrittenAccess>, var: Name) -> Result<(), AllocError>
    ensures { OnOk result (Extends var accesses.old accesses.new) }
{
    if let Some(access) = accesses.pop() {
        let WrittenAccess { name, mut vars } = access;
        vars.push(var)?;
        accesses.push(WrittenAccess { name, vars })?;
    }
    Ok(())
}

/// Keeps what a symbol says of the accesses: a name begins one, unless it is a variable of the last, or a nested sum's.
pub fn mention(
    alloc: Global,
    accesses: &mut Items<WrittenAccess>,
    lead: Lead,
    symbol: &Symbol,
) -> Result<(), AllocError>
    ensures { OnOk result (Mentions symbol.now lead accesses.old accesses.new) }
{
    let Symbol::Lexeme(Token::Name(name)) = symbol else {
        return Ok(());
    };
    match lead {
        Lead::Sum | Lead::Bound => Ok(()),
        Lead::Variable(_) => extend_last(accesses, copy_name(alloc, name)?),
        _ => {
            let name = copy_name(alloc, name)?;
            let vars = Items::new(alloc);
            accesses.push(WrittenAccess { name, vars })?;
            Ok(())
        }
    }
}
