// What is limited, counted as its symbols come.
ghost use Rattle.std.specs.Prelude.{◌≡◌};
ghost use Rattle.notation_reader.specs.Counting.{level_fault as due_level_fault};

use crate::literals::is_past_literals;
use crate::names::add_name;
use crate::position::Lead;
use index_notation::{Name, Token};
use notation_grammar::{Counted, Symbol, SymbolFault};
use std::alloc::{AllocError, Global};
use trees::Items;

/// What has been read that is limited: the variables of the access that is read, the different variables in text order,
/// the accesses of the right side, and these with the numbers.
#[derive(Debug, Drop)]
pub struct Counts {
    pub order: u64,
    pub vars: Items<Name>,
    pub accesses: u64,
    pub operands: u64,
}

/// The fault of one level more.
fn level_fault(levels: u64) -> Option<SymbolFault>
    ensures { result ≡ due_level_fault levels }
{
    if levels >= limits::greatest_nesting_of_expression() {
        Some(SymbolFault::TooDeep)
    } else {
        None
    }
}

impl Counts {
    ghost use Rattle.std.specs.Prelude.{◌≡◌, [], IfOk};
    ghost use Rattle.notation_reader.specs.Counting.{CountsAs, CountsSymbol, variable_fault, with_variable, bound_fault};
    ghost use Rattle.notation_reader.specs.Counting.{with_bound, access_fault, with_access, number_fault, with_number};

    /// Nothing yet.
    pub fn new(alloc: Global) -> Counts
        ensures { result ≡ record { order = 0; vars = []; accesses = 0; operands = 0 } }
    {
        Counts {
            order: 0,
            vars: Items::new(alloc),
            accesses: 0,
            operands: 0,
        }
    }

    /// Counts a variable.
    fn count_variable(
        &mut self,
        alloc: Global,
        name: &Name,
    ) -> Result<Option<SymbolFault>, AllocError>
        ensures { IfOk result (λ fault. CountsAs (variable_fault self.old name.now) (with_variable name.now self.old) fault self.new) }
    {
        if self.order >= limits::greatest_order_of_tensor() {
            return Ok(Some(SymbolFault::TooMany(Counted::Order)));
        }
        add_name(alloc, &mut self.vars, name)?;
        if self.vars.len() as u64 > limits::greatest_variables_of_statement() {
            return Ok(Some(SymbolFault::TooMany(Counted::Variables)));
        }
        self.order += 1;
        Ok(None)
    }

    /// Counts the variable of a nested sum.
    fn count_bound(&mut self, alloc: Global, name: &Name) -> Result<Option<SymbolFault>, AllocError>
        ensures { IfOk result (λ fault. CountsAs (bound_fault self.old name.now) (with_bound name.now self.old) fault self.new) }
    {
        add_name(alloc, &mut self.vars, name)?;
        if self.vars.len() as u64 > limits::greatest_variables_of_statement() {
            return Ok(Some(SymbolFault::TooMany(Counted::Variables)));
        }
        Ok(None)
    }

    /// Counts an access of the right side.
    fn count_access(&mut self) -> Option<SymbolFault>
        ensures { CountsAs (access_fault self.old) (with_access self.old) result self.new }
    {
        if self.accesses >= limits::greatest_accesses_of_statement() {
            return Some(SymbolFault::TooMany(Counted::Accesses));
        }
        if self.operands >= limits::greatest_operands_of_statement() {
            return Some(SymbolFault::TooMany(Counted::Operands));
        }
        self.order = 0;
        self.accesses += 1;
        self.operands += 1;
        None
    }

    /// Counts a number.
    fn count_number(&mut self, symbol: &Symbol) -> Option<SymbolFault>
        ensures { CountsAs (number_fault self.old symbol.now) (with_number self.old) result self.new }
    {
        if self.operands >= limits::greatest_operands_of_statement() {
            return Some(SymbolFault::TooMany(Counted::Operands));
        }
        if is_past_literals(symbol) {
            return Some(SymbolFault::LiteralRange);
        }
        self.operands += 1;
        None
    }

    /// Counts a symbol that leads so, where so many levels are open.
    pub fn count(
        &mut self,
        alloc: Global,
        levels: u64,
        symbol: &Symbol,
        lead: Lead,
    ) -> Result<Option<SymbolFault>, AllocError>
        ensures { IfOk result (λ fault. CountsSymbol self.old levels symbol.now lead fault self.new) }
    {
        match lead {
            Lead::Bracket(_) => Ok(level_fault(levels)),
            Lead::Minus => Ok(level_fault(levels)),
            Lead::Variable(_) => match symbol {
                Symbol::Lexeme(Token::Name(name)) => self.count_variable(alloc, name),
                _ => Ok(None),
            },
            Lead::Bound => match symbol {
                Symbol::Lexeme(Token::Name(name)) => self.count_bound(alloc, name),
                _ => Ok(None),
            },
            Lead::Name => Ok(self.count_access()),
            Lead::Number => Ok(self.count_number(symbol)),
            _ => Ok(None),
        }
    }
}
