// Where a reader stands in the grammar, and where each symbol leads.
ghost use Rattle.std.specs.Prelude.{◌≡◌};
ghost use Rattle.notation_grammar.specs.Grammar.{is_sum as is_sum_name};
ghost use Rattle.notation_reader.specs.Leads.{lead_of, mark_leads, name_token_leads};

use crate::names::is_sum;
use index_notation::{Mark, Name, Token};
use notation_grammar::Symbol;
use std::alloc::{AllocError, Global};
use trees::Items;

/// What a position is behind.
#[derive(Clone, Copy, Debug, PartialEq, Eq)]
pub enum Stand {
    Nothing,
    /// The name of the left side.
    LeftName,
    /// A bracket or comma of the left access, so a variable is wanted.
    LeftOpen,
    /// A variable of the left access.
    LeftVariable,
    /// The whole left access.
    LeftAccess,
    /// `=` or `+=`, an operator, a prefix minus, an open bracket or the comma of a nested sum, so a factor is wanted.
    Operator,
    /// The name of an access of the right side.
    Name,
    /// A bracket or comma of an access of the right side, so a variable is wanted.
    Open,
    /// A variable of an access of the right side.
    Variable,
    /// The name `sum`, so the bracket of a nested sum is wanted.
    SumName,
    /// The bracket of a nested sum, so its variable is wanted.
    SumOpen,
    /// The variable of a nested sum, so a comma is wanted.
    SumVariable,
    /// A whole factor.
    Factor,
    /// The end of the text.
    End,
}

/// What a symbol does at a stand.
#[derive(Clone, Copy, Debug, PartialEq, Eq)]
pub enum Lead {
    /// No sentence goes on so.
    Nowhere,
    /// It leads there, and no limit counts it.
    To(Stand),
    /// It is a variable, and leads there.
    Variable(Stand),
    /// It is a number, which is a factor.
    Number,
    /// It names an access of the right side.
    Name,
    /// It is the name `sum`, which begins a nested sum.
    Sum,
    /// It is the variable of a nested sum.
    Bound,
    /// It opens a bracket of a factor or of a nested sum, and leads there.
    Bracket(Stand),
    /// It is a prefix minus.
    Minus,
    /// It is an operator behind a factor.
    Operator,
    /// It closes a bracket of a factor, if one is open.
    Close,
    /// It closes the variables of an access, which is a factor.
    Access,
    /// It ends the text, if no bracket is open.
    End,
}

/// A position in the grammar: what it is behind, the levels that are open, the prefix minuses of the factor that is
/// read or wanted, and for each bracket that is open those before it.
#[derive(Debug, Drop)]
pub struct Position {
    pub stand: Stand,
    pub levels: u64,
    pub minuses: u64,
    pub outer: Items<u64>,
}

/// What a mark does at a stand.
fn lead_of_mark(stand: Stand, mark: Mark) -> Lead
    ensures { result ≡ mark_leads stand mark }
{
    match stand {
        Stand::LeftName => match mark {
            Mark::Open => Lead::To(Stand::LeftOpen),
            Mark::Equals | Mark::PlusEquals => Lead::To(Stand::Operator),
            _ => Lead::Nowhere,
        },
        Stand::LeftVariable => match mark {
            Mark::Comma => Lead::To(Stand::LeftOpen),
            Mark::Close => Lead::To(Stand::LeftAccess),
            _ => Lead::Nowhere,
        },
        Stand::LeftAccess => match mark {
            Mark::Equals | Mark::PlusEquals => Lead::To(Stand::Operator),
            _ => Lead::Nowhere,
        },
        Stand::Operator => match mark {
            Mark::Open => Lead::Bracket(Stand::Operator),
            Mark::Minus => Lead::Minus,
            _ => Lead::Nowhere,
        },
        Stand::Name => match mark {
            Mark::Open => Lead::To(Stand::Open),
            Mark::Times => Lead::Operator,
            Mark::Plus => Lead::Operator,
            Mark::Minus => Lead::Operator,
            Mark::Close => Lead::Close,
            _ => Lead::Nowhere,
        },
        Stand::Variable => match mark {
            Mark::Comma => Lead::To(Stand::Open),
            Mark::Close => Lead::Access,
            _ => Lead::Nowhere,
        },
        Stand::Factor => match mark {
            Mark::Times => Lead::Operator,
            Mark::Plus => Lead::Operator,
            Mark::Minus => Lead::Operator,
            Mark::Close => Lead::Close,
            _ => Lead::Nowhere,
        },
        Stand::SumName => match mark {
            Mark::Open => Lead::Bracket(Stand::SumOpen),
            _ => Lead::Nowhere,
        },
        Stand::SumVariable => match mark {
            Mark::Comma => Lead::To(Stand::Operator),
            _ => Lead::Nowhere,
        },
        _ => Lead::Nowhere,
    }
}

/// What a name does at a stand.
fn lead_of_name(stand: Stand, name: &Name) -> Lead
    ensures { result ≡ name_token_leads stand (is_sum_name name.now) }
{
    match stand {
        Stand::Nothing => {
            if is_sum(name) {
                Lead::Nowhere
            } else {
                Lead::To(Stand::LeftName)
            }
        }
        Stand::LeftOpen => Lead::Variable(Stand::LeftVariable),
        Stand::Operator => { if is_sum(name) { Lead::Sum } else { Lead::Name } }
        Stand::Open => Lead::Variable(Stand::Variable),
        Stand::SumOpen => Lead::Bound,
        _ => Lead::Nowhere,
    }
}

/// What a symbol does at a stand.
pub fn lead_at(stand: Stand, symbol: &Symbol) -> Lead
    ensures { result ≡ lead_of stand symbol.now }
{
    match symbol {
        Symbol::Lexeme(Token::Name(name)) => lead_of_name(stand, name),
        Symbol::Lexeme(Token::Number(_)) => match stand {
            Stand::Operator => Lead::Number,
            _ => Lead::Nowhere,
        },
        Symbol::Lexeme(Token::Mark(mark)) => lead_of_mark(stand, *mark),
        Symbol::End => match stand {
            Stand::Name => Lead::End,
            Stand::Factor => Lead::End,
            _ => Lead::Nowhere,
        },
        Symbol::Stray => Lead::Nowhere,
    }
}

impl Position {
    ghost use Rattle.std.specs.Prelude.{◌+◌, ◌<◌, ◌≤◌, ◌^◌, IfOk, OnOk};
    ghost use Rattle.notation_reader.specs.declared.position.Stand.TheVariants as stand;
    ghost use Rattle.notation_reader.specs.Shown.{finished, on_the_left};
    ghost use Rattle.notation_reader.specs.Moves.{Moves};

    /// The position before the first symbol.
    pub fn new(alloc: Global) -> Position
        ensures { result ≡ on_the_left stand.Nothing }
    {
        Position {
            stand: Stand::Nothing,
            levels: 0,
            minuses: 0,
            outer: Items::new(alloc),
        }
    }

    /// Goes behind the whole factor.
    fn finish(&mut self)
        ensures { self.new ≡ finished self.old }
    {
        self.stand = Stand::Factor;
        self.levels = self.levels.saturating_sub(self.minuses);
        self.minuses = 0;
    }

    /// Goes behind a symbol, if it may stand here.
    pub fn move_on(&mut self, lead: Lead) -> Result<bool, AllocError>
        requires levels { self.old.levels < 2 ^ 63 }
        requires minuses { self.old.minuses < 2 ^ 63 }
        ensures moves { IfOk result (λ moved. Moves self.old lead moved self.new) }
        ensures levels { OnOk result (self.new.levels ≤ self.old.levels + 1) }
        ensures minuses { OnOk result (self.new.minuses ≤ self.old.minuses + 1) }
    {
        match lead {
            Lead::Nowhere => return Ok(false),
            Lead::To(stand) => self.stand = stand,
            Lead::Variable(stand) => self.stand = stand,
            Lead::Number => self.finish(),
            Lead::Name => self.stand = Stand::Name,
            Lead::Sum => self.stand = Stand::SumName,
            Lead::Bound => self.stand = Stand::SumVariable,
            Lead::Bracket(stand) => {
                self.outer.push(self.minuses)?;
                self.levels += 1;
                self.minuses = 0;
                self.stand = stand;
            }
            Lead::Minus => {
                self.levels += 1;
                self.minuses += 1;
                self.stand = Stand::Operator;
            }
            Lead::Operator => {
                self.finish();
                self.stand = Stand::Operator;
            }
            Lead::Access => self.finish(),
            Lead::Close => {
                let Some(minuses) = self.outer.pop() else {
                    return Ok(false);
                };
                self.finish();
                self.levels = self.levels.saturating_sub(1);
                self.minuses = minuses;
                self.finish();
            }
            Lead::End => {
                if self.outer.pop().is_some() {
                    return Ok(false);
                }
                self.levels = 0;
                self.minuses = 0;
                self.stand = Stand::End;
            }
        }
        Ok(true)
    }
}
