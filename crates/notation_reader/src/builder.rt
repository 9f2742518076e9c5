// The expression that has been read, built as its symbols come.
ghost use Rattle.std.specs.Prelude.{◌≡◌, ◌<◌, ◌≤◌, ◌+◌, ◌^◌, None, IfOk};
ghost use Rattle.limits.specs.Limits.{greatest_accesses, greatest_literal};
ghost use Rattle.notation_reader.specs.Building.{negated as negated_by, times as times_by};
ghost use Rattle.notation_reader.specs.Building.{with_sum as sum_by, with_factor as factor_by, last_product};
ghost use Rattle.notation_reader.specs.Building.{no_frame as an_empty_frame};
ghost use Rattle.notation_grammar.specs.Faults.{number_of};

use crate::literals::number;
use crate::position::{Lead, Stand};
use index_notation::{Expr, Mark, Name, Operator, Token, binary, copy_name};
use notation_grammar::Symbol;
use std::alloc::{AllocError, Global};
use trees::{Boxed, Items};

/// A sum so far, and the operator behind it.
#[derive(Debug, Drop)]
pub struct Joined {
    pub before: Expr,
    pub operator: Operator,
}

/// A nested sum that has been read, by its variable's name. The numbers of nested sums in `inside` begin at the greatest
/// number of accesses, since the accesses aren't all read yet.
#[derive(Debug, Drop)]
pub struct WrittenSum {
    pub var: Name,
    pub inside: Expr,
}

/// What stands right before a factor: the sum so far, the product so far, and prefix minuses; and the variable of the
/// nested sum right inside of which it stands.
#[derive(Debug, Drop)]
pub struct Frame {
    pub sum: Option<Joined>,
    pub product: Option<Expr>,
    pub minuses: u64,
    pub bound: Option<Name>,
}

/// The expression so far: the number of accesses, the number of the nested sum that ends next, those that have ended, the
/// frames of the brackets that are open, that of the factor, and the whole expression at the end.
#[derive(Debug, Drop)]
pub struct Builder {
    pub reads: usize,
    pub ends: usize,
    pub sums: Items<WrittenSum>,
    pub outer: Items<Frame>,
    pub frame: Frame,
    pub result: Option<Expr>,
}

/// An expression behind so many prefix minuses.
fn negated(alloc: Global, minuses: u64, expr: Expr) -> Result<Expr, AllocError>
    ensures { IfOk result (λ e. e ≡ negated_by minuses expr) }
{
    if minuses == 0 {
        Ok(expr)
    } else {
        let inner = Boxed::new(alloc, expr)?;
        negated(alloc, minuses - 1, Expr::Neg(inner))
    }
}

/// A product with one factor more.
fn times(alloc: Global, product: Option<Expr>, expr: Expr) -> Result<Expr, AllocError>
    ensures { IfOk result (λ e. e ≡ times_by product expr) }
{
    match product {
        Some(product) => {
            let longer = binary(alloc, Operator::Mul, product, expr)?;
            Ok(longer)
        }
        None => Ok(expr),
    }
}

/// A sum with one product more.
fn with_sum(alloc: Global, sum: Option<Joined>, expr: Expr) -> Result<Expr, AllocError>
    ensures { IfOk result (λ e. e ≡ sum_by sum expr) }
{
    match sum {
        Some(joined) => {
            let Joined { before, operator } = joined;
            let whole = binary(alloc, operator, before, expr)?;
            Ok(whole)
        }
        None => Ok(expr),
    }
}

/// A frame behind one factor more.
fn with_factor(alloc: Global, frame: Frame, expr: Expr) -> Result<Frame, AllocError>
    ensures { IfOk result (λ f. f ≡ factor_by frame expr) }
{
    let Frame {
        sum,
        product,
        minuses,
        bound,
    } = frame;
    let expr = negated(alloc, minuses, expr)?;
    let expr = times(alloc, product, expr)?;
    Ok(Frame {
        sum,
        product: Some(expr),
        minuses: 0,
        bound,
    })
}

/// The sum that a frame ends with, of its sum and its product so far.
fn whole_sum(alloc: Global, sum: Option<Joined>, product: Option<Expr>) -> Result<Expr, AllocError>
    ensures { IfOk result (λ e. e ≡ sum_by sum (last_product product)) }
{
    match product {
        Some(product) => with_sum(alloc, sum, product),
        None => with_sum(alloc, sum, Expr::Num(0)),
    }
}

fn no_frame() -> Frame
    ensures { result ≡ an_empty_frame }
{
    Frame {
        sum: None,
        product: None,
        minuses: 0,
        bound: None,
    }
}

impl Builder {
    ghost use Rattle.notation_reader.specs.Building.{finished_by, joined_with, with_last_access, with_bound, with_ended};
    ghost use Rattle.notation_reader.specs.Building.{settled as settled_at, by_operator as by_sign, by_variable as by_bound};

    /// Goes behind a factor.
    fn finish(self, alloc: Global, expr: Expr) -> Result<Builder, AllocError>
        ensures { IfOk result (λ b. b ≡ finished_by self expr) }
    {
        let Builder {
            reads,
            ends,
            sums,
            outer,
            frame,
            ..
        } = self;
        let frame = with_factor(alloc, frame, expr)?;
        Ok(Builder {
            reads,
            ends,
            sums,
            outer,
            frame,
            result: None,
        })
    }

    /// Goes behind a nested sum that ends.
    #[tactic(auto, using(crate::proofs::TreeSums::accesses_are_small))]
    fn end_sum(self, alloc: Global, var: Name, inside: Expr) -> Result<Builder, AllocError>
        requires { self.ends < 2 ^ 63 + greatest_accesses }
        ensures { IfOk result (λ b. b ≡ with_ended self var inside) }
    {
        let Builder {
            reads,
            ends,
            mut sums,
            outer,
            frame,
            ..
        } = self;
        sums.push(WrittenSum { var, inside })?;
        let b = Builder {
            reads,
            ends: ends + 1,
            sums,
            outer,
            frame,
            result: None,
        };
        b.finish(alloc, Expr::Access(ends))
    }

    /// Goes behind the access that was read last.
    fn finish_access(self, alloc: Global) -> Result<Builder, AllocError>
        ensures { IfOk result (λ b. b ≡ with_last_access self) }
    {
        let number = self.reads.saturating_sub(1);
        self.finish(alloc, Expr::Access(number))
    }

    /// Goes behind a name that is a factor.
    fn settle(self, alloc: Global, stand: Stand) -> Result<Builder, AllocError>
        ensures settled { IfOk result (λ b. b ≡ settled_at stand self) }
        ensures reads { IfOk result (λ b. b.reads ≤ self.reads) }
        ensures ends { IfOk result (λ b. b.ends ≡ self.ends) }
    {
        match stand {
            Stand::Name => self.finish_access(alloc),
            _ => Ok(self),
        }
    }

    /// Goes behind the operator of a sum.
    fn join(self, alloc: Global, operator: Operator) -> Result<Builder, AllocError>
        ensures { IfOk result (λ b. b ≡ joined_with self operator) }
    {
        let Builder {
            reads,
            ends,
            sums,
            outer,
            frame,
            ..
        } = self;
        let Frame {
            sum,
            product,
            bound,
            ..
        } = frame;
        let before = whole_sum(alloc, sum, product)?;
        Ok(Builder {
            reads,
            ends,
            sums,
            outer,
            frame: Frame {
                sum: Some(Joined { before, operator }),
                product: None,
                minuses: 0,
                bound,
            },
            result: None,
        })
    }

    fn by_operator(self, alloc: Global, symbol: &Symbol) -> Result<Builder, AllocError>
        ensures joined { IfOk result (λ b. b ≡ by_sign self symbol.now) }
        ensures reads { IfOk result (λ b. b.reads ≤ self.reads) }
        ensures ends { IfOk result (λ b. b.ends ≡ self.ends) }
    {
        match symbol {
            Symbol::Lexeme(Token::Mark(Mark::Plus)) => self.join(alloc, Operator::Add),
            Symbol::Lexeme(Token::Mark(Mark::Minus)) => self.join(alloc, Operator::Sub),
            _ => Ok(self),
        }
    }

    /// Goes behind the variable of a nested sum.
    fn bind(self, var: Name) -> Builder
        ensures { result ≡ with_bound var self }
    {
        let Builder {
            reads,
            ends,
            sums,
            outer,
            frame,
            ..
        } = self;
        let Frame {
            sum,
            product,
            minuses,
            ..
        } = frame;
        Builder {
            reads,
            ends,
            sums,
            outer,
            frame: Frame {
                sum,
                product,
                minuses,
                bound: Some(var),
            },
            result: None,
        }
    }

    fn by_variable(self, alloc: Global, symbol: &Symbol) -> Result<Builder, AllocError>
        ensures bound { IfOk result (λ b. b ≡ by_bound self symbol.now) }
        ensures reads { IfOk result (λ b. b.reads ≡ self.reads) }
        ensures ends { IfOk result (λ b. b.ends ≡ self.ends) }
    {
        match symbol {
            Symbol::Lexeme(Token::Name(name)) => Ok(self.bind(copy_name(alloc, name)?)),
            _ => Ok(self),
        }
    }
}

impl Builder {
    ghost use Rattle.std.specs.Prelude.{[], ◌∷◌, ◌++◌, true};
    ghost use Rattle.notation_reader.specs.declared.position.Lead.TheVariants as lead_is;
    ghost use Rattle.notation_reader.specs.Building.{nothing_built, with_read, in_new_frame, with_minus, at_the_end, closes_so, Builds};

    /// Nothing yet.
    pub fn new(alloc: Global) -> Builder
        ensures { result ≡ nothing_built }
    {
        Builder {
            reads: 0,
            ends: limits::greatest_accesses_of_statement() as usize,
            sums: Items::new(alloc),
            outer: Items::new(alloc),
            frame: no_frame(),
            result: None,
        }
    }

    /// Goes into a bracket.
    fn open(self) -> Result<Builder, AllocError>
        ensures { IfOk result (λ b. b ≡ in_new_frame self) }
    {
        let Builder {
            reads,
            ends,
            sums,
            mut outer,
            frame,
            ..
        } = self;
        outer.push(frame)?;
        Ok(Builder {
            reads,
            ends,
            sums,
            outer,
            frame: no_frame(),
            result: None,
        })
    }

    /// Goes out of a bracket.
    fn close(self, alloc: Global) -> Result<Builder, AllocError>
        requires { self.ends < 2 ^ 63 + greatest_accesses }
        ensures closes { IfOk result (closes_so self) }
        ensures reads { IfOk result (λ b. b.reads ≤ self.reads) }
        ensures ends { IfOk result (λ b. b.ends ≤ self.ends + 1) }
    {
        let Builder {
            reads,
            ends,
            sums,
            mut outer,
            frame,
            ..
        } = self;
        let Frame {
            sum,
            product,
            bound,
            ..
        } = frame;
        let whole = whole_sum(alloc, sum, product)?;
        let frame = match outer.pop() {
            Some(frame) => frame,
            None => no_frame(),
        };
        let b = Builder {
            reads,
            ends,
            sums,
            outer,
            frame,
            result: None,
        };
        match bound {
            Some(var) => b.end_sum(alloc, var, whole),
            None => b.finish(alloc, whole),
        }
    }

    /// Goes to the end.
    fn end(self, alloc: Global) -> Result<Builder, AllocError>
        ensures { IfOk result (λ b. b ≡ at_the_end self) }
    {
        let Builder { sums, frame, .. } = self;
        let Frame { sum, product, .. } = frame;
        let whole = whole_sum(alloc, sum, product)?;
        Ok(Builder {
            reads: 0,
            ends: 0,
            sums,
            outer: Items::new(alloc),
            frame: no_frame(),
            result: Some(whole),
        })
    }

    /// Goes behind one name more.
    fn read(self) -> Builder
        requires { self.reads < 2 ^ 63 }
        ensures { result ≡ with_read self }
    {
        let Builder {
            reads,
            ends,
            sums,
            outer,
            frame,
            ..
        } = self;
        Builder {
            reads: reads + 1,
            ends,
            sums,
            outer,
            frame,
            result: None,
        }
    }

    /// Goes behind a prefix minus.
    fn minus(self) -> Builder
        requires { self.frame.minuses < 2 ^ 63 }
        ensures { result ≡ with_minus self }
    {
        let Builder {
            reads,
            ends,
            sums,
            outer,
            frame,
            ..
        } = self;
        let Frame {
            sum,
            product,
            minuses,
            bound,
        } = frame;
        Builder {
            reads,
            ends,
            sums,
            outer,
            frame: Frame {
                sum,
                product,
                minuses: minuses + 1,
                bound,
            },
            result: None,
        }
    }

    /// Goes behind a symbol that leads so from a stand.
    pub fn build(
        self,
        alloc: Global,
        stand: Stand,
        lead: Lead,
        symbol: &Symbol,
    ) -> Result<Builder, AllocError>
        requires reads { self.reads < 2 ^ 63 }
        requires ends { self.ends < 2 ^ 63 + greatest_accesses }
        requires minuses { self.frame.minuses < 2 ^ 63 }
        requires number { lead ≡ lead_is.Number → number_of symbol.now ≤ greatest_literal }
        ensures builds { IfOk result (Builds self stand symbol.now lead) }
        ensures reads { IfOk result (λ b. b.reads ≤ self.reads + 1) }
        ensures ends { IfOk result (λ b. b.ends ≤ self.ends + 1) }
    {
        match lead {
            Lead::Number => self.finish(alloc, Expr::Num(number(symbol))),
            Lead::Name => Ok(self.read()),
            Lead::Access => self.finish_access(alloc),
            Lead::Bound => self.by_variable(alloc, symbol),
            Lead::Bracket(_) => self.open(),
            Lead::Minus => Ok(self.minus()),
            Lead::Operator => {
                let b = self.settle(alloc, stand)?;
                b.by_operator(alloc, symbol)
            }
            Lead::Close => {
                let b = self.settle(alloc, stand)?;
                b.close(alloc)
            }
            Lead::End => {
                let b = self.settle(alloc, stand)?;
                b.end(alloc)
            }
            _ => Ok(self),
        }
    }
}
