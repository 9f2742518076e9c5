// What is known at a place of code: pairs of expressions that have one value there.
ghost use Rattle.std.specs.Prelude.{◌≡◌, ◌≢◌, ◌∷◌, ◌++◌, [], false, IsTrue, IfOk, IfSome, OnOk};
ghost use Rattle.kernel_code.specs.Keeps.{Mentions};
ghost use Rattle.kernel_flow.specs.Apart.{AreApart, is_in};
ghost use Rattle.kernel_flow.specs.Facts.{Gives, IsPlaceOf, Survives};
ghost use Rattle.kernel_flow.specs.Steady.{IsReadOnly};

use crate::apart::is_apart;
use crate::exprs::{bits_of, is_clear, is_steady};
use crate::guesses::{Changes, is_likely};
use crate::marks::mark_of;
use kernel_code::KExpr;
use simplifier::same_expr;
use std::alloc::{AllocError, Global};
use std::marker::Model;
use std::rc::Rc;
use trees::Items;

/// Two expressions that have one value; the first is to be written as the second.
#[derive(Drop)]
pub(crate) struct Fact {
    pub(crate) left: KExpr,
    pub(crate) right: KExpr,
}

/// A fact that many lists hold at once: it stands in memory once. Beside it are a mark of each expression, which tells it apart from most
/// others, and bits of the variables that it mentions.
#[derive(Drop)]
pub(crate) struct Shared {
    fact: Rc<Fact>,
    left: u64,
    right: u64,
    bits: u64,
}

impl Model for Shared {
    ghost use Rattle.kernel_flow.specs.declared.facts.Fact.{Fact};
    ghost use Rattle.kernel_code.specs.contracts.syntax.KExpr as expr;
    ghost use Rattle.kernel_flow.specs.Steady.{Covers};
    ghost use Rattle.std.specs.Coded.{codes};

    ghost Value = { Fact };

    ghost coded = { Prim.hlevel (codes, expr.the_row.coded) };

    ghost view = { λ s. s.fact.value };

    ghost invariant = { λ s. Covers s.bits s.fact.value.left × Covers s.bits s.fact.value.right };
}

impl Shared {
    /// A fact that no list holds yet. Refused only for want of memory.
    fn new(alloc: Global, fact: Fact) -> Result<Shared, AllocError>
        ensures { IfOk result (λ shared. shared ≡ fact) }
    {
        let left = mark_of(&fact.left);
        let right = mark_of(&fact.right);
        let bits = bits_of(&fact.right, bits_of(&fact.left, 0));
        match Rc::new(alloc, fact) {
            Ok(fact) => Ok(Shared {
                fact,
                left,
                right,
                bits,
            }),
            Err(_) => Err(AllocError),
        }
    }

    /// The fact.
    pub(crate) fn get(&self) -> &Fact
        ensures { result.now ≡ self.now }
    {
        self.fact.as_ref()
    }

    /// The same fact, for another list. Refused only for want of memory.
    fn again(&self) -> Result<Shared, AllocError>
        ensures { IfOk result (λ shared. shared ≡ self.now) }
    {
        let fact = self.fact.clone()?;
        Ok(Shared {
            fact,
            left: self.left,
            right: self.right,
            bits: self.bits,
        })
    }

    /// Whether this is what is to be written otherwise; the mark is the expression's.
    pub(crate) fn is_of(&self, e: &KExpr, mark: u64) -> bool
        ensures { IsTrue result → self.now.left ≡ e.now }
    {
        self.left == mark && same_expr(&self.get().left, e)
    }

    /// Whether it mentions neither this variable nor an array that may be written.
    fn is_kept(&self, x: u64) -> bool
        ensures left { IsTrue result → Mentions (λ y. x ≢ y) IsReadOnly self.now.left }
        ensures right { IsTrue result → Mentions (λ y. x ≢ y) IsReadOnly self.now.right }
    {
        if is_clear(self.bits, x) {
            return true;
        }
        is_steady(&self.get().left, x) && is_steady(&self.get().right, x)
    }

    /// Whether it mentions none of some variables and no array that may be written.
    fn is_apart(&self, some: &[bool]) -> bool
        ensures left { IsTrue result → Mentions (λ y. is_in some.now y ≡ false) IsReadOnly self.now.left }
        ensures right { IsTrue result → Mentions (λ y. is_in some.now y ≡ false) IsReadOnly self.now.right }
    {
        is_apart(&self.get().left, some) && is_apart(&self.get().right, some)
    }

    /// Whether both are one fact.
    fn is_same(&self, other: &Shared) -> bool
        ensures left { IsTrue result → self.now.left ≡ other.now.left }
        ensures right { IsTrue result → self.now.right ≡ other.now.right }
    {
        self.right == other.right
            && self.is_of(&other.get().left, other.left)
            && same_expr(&self.get().right, &other.get().right)
    }
}

/// Adds that two expressions have one value. Refused only for want of memory.
pub(crate) fn add_fact(
    alloc: Global,
    facts: &mut Items<Shared>,
    left: KExpr,
    right: KExpr,
) -> Result<(), AllocError>
    ensures { OnOk result (facts.new ≡ facts.old ++ record { left = left; right = right } ∷ []) }
{
    let fact = Shared::new(alloc, Fact { left, right })?;
    facts.push(fact)
}

/// Where a fact stands among facts, from a place on.
fn place_from(fact: &Shared, facts: &[Shared], from: usize) -> Option<usize>
    ensures { IfSome result (IsPlaceOf fact.now facts.now) }
{
    for at in from..facts.len() {
        let other = &facts[at];
        if other.is_same(fact) {
            return Some(at);
        }
    }
    None
}

/// Whether a fact stands among the first of some facts.
pub(crate) fn is_among_first(fact: &Shared, facts: &[Shared], count: usize) -> bool {
    for other in facts.iter().take(count) {
        if other.is_same(fact) {
            return true;
        }
    }
    false
}

/// Where a fact stands among facts, looked for first where the next one is likely to stand.
pub(crate) fn place_among(fact: &Shared, facts: &[Shared], next: usize) -> Option<usize>
    ensures { IfSome result (IsPlaceOf fact.now facts.now) }
{
    match place_from(fact, facts, next) {
        Some(at) => Some(at),
        None => place_from(fact, facts, 0),
    }
}

/// Whether each fact stands among other facts.
pub(crate) fn all_among(facts: &[Shared], others: &[Shared]) -> bool
    ensures { IsTrue result → Gives others.now facts.now }
{
    let mut next = 0;
    for fact in facts {
        let Some(at) = place_among(fact, others, next) else {
            return false;
        };
        next = at + 1;
    }
    true
}

/// The same facts once more. Refused only for want of memory.
pub(crate) fn copy_facts(alloc: Global, facts: &[Shared]) -> Result<Items<Shared>, AllocError>
    ensures { IfOk result (λ r. r ≡ facts.now) }
{
    let mut copies = Vec::with_capacity(alloc, facts.len())?;
    for fact in facts {
        let copy = fact.again()?;
        copies.push(copy)?;
    }
    Ok(Items::from_vec(copies))
}

/// The facts that stand in both. Refused only for want of memory.
pub(crate) fn common(
    alloc: Global,
    facts: Items<Shared>,
    others: &[Shared],
) -> Result<Items<Shared>, AllocError>
    ensures first { IfOk result (λ r. Gives facts r) }
    ensures second { IfOk result (λ r. Gives others.now r) }
{
    let mut both = Items::new(alloc);
    let mut next = 0;
    for fact in facts.into_vec() {
        if let Some(at) = place_among(&fact, others, next) {
            both.push(fact)?;
            next = at + 1;
        } else {
            drop(fact);
        }
    }
    Ok(both)
}

/// The facts that mention none of some variables. Refused only for want of memory.
pub(crate) fn those_apart(
    alloc: Global,
    facts: Items<Shared>,
    some: &[bool],
) -> Result<Items<Shared>, AllocError>
    ensures gives { IfOk result (λ r. Gives facts r) }
    ensures apart { IfOk result (λ r. AreApart some.now r) }
{
    let mut kept = Items::new(alloc);
    for fact in facts.into_vec() {
        if fact.is_apart(some) {
            kept.push(fact)?;
        } else {
            drop(fact);
        }
    }
    Ok(kept)
}

/// The facts that mention some of these variables. Refused only for want of memory.
pub(crate) fn those_beside(
    alloc: Global,
    facts: Items<Shared>,
    some: &[bool],
) -> Result<Items<Shared>, AllocError>
    ensures { IfOk result (λ r. Gives facts r) }
{
    let mut others = Items::new(alloc);
    for fact in facts.into_vec() {
        if !fact.is_apart(some) {
            others.push(fact)?;
        } else {
            drop(fact);
        }
    }
    Ok(others)
}

/// The facts that the turns of a loop may keep. Refused only for want of memory.
pub(crate) fn likely(
    alloc: Global,
    facts: &[Shared],
    changes: &Changes,
) -> Result<Items<Shared>, AllocError>
    ensures { IfOk result (λ r. Gives facts.now r) }
{
    let mut some = Items::new(alloc);
    for fact in facts {
        if is_likely(fact.get(), changes) {
            let copy = fact.again()?;
            some.push(copy)?;
        }
    }
    Ok(some)
}

/// Whether no fact mentions this variable or an array that may be written.
fn all_kept(facts: &[Shared], x: u64) -> bool
    ensures { IsTrue result → Survives x facts.now facts.now }
{
    for fact in facts {
        if !fact.is_kept(x) {
            return false;
        }
    }
    true
}

/// The facts that don't mention a variable. Refused only for want of memory.
pub(crate) fn without(
    alloc: Global,
    facts: Items<Shared>,
    x: u64,
) -> Result<Items<Shared>, AllocError>
    ensures { IfOk result (λ r. Survives x facts r) }
{
    if all_kept(facts.as_slice(), x) {
        return Ok(facts);
    }
    let mut kept = Items::new(alloc);
    for fact in facts.into_vec() {
        if fact.is_kept(x) {
            kept.push(fact)?;
        } else {
            drop(fact);
        }
    }
    Ok(kept)
}
