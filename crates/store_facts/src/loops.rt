// Loops that go by positions.
ghost use Rattle.std.specs.Prelude.{◌≡◌, [], ◌∷◌, ◌++◌, IsTrue, IfOk, IfSome, List, OnOk};
ghost use Rattle.kernel_code.specs.declared.syntax.KStmt.{KStmt};
ghost use Rattle.simplifier.specs.Refines.{Refines, RefinesKernel};
ghost use Rattle.store_facts.specs.Facts.{IsBelow, KeepsFacts};
ghost use Rattle.store_facts.specs.Loads.{GoesBy, load_code, loop_code};

use crate::facts::{StoreFact, is_known};
use crate::loads::{Load, is_load, load_of};
use crate::names::name_load;
use kernel_code::{
    Arr, KExpr, KStmt, Kernel, LoopKind, Op, copy_expr, copy_statement, one_statement,
};
use std::alloc::{AllocError, Global};
use trees::Items;

/// The variable whose range a test asks a variable to be below, if it is such a test.
fn range_above(test: &KExpr, x: u64) -> Option<u64>
    ensures { IfSome result (λ v. test.now ≡ KExpr.Bin Op.Less (KExpr.Var x) (KExpr.At Arr.Range (KExpr.Num v))) }
{
    let KExpr::Bin(Op::Less, a, b) = test else {
        return None;
    };
    match a.get() {
        KExpr::Var(y) if *y == x => range_variable(b.get()),
        _ => None,
    }
}

/// The variable whose range an expression reads, if it does.
fn range_variable(e: &KExpr) -> Option<u64>
    ensures { IfSome result (λ v. e.now ≡ KExpr.At Arr.Range (KExpr.Num v)) }
{
    let KExpr::At(Arr::Range, i) = e else {
        return None;
    };
    match i.get() {
        KExpr::Num(v) => Some(*v),
        _ => None,
    }
}

/// Whether an expression's value is known to be below the range of a variable: it is a coordinate of a level of an operand.
fn is_below(facts: &[StoreFact], e: &KExpr, variable: u64) -> bool
    ensures { IsTrue result → IsBelow facts.now e.now variable }
{
    match e {
        KExpr::At(Arr::Coordinates(tensor, level), _) => {
            *tensor != 0
                && is_known(
                    facts,
                    StoreFact::Coordinates {
                        tensor: *tensor,
                        level: *level,
                        variable,
                    },
                )
        }
        _ => false,
    }
}

/// The load that a loop goes by which stands behind code, if there is one. Refused only for want of memory.
fn load_ahead(
    alloc: Global,
    facts: &[StoreFact],
    before: &[KStmt],
    test: &KExpr,
    body: &[KStmt],
) -> Result<Option<Load>, AllocError>
    ensures { IfOk result (λ found. IfSome found (λ load. GoesBy facts.now before.now test.now body.now load)) }
{
    let Some((ahead, _)) = before.split_last() else {
        return Ok(None);
    };
    let Some((behind, _)) = body.split_last() else {
        return Ok(None);
    };
    let Some(load) = load_of(alloc, ahead)? else {
        return Ok(None);
    };
    match range_above(test, load.variable) {
        Some(variable) if is_below(facts, &load.coordinate, variable) && is_load(behind, &load) => {
            Ok(Some(load))
        }
        _ => Ok(None),
    }
}

/// Puts a loop that goes by a load in place of the load, which ends the code and the loop's body.
fn put_loop(
    alloc: Global,
    kind: LoopKind,
    load: Load,
    mut body: Items<KStmt>,
    out: &mut Items<KStmt>,
) -> Result<(), AllocError>
    ensures { (front inner : List KStmt) → out.old ≡ front ++ load_code load ∷ [] → body ≡ inner ++ load_code load ∷ []
        → OnOk result (out.new ≡ front ++ loop_code kind load inner) }
{
    body.pop();
    out.pop();
    let Load {
        variable,
        test,
        coordinate,
    } = load;
    let mut turn = one_statement(alloc, KStmt::Set(variable, coordinate))?;
    turn.append(body)?;
    out.push(KStmt::While(kind, test, turn))?;
    out.push(KStmt::Set(variable, KExpr::Num(u64::MAX)))
}

/// Appends a loop, by positions where it goes by a load.
fn add_loop(
    alloc: Global,
    facts: &[StoreFact],
    kind: LoopKind,
    test: KExpr,
    body: Items<KStmt>,
    out: &mut Items<KStmt>,
) -> Result<(), AllocError>
    ensures { OnOk result (Refines (KeepsFacts facts.now) out.new (out.old ++ KStmt.While kind test body ∷ [])) }
{
    name_load(alloc, body.as_slice(), out)?;
    match load_ahead(alloc, facts, out.as_slice(), &test, body.as_slice())? {
        Some(load) => put_loop(alloc, kind, load, body, out),
        None => out.push(KStmt::While(kind, test, body)),
    }
}

/// Appends a statement whose loops go by positions where they can.
#[cycle(loops)]
fn add_statement(
    alloc: Global,
    facts: &[StoreFact],
    s: &KStmt,
    out: &mut Items<KStmt>,
) -> Result<(), AllocError>
    ensures { OnOk result (Refines (KeepsFacts facts.now) out.new (out.old ++ s.now ∷ [])) }
{
    match s {
        KStmt::If(test, first, second) => {
            let test = copy_expr(alloc, test)?;
            let first = loops_in(alloc, facts, first.as_slice())?;
            let second = loops_in(alloc, facts, second.as_slice())?;
            out.push(KStmt::If(test, first, second))
        }
        KStmt::While(kind, test, body) => {
            let test = copy_expr(alloc, test)?;
            let body = loops_in(alloc, facts, body.as_slice())?;
            add_loop(alloc, facts, *kind, test, body, out)
        }
        _ => {
            let copy = copy_statement(alloc, s)?;
            out.push(copy)
        }
    }
}

/// Statements whose loops go by positions where they can.
#[cycle(loops)]
fn loops_in(alloc: Global, facts: &[StoreFact], code: &[KStmt]) -> Result<Items<KStmt>, AllocError>
    ensures { IfOk result (λ new. Refines (KeepsFacts facts.now) new code.now) }
{
    let mut out = Items::new(alloc);
    for s in code {
        add_statement(alloc, facts, s, &mut out)?;
    }
    Ok(out)
}

/// A kernel that does the same wherever these facts hold and this one isn't stuck, in which a loop that asks whether a coordinate is below
/// a range, where the coordinate was read before the loop and is read at the end of each turn if its position is before an end, asks for
/// the position, and reads the coordinate at the head of each turn. Refused only for want of memory. It takes time linear in the kernel's
/// size times the number of facts.
pub fn loops_by_position(
    alloc: Global,
    kernel: Kernel,
    facts: &[StoreFact],
) -> Result<Kernel, AllocError>
    ensures { IfOk result (λ k. RefinesKernel (KeepsFacts facts.now) k kernel) }
{
    let Kernel {
        semiring,
        workspaces,
        lists,
        body,
    } = kernel;
    let new = loops_in(alloc, facts, body.as_slice())?;
    Ok(Kernel {
        semiring,
        workspaces,
        lists,
        body: new,
    })
}
