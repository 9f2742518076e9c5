// Code in which choices take in what stands behind them.
ghost use Rattle.std.specs.Prelude.{◌≡◌, ◌≤◌, ◌∷◌, [], ◌++◌, IfOk, OnOk, length, take};
ghost use Rattle.kernel_code.specs.declared.syntax.KStmt.{KStmt};
ghost use Rattle.jump_threading.specs.Alike.{DoesAlike};

use crate::counting::count_taken;
use kernel_code::{KExpr, KStmt, copy_expr, copy_statement, copy_statements};
use std::alloc::{AllocError, Global};
use trees::Items;

/// Code, and a copy of more behind it. Refused only for want of memory.
fn with_copy(alloc: Global, code: Items<KStmt>, more: &[KStmt]) -> Result<Items<KStmt>, AllocError>
    ensures { IfOk result (λ both. both ≡ code ++ more.now) }
{
    let mut both = code;
    let copy = copy_statements(alloc, more)?;
    both.append(copy)?;
    Ok(both)
}

/// Appends a choice that takes in what stands behind it.
fn add_choice(
    alloc: Global,
    test: &KExpr,
    first: Items<KStmt>,
    second: Items<KStmt>,
    behind: &[KStmt],
    out: &mut Items<KStmt>,
) -> Result<(), AllocError>
    ensures { OnOk result (out.new ≡ out.old ++ KStmt.If test.now (first ++ behind.now) (second ++ behind.now) ∷ []) }
{
    let test = copy_expr(alloc, test)?;
    let first = with_copy(alloc, first, behind)?;
    let second = with_copy(alloc, second, behind)?;
    out.push(KStmt::If(test, first, second))
}

/// Appends a statement, whose bodies are passed, with so many of those behind it as are taken into its bodies, and answers how many.
#[cycle(threads)]
fn add_statement(
    alloc: Global,
    s: &KStmt,
    behind: &[KStmt],
    out: &mut Items<KStmt>,
) -> Result<usize, AllocError>
    ensures within { IfOk result (λ taken. taken ≤ length behind.now) }
    ensures alike { IfOk result (λ taken. DoesAlike out.new (out.old ++ s.now ∷ take taken behind.now)) }
{
    match s {
        KStmt::If(test, first, second) => {
            let taken = count_taken(test, first.as_slice(), second.as_slice(), behind);
            let one = thread_code(alloc, first.as_slice())?;
            let other = thread_code(alloc, second.as_slice())?;
            add_choice(alloc, test, one, other, &behind[..taken], out)?;
            Ok(taken)
        }
        KStmt::While(kind, test, body) => {
            let test = copy_expr(alloc, test)?;
            let body = thread_code(alloc, body.as_slice())?;
            out.push(KStmt::While(*kind, test, body))?;
            Ok(0)
        }
        _ => {
            let copy = copy_statement(alloc, s)?;
            out.push(copy)?;
            Ok(0)
        }
    }
}

/// Code in which choices take in what stands behind them.
#[cycle(threads)]
pub(crate) fn thread_code(alloc: Global, code: &[KStmt]) -> Result<Items<KStmt>, AllocError>
    ensures { IfOk result (λ new. DoesAlike new code.now) }
{
    let mut out = Items::new(alloc);
    let mut next = 0;
    while next < code.len() {
        let taken = add_statement(alloc, &code[next], &code[next + 1..], &mut out)?;
        next = next + 1 + taken;
    }
    Ok(out)
}
