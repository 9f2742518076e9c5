ghost use Rattle.std.specs.Prelude.{◌≡◌, ◌≤◌, ◌^◌, [], ◌∷◌, IfOk};
ghost use Rattle.kernel_code.specs.Pieces.{position_and_next};

use crate::copies::copy_expr;
use crate::syntax::{Arr, KExpr, KStmt, Op};
use std::alloc::{AllocError, Global};
use trees::{Boxed, Items};

/// An array's word at an index. Refused only for want of memory.
pub fn word_at(alloc: Global, array: Arr, index: KExpr) -> Result<KExpr, AllocError>
    ensures { IfOk result (λ e. e ≡ KExpr.At array index) }
{
    Ok(KExpr::At(array, Boxed::new(alloc, index)?))
}

/// An operator of two expressions. Refused only for want of memory.
pub fn binary(alloc: Global, op: Op, a: KExpr, b: KExpr) -> Result<KExpr, AllocError>
    ensures { IfOk result (λ e. e ≡ KExpr.Bin op a b) }
{
    let a = Boxed::new(alloc, a)?;
    let b = Boxed::new(alloc, b)?;
    Ok(KExpr::Bin(op, a, b))
}

/// Code of one statement. Refused only for want of memory.
pub fn one_statement(alloc: Global, s: KStmt) -> Result<Items<KStmt>, AllocError>
    ensures { IfOk result (λ code. code ≡ s ∷ []) }
{
    let mut code = Items::new(alloc);
    code.push(s)?;
    Ok(code)
}

/// Code that leaves a position in a variable, and the next position in the variable after it. Refused only
/// for want of memory.
pub fn position_and_next(
    alloc: Global,
    free: u64,
    position: KExpr,
) -> Result<Items<KStmt>, AllocError>
    requires { free ≤ 2 ^ 63 }
    ensures { IfOk result (λ code. code ≡ position_and_next free position) }
{
    let again = copy_expr(alloc, &position)?;
    let next = binary(alloc, Op::Add, again, KExpr::Num(1))?;
    let mut code = one_statement(alloc, KStmt::Set(free, position))?;
    code.push(KStmt::Set(free + 1, next))?;
    Ok(code)
}
