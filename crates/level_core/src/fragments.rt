ghost use Rattle.std.specs.Prelude.{◌≡◌, ◌≤◌, ◌<◌, ◌^◌, length, slice_get, Some, IfOk};
ghost use Rattle.level_core.specs.FragmentLaws.{one_code, two_code};

use kernel_code::{KExpr, KStmt, copy_expr};
use std::alloc::{AllocError, Global};
use trees::Items;

/// A copy of a fragment's argument, counted from 0. Refused for want of memory alone.
pub fn argument(alloc: Global, args: &[KExpr], n: usize) -> Result<KExpr, AllocError>
    requires { n < length args.now }
    ensures { IfOk result (λ e. slice_get args.now n ≡ Some e) }
{
    copy_expr(alloc, &args[n])
}

/// Code that leaves an answer in a variable. Refused for want of memory alone.
pub fn leave_one(alloc: Global, free: u64, e: KExpr) -> Result<Items<KStmt>, AllocError>
    ensures { IfOk result (λ code. code ≡ one_code free e) }
{
    let mut code = Items::new(alloc);
    code.push(KStmt::Set(free, e))?;
    Ok(code)
}

/// Code that leaves an answer in a variable and the next. Refused for want of memory alone.
pub fn leave_two(alloc: Global, free: u64, e: KExpr, f: KExpr) -> Result<Items<KStmt>, AllocError>
    requires { free ≤ 2 ^ 63 }
    ensures { IfOk result (λ code. code ≡ two_code free e f) }
{
    let mut code = Items::new(alloc);
    code.push(KStmt::Set(free, e))?;
    code.push(KStmt::Set(free + 1, f))?;
    Ok(code)
}
