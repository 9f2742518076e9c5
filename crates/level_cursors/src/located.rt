ghost use Rattle.std.specs.Prelude.{◌≡◌, ◌≤◌, ◌+◌, ◌^◌, true, IfOk};
ghost use Rattle.level_core.specs.Fragments.{AreArguments};
ghost use Rattle.level_core.specs.Kinds.{capabilities};
ghost use Rattle.level_cursors.specs.Located.{Locates, locate_code};

use kernel_code::{KExpr, KStmt, Op, binary, one_statement};
use level_core::LevelKind;
use std::alloc::{AllocError, Global};
use trees::Items;

/// Leaves what was located as a span, where the flag isn't 0.
fn leave_located(
    alloc: Global,
    base: u64,
    flag: KExpr,
    locate: Items<KStmt>,
) -> Result<Items<KStmt>, AllocError>
    requires { base ≤ 2 ^ 62 }
    ensures { IfOk result (λ code. code ≡ locate_code base flag locate) }
{
    let next = binary(alloc, Op::Add, KExpr::Var(base + 3 + 1), KExpr::Num(1))?;
    let mut there = one_statement(alloc, KStmt::Set(base + 1, KExpr::Var(base + 3 + 1)))?;
    there.push(KStmt::Set(base + 1 + 1, next))?;
    let mut rest = one_statement(alloc, KStmt::Set(base, KExpr::Var(base + 3)))?;
    rest.push(KStmt::If(KExpr::Var(base), there, Items::new(alloc)))?;
    let mut sought = locate;
    sought.append(rest)?;
    let none = one_statement(alloc, KStmt::Set(base, KExpr::Num(0)))?;
    let code = one_statement(alloc, KStmt::If(flag, sought, none))?;
    Ok(code)
}

/// Code that leaves, in three variables from `base` on, the child of a coordinate below a parent of one position, where the flag
/// isn't 0: the arguments are the parent and the coordinate. Variables from `base` on are its own. Refused for want of memory alone.
pub fn locate_at<L: LevelKind>(
    alloc: Global,
    kind: &L,
    tensor: u64,
    level: u64,
    flag: KExpr,
    args: &[KExpr],
    base: u64,
) -> Result<Items<KStmt>, AllocError>
    requires locates { (capabilities (L.meaning.kind kind.now)).locate ≡ true }
    requires arguments { AreArguments 2 (base + 3) args.now }
    requires room { base ≤ 2 ^ 62 }
    ensures { IfOk result (Locates L.meaning (L.meaning.kind kind.now) tensor level base flag args.now) }
{
    let locate = kind.frag_locate(alloc, tensor, level, args, base + 3)?;
    let code = leave_located(alloc, base, flag, locate)?;
    Ok(code)
}
