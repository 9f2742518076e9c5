//! What tells of sums whose loops stand below a loop whether they may be present at a coordinate that is to come.
ghost use Rattle.std.specs.Prelude.{◌≡◌, ◌∷◌, IfOk};
ghost use Rattle.kernel_emit.specs.Told.{told_of};

use kernel_code::{KExpr, copy_expr};
use std::alloc::{AllocError, Global};
use trees::Items;

/// The access of a sum, and the expression that tells whether a part of what is summed may remain; none where one always may.
#[derive(Drop)]
pub(crate) struct Told {
    pub(crate) access: usize,
    pub(crate) flag: Option<KExpr>,
}

/// An equal expression, if there is one.
fn copy_flag(alloc: Global, flag: &Option<KExpr>) -> Result<Option<KExpr>, AllocError>
    ensures { IfOk result (λ copy. copy ≡ flag.now) }
{
    match flag {
        None => Ok(None),
        Some(e) => {
            let copy = copy_expr(alloc, e)?;
            Ok(Some(copy))
        }
    }
}

/// What is told of an access, the first if there is more.
pub(crate) fn told_of(
    alloc: Global,
    told: &[Told],
    access: usize,
) -> Result<Option<Option<KExpr>>, AllocError>
    ensures { IfOk result (λ flag. flag ≡ told_of told.now access) }
{
    let Some((first, others)) = told.split_first() else {
        return Ok(None);
    };
    if first.access == access {
        let flag = copy_flag(alloc, &first.flag)?;
        return Ok(Some(flag));
    }
    told_of(alloc, others, access)
}

/// What is told, and of one access more.
pub(crate) fn with_told(
    alloc: Global,
    told: &[Told],
    access: usize,
    flag: Option<KExpr>,
) -> Result<Items<Told>, AllocError>
    ensures { IfOk result (λ more. more ≡ record { access = access; flag = flag } ∷ told.now) }
{
    let mut more = Items::new(alloc);
    more.push(Told { access, flag })?;
    for one in told {
        let copy = Told {
            access: one.access,
            flag: copy_flag(alloc, &one.flag)?,
        };
        more.push(copy)?;
    }
    Ok(more)
}
