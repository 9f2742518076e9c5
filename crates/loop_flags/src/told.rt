//! Flags of accesses of which the places don't tell whether they are present: of sums that are not made yet.
ghost use Rattle.std.specs.Prelude.{◌≡◌, ◌∷◌, IfOk};
ghost use Rattle.loop_flags.specs.Told.{flag_of};

use kernel_code::{KExpr, copy_expr};
use std::alloc::{AllocError, Global};
use trees::Items;

/// The flag of an access, which tells whether it is present.
#[derive(Debug, Drop)]
pub(crate) struct Told {
    pub(crate) access: usize,
    pub(crate) flag: KExpr,
}

/// The flag that is given of an access, the first one if there are more.
pub(crate) fn flag_of(
    alloc: Global,
    told: &[Told],
    access: usize,
) -> Result<Option<KExpr>, AllocError>
    ensures { IfOk result (λ flag. flag ≡ flag_of told.now access) }
{
    let Some((first, others)) = told.split_first() else {
        return Ok(None);
    };
    if first.access == access {
        let flag = copy_expr(alloc, &first.flag)?;
        return Ok(Some(flag));
    }
    flag_of(alloc, others, access)
}

/// Flags with that of one access more.
pub(crate) fn with_flag(
    alloc: Global,
    told: &[Told],
    access: usize,
    flag: KExpr,
) -> Result<Items<Told>, AllocError>
    ensures { IfOk result (λ more. more ≡ record { access = access; flag = flag } ∷ told.now) }
{
    let mut more = Items::new(alloc);
    more.push(Told { access, flag })?;
    for one in told {
        let copy = Told {
            access: one.access,
            flag: copy_expr(alloc, &one.flag)?,
        };
        more.push(copy)?;
    }
    Ok(more)
}
