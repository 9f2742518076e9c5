//! Where a kernel keeps what the loops around have found.
ghost use Rattle.std.specs.Prelude.{◌≡◌, ◌<◌, ◌≤◌, ◌+◌, ◌^◌, length, map, replicate, slice_set, slice_index_or, IfOk};
ghost use Rattle.term_code.specs.Places.{StartsAt, new_access, at_cursor};

use kernel_code::{KExpr, KStmt, one_statement};
use std::alloc::{AllocError, Global};
use trees::Items;

/// Where an access is kept: the first of three variables, which are 1 and the ends of a span of positions, or 0 where the
/// access isn't present; and the number of the access's tensor.
#[derive(Clone, Copy, Debug, PartialEq, Eq, Drop)]
pub struct AccessPlace {
    pub cursor: u64,
    pub tensor: u64,
    /// Whether the access is that of a sum: nothing is stored of it, and the first end of its span is its value.
    pub is_sum: bool,
}

/// The kernel's variable of each variable of the statement, and the place of each access.
#[derive(Debug, Drop)]
pub struct Places {
    pub variables: Items<u64>,
    pub accesses: Items<AccessPlace>,
}

impl Places {
    /// Places before all loops, of so many variables and of accesses of these tensors: each access is at the three variables
    /// from `base` on. Tensors from the number `real` on stand for sums. Refused only for want of memory.
    pub fn new(
        alloc: Global,
        variables: usize,
        tensors: &[u64],
        real: u64,
        base: u64,
    ) -> Result<Places, AllocError>
        ensures variables { IfOk result (λ places. places.variables ≡ replicate variables base) }
        ensures accesses { IfOk result (λ places. places.accesses ≡ map (new_access base real) tensors.now) }
    {
        let mut accesses = Items::new(alloc);
        for tensor in tensors {
            accesses.push(AccessPlace {
                cursor: base,
                tensor: *tensor,
                is_sum: real <= *tensor,
            })?;
        }
        Ok(Places {
            variables: Items::from_vec(vec![in alloc; base; variables]?),
            accesses,
        })
    }

    /// Equal places. Refused only for want of memory.
    pub fn copy(&self, alloc: Global) -> Result<Places, AllocError>
        ensures { IfOk result (λ copy. copy ≡ self.now) }
    {
        Ok(Places {
            variables: Items::from_slice(alloc, self.variables.as_slice())?,
            accesses: Items::from_slice(alloc, self.accesses.as_slice())?,
        })
    }

    /// Gives a variable of the statement another variable of the kernel.
    pub fn set_variable(&mut self, variable: usize, at: u64)
        requires { variable < length self.old.variables }
        ensures { self.new ≡ record { variables = slice_set self.old.variables variable at; accesses = self.old.accesses } }
    {
        self.variables.set(variable, at);
    }

    /// Gives an access another place.
    pub fn set_cursor(&mut self, access: usize, cursor: u64)
        requires { access < length self.old.accesses }
        ensures { self.new ≡ record { variables = self.old.variables; accesses = at_cursor self.old.accesses access cursor } }
    {
        let old = self.accesses.as_slice()[access];
        self.accesses.set(
            access,
            AccessPlace {
                cursor,
                tensor: old.tensor,
                is_sum: old.is_sum,
            },
        );
    }
}

/// Code that leaves, in three variables from `base` on, that an access is at its one parent. Refused only for want of memory.
pub fn at_top(alloc: Global, base: u64) -> Result<Items<KStmt>, AllocError>
    requires { base ≤ 2 ^ 62 }
    ensures { IfOk result (StartsAt base) }
{
    let mut code = one_statement(alloc, KStmt::Set(base, KExpr::Num(1)))?;
    code.push(KStmt::Set(base + 1, KExpr::Num(0)))?;
    code.push(KStmt::Set(base + 1 + 1, KExpr::Num(1)))?;
    Ok(code)
}
