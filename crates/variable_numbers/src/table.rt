// The variables met so far, each once and in order, and a table of their places.
ghost use Rattle.std.specs.Prelude.{◌≡◌, IfSome, Some, slice_get};
ghost use Rattle.variable_numbers.specs.Numbers.{IsTable};

use std::alloc::{AllocError, Global};
use trees::Items;

/// Variables from here on get no number.
const MOST: u64 = 1 << 16;

/// The variables met so far in order, and at each its place among them.
#[derive(Drop)]
pub(crate) struct Numbers {
    pub names: Items<u64>,
    table: Items<Option<u64>>,
    ghost each_once: { IsTable table names },
}

impl Numbers {
    /// No variable.
    pub(crate) fn new(alloc: Global) -> Numbers {
        Numbers {
            names: Items::new(alloc),
            table: Items::new(alloc),
        }
    }

    /// The table becomes long enough to have a variable. Refused only for want of memory.
    fn make_room(&mut self, x: u64) -> Result<(), AllocError> {
        for _n in self.table.len() as u64..=x {
            self.table.push(None)?;
        }
        Ok(())
    }

    /// A variable is met. Refused only for want of memory.
    pub(crate) fn meet(&mut self, x: u64) -> Result<(), AllocError> {
        if x >= MOST {
            return Ok(());
        }
        self.make_room(x)?;
        if let Some(None) = self.table.get(x as usize) {
            let number = self.names.len() as u64;
            self.names.push(x)?;
            self.table.set(x as usize, Some(number));
        }
        Ok(())
    }

    /// The number of a variable, if it has been met.
    pub(crate) fn number_of(&self, x: u64) -> Option<u64>
        ensures { IfSome result (λ i. slice_get self.now.names i ≡ Some x) }
    {
        match self.table.get(x as usize) {
            Some(number) => *number,
            None => None,
        }
    }
}
