// A workspace: the pairs that were added since it was empty.
ghost use Rattle.std.specs.Prelude.{◌≡◌, ◌≤◌, ◌↔◌, [], ◌∷◌, ◌++◌, length, IsOk, IfOk, OnOk, OnErr};
ghost use Rattle.limits.specs.Limits.{greatest_order, greatest_workspace_pairs};
ghost use Rattle.workspaces.specs.Workspaces.{AreSums};
ghost use Rattle.workspaces.specs.declared.coord_workspace.AddFault.TheVariants.{Full};

use limits::greatest_pairs_of_workspace;
use numbers::Semiring;
use std::alloc::{AllocError, Global};
use std::marker::Model;
use std::mem;
use tensor_map::Entries;

/// Why a pair isn't added.
#[derive(Debug, Drop)]
pub enum AddFault {
    /// The workspace holds the greatest number of pairs.
    Full,
    /// Want of memory.
    Memory(AllocError),
}

/// A list of pairs, coordinates and a value, that may repeat coordinates.
#[derive(Debug, Drop)]
pub struct CoordWorkspace {
    alloc: Global,
    pairs: Entries,
}

impl Model for CoordWorkspace {
    ghost use Rattle.std.specs.Prelude.{◌≤◌, length};
    ghost use Rattle.limits.specs.Limits.{greatest_workspace_pairs};
    ghost use Rattle.workspaces.specs.Workspaces.{Workspace};

    ghost Value = { Workspace };

    ghost view = { λ w. record { keys = w.pairs.order; pairs = w.pairs.list } };

    ghost invariant = { λ w. length w.pairs.list ≤ greatest_workspace_pairs };
}

impl CoordWorkspace {
    /// An empty workspace whose pairs have so many coordinates. It takes no memory.
    pub fn new(alloc: Global, keys: usize) -> Result<CoordWorkspace, AllocError>
        requires { keys ≤ greatest_order }
        ensures keys { IfOk result (λ workspace. workspace.keys ≡ keys) }
        ensures empty { IfOk result (λ workspace. workspace.pairs ≡ []) }
        ensures succeeds { IsOk result }
    {
        Ok(CoordWorkspace {
            alloc,
            pairs: Entries::new(alloc, keys)?,
        })
    }

    /// The number of coordinates of each pair.
    pub fn keys(&self) -> usize
        ensures value { result ≡ self.now.keys }
        ensures short { result ≤ greatest_order }
    {
        self.pairs.order()
    }

    /// Adds a pair. It is refused with `Full` exactly where the workspace holds the greatest number of pairs, and
    /// else for want of memory alone; refused, the workspace is as before.
    pub fn add(&mut self, coords: &[u64], v: u64) -> Result<(), AddFault>
        requires { length coords.now ≡ self.old.keys }
        ensures keys { self.new.keys ≡ self.old.keys }
        ensures added { OnOk result (self.new.pairs ≡ self.old.pairs ++ record { coords = coords.now; value = v } ∷ []) }
        ensures full { (result ≡ Err Full) ↔ (length self.old.pairs ≡ greatest_workspace_pairs) }
        ensures refused { OnErr result (self.new ≡ self.old) }
        ensures within { length self.new.pairs ≤ greatest_workspace_pairs }
    {
        if self.pairs.len() as u64 >= greatest_pairs_of_workspace() {
            return Err(AddFault::Full);
        }
        self.pairs.push(coords, v).map_err(AddFault::Memory)
    }

    /// The sums of the pairs that were added since the workspace was empty, in increasing order of their coordinates:
    /// values of equal coordinates are added, as `S` says, and a sum of zero stays. It empties the workspace. Refused
    /// for want of memory, the workspace is as before.
    pub fn drain_sorted<S: Semiring>(&mut self) -> Result<Entries, AllocError>
        ensures order { IfOk result (λ sums. sums.order ≡ self.old.keys) }
        ensures sums { IfOk result (λ sums. AreSums S.arithmetic self.old.pairs sums.list) }
        ensures shorter { IfOk result (λ sums. length sums.list ≤ length self.old.pairs) }
        ensures keys { self.new.keys ≡ self.old.keys }
        ensures emptied { OnOk result (self.new.pairs ≡ []) }
        ensures err { OnErr result (self.new ≡ self.old) }
    {
        let empty = Entries::new(self.alloc, self.pairs.order())?;
        self.pairs.sort_sum::<S>()?;
        Ok(mem::replace(&mut self.pairs, empty))
    }
}
