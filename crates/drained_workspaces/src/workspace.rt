ghost use Rattle.std.specs.Prelude.{◌≡◌, ◌+◌, ◌<◌, ◌≤◌, ◌^◌, IfOk};
ghost use Rattle.drained_workspaces.specs.Draining.{Draining, DrainingLaws, Sorts, TellsWaiting, TakesRow, Empties};

use kernel_code::{KExpr, KStmt};
use result_targets::RowSink;
use std::alloc::{AllocError, Global};
use trees::Items;

/// A workspace that is drained: rows are added to it as to a sink; then they are sorted and summed, the sums are taken one by one, and it
/// is emptied. None of this code is refused a growth or takes a turn.
pub trait DrainedWorkspace: RowSink {
    /// What is seen of the workspaces of this type.
    ghost draining: { Draining Self };

    /// How many coordinates its rows have.
    fn keys(&self) -> u64
        ensures { result ≡ Self.sink.keys self.now };

    /// Code that sorts and sums the rows: their sums wait. Refused for want of memory alone.
    fn sort(&self, alloc: Global) -> Result<Items<KStmt>, AllocError>
        ensures { IfOk result (Sorts Self.sink draining self.now) };

    /// Whether a row waits: the place of the next one stands in a variable. Refused for want of memory alone.
    fn rows_wait(&self, alloc: Global, at: u64) -> Result<KExpr, AllocError>
        ensures { IfOk result (TellsWaiting draining self.now at) };

    /// Code that takes the next row, whose place stands in a variable: its coordinates are left in the variables from `free` on, and its
    /// value in the one behind them. Variables from `free` on are its own. Refused for want of memory alone.
    fn take_row(&self, alloc: Global, at: u64, free: u64) -> Result<Items<KStmt>, AllocError>
        requires below { at < free }
        requires room { free + Self.sink.keys self.now ≤ 2 ^ 62 }
        ensures { IfOk result (TakesRow Self.sink draining self.now at free) };

    /// Code that empties the workspace once all rows were taken. Refused for want of memory alone.
    fn empty(&self, alloc: Global) -> Result<Items<KStmt>, AllocError>
        ensures { IfOk result (Empties Self.sink draining self.now) };

    /// What is true of all such workspaces.
    ghost draining_laws: { DrainingLaws Self.sink draining };
}
