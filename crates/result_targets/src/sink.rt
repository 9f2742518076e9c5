ghost use Rattle.std.specs.Prelude.{◌≡◌, ◌<◌, ◌≤◌, ◌^◌, length, All, IfOk};
ghost use Rattle.result_targets.specs.Sinks.{Sink, SinkLaws, AddsTo};

use kernel_code::KStmt;
use std::alloc::{AllocError, Global};
use trees::Items;

/// Where the rows that loops add go. A sink is made while code is written, and holds rows in a state of the kernel that
/// runs the code.
pub trait RowSink {
    /// What is seen of the sinks of this type.
    ghost sink: { Sink Self };

    /// Code that adds a row, whose coordinates stand in the variables `keys` and its value in the variable `value`.
    /// Variables from `free` on are its own. Refused for want of memory alone.
    fn add_row(
        &self,
        alloc: Global,
        keys: &[u64],
        value: u64,
        free: u64,
    ) -> Result<Items<KStmt>, AllocError>
        requires many { length keys.now ≡ sink.keys self.now }
        requires keys { All (λ y. y < free) keys.now }
        requires value { value < free }
        requires room { free ≤ 2 ^ 62 }
        ensures { IfOk result (AddsTo sink self.now keys.now value free) };

    /// What is true of all sinks.
    ghost laws: { SinkLaws sink };
}
