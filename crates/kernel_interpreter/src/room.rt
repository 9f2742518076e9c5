//! Room for the variables of code, so that a run takes no memory for them.
ghost use Rattle.std.specs.Prelude.{◌≡◌, ◌≤◌, IsOk, OnOk};
ghost use Rattle.resolved_code.specs.Rooms.{room_of_code};
ghost use Rattle.kernel_interpreter.specs.Memory.{variable_room};
ghost use Rattle.kernel_interpreter.specs.Store.{state_of};

use crate::machine::Machine;
use resolved_code::{Resolved, greatest_variable};
use std::alloc::AllocError;

/// Gives each variable that code sets, or reads where it stands, a place, whether or not the statement is run. No variable gets a
/// value. Refused for want of memory alone, and never where each has one.
pub fn make_room(machine: &mut Machine, code: &[Resolved]) -> Result<(), AllocError>
    ensures state { OnOk result (state_of machine.new ≡ state_of machine.old) }
    ensures more { OnOk result (variable_room machine.old ≤ variable_room machine.new) }
    ensures room { OnOk result (room_of_code code.now ≤ variable_room machine.new) }
    ensures enough { room_of_code code.now ≤ variable_room machine.old → IsOk result }
{
    match greatest_variable(code) {
        None => Ok(()),
        Some(x) => machine.make_room(x),
    }
}
