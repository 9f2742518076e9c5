//! The arrays of workspaces and scratch lists as a run starts.
ghost use Rattle.std.specs.Prelude.{◌≡◌, OnOk};
ghost use Rattle.kernel_interpreter.specs.Store.{state_of};
ghost use Rattle.machine_starts.specs.Begun.{with_keys, with_workspaces, with_lists};

use crate::empty::add_empty;
use kernel_code::Arr;
use kernel_interpreter::Machine;
use std::alloc::{AllocError, Global};

/// The keys of a workspace, with no words.
fn begin_keys(
    machine: &mut Machine,
    alloc: Global,
    workspace: u64,
    keys: u64,
) -> Result<(), AllocError>
    ensures { OnOk result (state_of machine.new ≡ with_keys workspace keys (state_of machine.old)) }
{
    for key in 0..keys {
        add_empty(machine, alloc, Arr::Key(workspace, key))?;
    }
    Ok(())
}

/// Workspaces of so many keys each, with no rows.
fn begin_workspaces(
    machine: &mut Machine,
    alloc: Global,
    workspaces: &[u64],
) -> Result<(), AllocError>
    ensures { OnOk result (state_of machine.new ≡ with_workspaces workspaces.now 0 (state_of machine.old)) }
{
    for number in 0..workspaces.len() {
        begin_keys(machine, alloc, number as u64, workspaces[number])?;
        add_empty(machine, alloc, Arr::Sums(number as u64))?;
    }
    Ok(())
}

/// So many scratch lists, with no rows.
fn begin_lists(machine: &mut Machine, alloc: Global, lists: u64) -> Result<(), AllocError>
    ensures { OnOk result (state_of machine.new ≡ with_lists lists (state_of machine.old)) }
{
    for list in 0..lists {
        add_empty(machine, alloc, Arr::ListCoordinates(list))?;
        add_empty(machine, alloc, Arr::ListPositions(list))?;
    }
    Ok(())
}

/// The workspaces and the scratch lists of a kernel, with no rows. Refused for want of memory alone.
pub fn begin_scratch(
    machine: &mut Machine,
    alloc: Global,
    workspaces: &[u64],
    lists: u64,
) -> Result<(), AllocError>
    ensures { OnOk result (state_of machine.new ≡ with_lists lists (with_workspaces workspaces.now 0 (state_of machine.old))) }
{
    begin_workspaces(machine, alloc, workspaces)?;
    begin_lists(machine, alloc, lists)
}
