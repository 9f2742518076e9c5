//! Arrays with no words.
ghost use Rattle.std.specs.Prelude.{◌≡◌, [], OnOk, true};
ghost use Rattle.kernel_code.specs.Arrays.{may_write};
ghost use Rattle.kernel_code.specs.Meaning.{set_array};
ghost use Rattle.kernel_interpreter.specs.Store.{state_of};

use kernel_code::Arr;
use kernel_interpreter::Machine;
use seg_buffer::Segment;
use std::alloc::{AllocError, Global};

/// Gives an array that a kernel may write no words. Refused for want of memory alone.
pub(crate) fn add_empty(machine: &mut Machine, alloc: Global, a: Arr) -> Result<(), AllocError>
    requires { may_write a ≡ true }
    ensures { OnOk result (state_of machine.new ≡ set_array (state_of machine.old) a []) }
{
    machine.add_array(a, Segment::new(alloc))?;
    Ok(())
}
