ghost use Rattle.std.specs.Prelude.{◌≡◌, ◌≤◌, ◌^◌};
ghost use Rattle.kernel_code.specs.Widths.{slot_width};

/// The smallest power of two that is at least 2 and at least twice a number.
pub(crate) fn width_for(most: u64) -> u64
    requires { most ≤ 2 ^ 62 }
    ensures { result ≡ slot_width most }
{
    let power = most.next_power_of_two();
    2 * power
}
