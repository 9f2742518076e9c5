ghost use Rattle.std.specs.Prelude.{◌≡◌, ◌≤◌, true};
ghost use Rattle.limits.specs.Limits.{greatest_position_count};
ghost use Rattle.level_core.specs.Logs.{total, running};

use coordinate_lists::Indices;

/// Puts in the place of each number its sum with those before it.
pub(crate) fn sum_up(numbers: &mut Indices)
    requires few { total numbers.old.items ≤ greatest_position_count }
    requires wide { numbers.old.wide ≡ true }
    ensures items { numbers.new.items ≡ running 0 numbers.old.items }
    ensures spare { numbers.new.spare ≡ numbers.old.spare }
    ensures wide { numbers.new.wide ≡ true }
{
    let mut sum = 0;
    for i in 0..numbers.len() {
        sum += numbers.get(i);
        numbers.set(i, sum);
    }
}
