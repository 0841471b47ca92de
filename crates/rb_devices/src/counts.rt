// Counts of faults.

ghost use Rattle.std.specs.Prelude.{◌≡◌};
ghost use Rattle.rb_base.specs.Counts.{risen};

/// Counts one more. At the end of a `u64` the count stands still.
pub fn count_one(count: &mut u64)
    ensures { count.new ≡ risen count.old }
{
    *count = count.saturating_add(1);
}
