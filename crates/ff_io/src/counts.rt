//! Counts that stand still at their last value.
ghost use Rattle.std.specs.Prelude.{◌≡◌, ◌≤◌};
ghost use Rattle.ff_io.specs.Counts.{next_count as next_count_of};

use super::outside::Failed;

/// The count after one more; at 2^64 - 1 it stands still.
pub fn next_count(count: u64) -> u64
    ensures next { result ≡ next_count_of count }
    ensures later { count ≤ result }
{
    count.saturating_add(1)
}

/// Counts a fault, and answers it.
pub fn fail(faults: &mut u64) -> Result<usize, Failed>
    ensures failed { result ≡ Err (record {}) }
    ensures count { faults.new ≡ next_count_of faults.old }
    ensures later { faults.old ≤ faults.new }
{
    *faults = next_count(*faults);
    Err(Failed)
}
