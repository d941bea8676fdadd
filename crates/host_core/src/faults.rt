//! Faults and their counts.
ghost use Rattle.std.specs.Prelude.{◌≡◌, ◌≤◌};
ghost use Rattle.host_core.specs.Faults.{Rose, one_more};

/// A call on the outside failed. It is answered only where the count of faults of the object that was called rose.
#[derive(Clone, Copy, Debug, PartialEq, Eq)]
pub struct Failed;

/// A count after one more. It stays at its last value once it stands there.
pub fn raised(count: u64) -> u64
    ensures rose { Rose count result }
    ensures one { result ≡ one_more count }
    ensures later { count ≤ result }
{
    count.saturating_add(1)
}
