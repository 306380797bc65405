//! Counts of faults: how the disks, links, sources and sinks of the outside tell that a call failed.
#![tactic(auto)]

ghost use Rattle.std.specs.Prelude.{◌≡◌, ◌+◌, ◌-◌, ◌^◌, min};
ghost use Rattle.fault_counts.specs.Rose.{Rose};

/// The count after one more fault. It stays at `u64::MAX` once it is there.
pub fn raised(count: u64) -> u64
    ensures value { result ≡ min (count + 1) (2 ^ 64 - 1) }
    ensures rose { Rose count result }
{
    count.saturating_add(1)
}
