//! Counts of faults: what a source, a sink or a spawner tells of the calls that failed.
#![tactic(auto)]

ghost use Rattle.std.specs.Prelude.{◌≡◌, ◌≤◌, ◌+◌, ◌-◌, ◌^◌, min};
ghost use Rattle.cf_fault.specs.Fault.{HasRisen};

/// The count after one more fault. It stands still at the end of its type.
pub fn raise_count(count: u64) -> u64
    ensures exact { result ≡ min (count + 1) (2 ^ 64 - 1) }
    ensures never_falls { count ≤ result }
    ensures risen { HasRisen count result }
{
    count.saturating_add(1)
}
