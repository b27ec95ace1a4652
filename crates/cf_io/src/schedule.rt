//! Which calls of an object in memory fail.
ghost use Rattle.std.specs.Prelude.{◌≡◌, ◌≤◌, ◌↔◌, ◌+◌, ◌-◌, ◌^◌, min, Contains, IsErr};
ghost use Rattle.cf_fault.specs.Fault.{HasCause, HasRisen};
ghost use Rattle.cf_io.specs.Faults.{faults_after};

use crate::Failed;
use cf_fault::raise_count;

// Calls are counted from 0, and those that are listed fail.
#[derive(Drop)]
pub struct Schedule {
    failing: Vec<u64>,
    calls: u64,
    // How many failed. It stands still at the end of its type.
    pub faults: u64,
}

impl Schedule {
    // No call was made yet.
    pub fn new(failing: Vec<u64>) -> Schedule
        ensures failing { result.failing.items ≡ failing.items }
        ensures calls { result.calls ≡ 0 }
        ensures faults { result.faults ≡ 0 }
    {
        Schedule {
            failing,
            calls: 0,
            faults: 0,
        }
    }

    // Begins the next call, which may be one that fails.
    pub fn begin(&mut self) -> Result<(), Failed>
        ensures listed { IsErr result ↔ Contains self.old.failing.items self.old.calls }
        ensures calls { self.new.calls ≡ min (self.old.calls + 1) (2 ^ 64 - 1) }
        ensures failing { self.new.failing ≡ self.old.failing }
        ensures faults { self.new.faults ≡ faults_after result self.old.faults }
        ensures cause { HasCause result self.old.faults self.new.faults }
    {
        let call = self.calls;
        self.calls = raise_count(call);
        if self.failing.contains(&call) {
            return Err(self.fault());
        }
        Ok(())
    }

    // Counts a fault.
    pub fn fault(&mut self) -> Failed
        ensures calls { self.new.calls ≡ self.old.calls }
        ensures failing { self.new.failing ≡ self.old.failing }
        ensures faults { self.new.faults ≡ min (self.old.faults + 1) (2 ^ 64 - 1) }
        ensures never_falls { self.old.faults ≤ self.new.faults }
        ensures risen { HasRisen self.old.faults self.new.faults }
    {
        self.faults = raise_count(self.faults);
        Failed
    }
}
