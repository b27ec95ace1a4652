//! A sink in memory.
ghost use Rattle.std.specs.Prelude.{◌≡◌, ◌<◌, ◌++◌, [], Some, length, take, min, Contains, IfOk, OnErr, IsErr};
ghost use Rattle.cf_fault.specs.Fault.{HasCause};
ghost use Rattle.cf_io.specs.Memory.{after_call};
ghost use Rattle.cf_io.specs.Faults.{faults_after};

use crate::schedule::Schedule;
use crate::{Failed, Sink};
use std::alloc::Global;
use std::marker::Model;

/// Bytes in memory. It tells what it has taken; calls of `write`, counted from 0, fail if they are listed, and
/// if its memory cannot grow.
#[derive(Drop)]
pub struct MemSink {
    bytes: Vec<u8>,
    schedule: Schedule,
    most: usize,
}

impl Model for MemSink {
    ghost use Rattle.std.specs.Prelude.{◌<◌};
    ghost use Rattle.cf_io.specs.Memory.{SinkState};

    ghost Value = { SinkState };

    ghost view = { λ s. record {
      taken = s.bytes.items;
      faults = s.schedule.faults;
      plan = record { failing = s.schedule.failing.items; calls = s.schedule.calls; most = s.most };
    } };

    ghost invariant = { λ s. 0 < s.most };
}

impl MemSink {
    /// A sink that has taken nothing; the calls listed in `failing` fail, and a write takes at most `most` bytes.
    pub fn new(alloc: Global, failing: Vec<u64>, most: usize) -> MemSink
        requires { 0 < most }
        ensures taken { result.taken ≡ [] }
        ensures faults { result.faults ≡ 0 }
        ensures plan { result.plan ≡ record { failing = failing.items; calls = 0; most = most } }
    {
        MemSink {
            bytes: Vec::new(alloc),
            schedule: Schedule::new(failing),
            most,
        }
    }

    /// The bytes that it has taken.
    pub fn taken(&self) -> &[u8]
        ensures { result.now ≡ self.now.taken }
    {
        &self.bytes
    }
}

impl Sink for MemSink {
    ghost taken = { λ s. Some s.taken };

    ghost faults = { λ s. s.faults };

    fn write(&mut self, bytes: &[u8]) -> Result<usize, Failed>
        ensures failed { Contains self.old.plan.failing self.old.plan.calls → IsErr result }
        ensures count { IfOk result (λ n. n ≡ min (length bytes.now) self.old.plan.most) }
        ensures some { IfOk result (λ n. 0 < length bytes.now → 0 < n) }
        ensures taken { IfOk result (λ n. self.new.taken ≡ self.old.taken ++ take n bytes.now) }
        ensures kept { OnErr result (self.new.taken ≡ self.old.taken) }
        ensures plan { self.new.plan ≡ after_call self.old.plan }
        ensures faults { self.new.faults ≡ faults_after result self.old.faults }
        ensures cause { HasCause result self.old.faults self.new.faults }
    {
        self.schedule.begin()?;
        let count = bytes.len().min(self.most);
        match self.bytes.extend_from_slice(&bytes[..count]) {
            Ok(()) => Ok(count),
            Err(_) => Err(self.schedule.fault()),
        }
    }
}
