//! A spawner over the threads of the system.
ghost use Rattle.std.specs.Prelude.{◌≡◌, ◌≤◌, ◌-◌, ◌^◌};
ghost use Rattle.cf_fault.specs.Fault.{HasRisen};

use crate::spawners::Spawner;
use cf_fault::raise_count;
use std::marker::Model;
use std::sync::Wait;
use std::thread::Threads;

/// Starts threads of the system. The system may refuse one.
#[derive(Drop)]
pub struct ThreadSpawner<R: Threads + Wait> {
    rt: R,
    refusals: u64,
}

impl<R: Threads + Wait> Model for ThreadSpawner<R> {
    ghost use Rattle.std.specs.Prelude.{ℕ};

    ghost Value = { ℕ };

    ghost view = { λ spawner. spawner.refusals };
}

impl<R: Threads + Wait> ThreadSpawner<R> {
    /// A spawner that has counted no refusal. Contracts see it as that count.
    pub fn new(rt: R) -> ThreadSpawner<R>
        ensures { result ≡ 0 }
    {
        ThreadSpawner { rt, refusals: 0 }
    }
}

impl<R: Threads + Wait> Spawner for ThreadSpawner<R> {
    type Runtime = R;

    ghost refusals = { λ spawner. spawner };

    ghost threads = { λ _. 2 ^ 64 - 1 };

    fn runtime(&self) -> &R {
        &self.rt
    }

    fn most(&self) -> usize {
        usize::MAX
    }

    fn count_refusal(&mut self) {
        self.refusals = raise_count(self.refusals);
    }
}
