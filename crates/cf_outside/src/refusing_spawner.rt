//! A spawner that refuses a start, for tests.
ghost use Rattle.std.specs.Prelude.{◌≡◌, ◌≤◌};
ghost use Rattle.cf_fault.specs.Fault.{HasRisen};

use crate::spawners::Spawner;
use cf_fault::raise_count;
use std::marker::Model;
use std::sync::Wait;
use std::thread::Threads;

/// Starts threads of the system, but for one start in each run, which it refuses.
#[derive(Drop)]
pub struct RefusingSpawner<R: Threads + Wait> {
    rt: R,
    refused: usize,
    refusals: u64,
}

impl<R: Threads + Wait> Model for RefusingSpawner<R> {
    ghost use Rattle.cf_outside.specs.Refusals.{Refusals};

    ghost Value = { Refusals };

    ghost view = { λ spawner. record { refused = spawner.refused; counted = spawner.refusals } };
}

impl<R: Threads + Wait> RefusingSpawner<R> {
    /// A spawner that has counted no refusal. In each run the start of this number, counted from 0, is refused.
    pub fn new(rt: R, refused: usize) -> RefusingSpawner<R>
        ensures { result ≡ record { refused = refused; counted = 0 } }
    {
        RefusingSpawner {
            rt,
            refused,
            refusals: 0,
        }
    }
}

impl<R: Threads + Wait> Spawner for RefusingSpawner<R> {
    type Runtime = R;

    ghost refusals = { λ spawner. spawner.counted };

    ghost threads = { λ spawner. spawner.refused };

    fn runtime(&self) -> &R {
        &self.rt
    }

    fn most(&self) -> usize {
        self.refused
    }

    fn count_refusal(&mut self) {
        self.refusals = raise_count(self.refusals);
    }
}
