//! What starts threads.
ghost use Rattle.std.specs.Prelude.{◌≡◌, ◌<◌, ◌≤◌, ℕ, IfOk, IfErr, OnErr, vec_len};
ghost use Rattle.std.specs.List.{AllZip};
ghost use Rattle.cf_fault.specs.Fault.{HasRisen};

use crate::jobs::{Job, Joined, Lead, Unstarted};
use crate::starts::run_beside;
use std::sync::Wait;
use std::thread::Threads;

/// What starts threads. It counts the starts that were refused, and the count never falls.
pub trait Spawner {
    /// What threads are started by, and waited for.
    type Runtime: Threads + Wait;

    /// How many starts were refused. At 2^64 - 1 the count stands still, and is taken as risen.
    ghost refusals: { Self → ℕ };

    /// How many threads one run may have.
    ghost threads: { Self → ℕ };

    /// What threads are started by.
    fn runtime(&self) -> &Self::Runtime;

    /// How many threads one run may have. It refuses the start of a further one.
    fn most(&self) -> usize
        ensures { result ≡ threads self.now };

    /// Counts a refused start.
    fn count_refusal(&mut self)
        ensures never_falls { refusals self.old ≤ refusals self.new }
        ensures risen { HasRisen (refusals self.old) (refusals self.new) }
        ensures threads { threads self.new ≡ threads self.old };

    /// Starts each job in a thread of its own, runs the lead with the number started, and joins them all. After a
    /// start that was refused no further job is started; those that were not give `unrun`. It may wait.
    final fn run_all<J: Job + Drop, L: Lead + Drop>(
        &mut self,
        jobs: Vec<J>,
        lead: L,
    ) -> Result<Joined<J::Out, L::Out>, Unstarted<J, L>>
    where
        J::Out: Send + Drop,
        // Each result is what its job promised, and they stand in the jobs' order.
        ensures outs { IfOk result (λ joined. AllZip J.keeps jobs.items joined.outs.items) }
        ensures lead { IfOk result (λ joined. L.ends lead joined.started joined.end) }
        ensures started { IfOk result (λ joined. joined.started ≤ vec_len jobs) }
        ensures within { IfOk result (λ joined. joined.started ≤ threads self.old) }

        // The count has risen if fewer jobs were started, and else it is as before.
        ensures fewer { IfOk result (λ joined. joined.started < vec_len jobs →
            HasRisen (refusals self.old) (refusals self.new)) }
        ensures all { IfOk result (λ joined. joined.started ≡ vec_len jobs → self.new ≡ self.old) }
        ensures never_falls { refusals self.old ≤ refusals self.new }
        ensures threads { threads self.new ≡ threads self.old }

        // Only want of memory refuses a run, before any job is started.
        ensures back { IfErr result (λ unstarted. (unstarted.jobs ≡ jobs) × (unstarted.lead ≡ lead)) }
        ensures err { OnErr result (self.new ≡ self.old) }
    {
        let count = jobs.len();
        let most = self.most();
        let joined = run_beside(self.runtime(), most, jobs, lead)?;
        if joined.started < count {
            self.count_refusal();
        }
        Ok(joined)
    }
}
