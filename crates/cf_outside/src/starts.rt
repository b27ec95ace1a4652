//! How jobs are started and joined.
ghost use Rattle.std.specs.Prelude.{◌≡◌, ◌+◌, ◌≤◌, ◌<◌, ◌^◌, [], IsTrue, IfOk, IfErr, OnOk, vec_len, vec_capacity};
ghost use Rattle.std.specs.List.{AllZip};

use crate::jobs::{Job, Joined, Lead, Unstarted};
use std::snapshot::Snapshot;
use std::sync::Wait;
use std::sync::atomic::{AtomicUsize, Ordering};
use std::thread;
use std::thread::{Promise, PromisedHandle, Scope, SpawnError, Threads};

// What the thread of a job promises: what the job did.
#[derive(Drop)]
struct JobPromise<J>(Snapshot<J>);

impl<J: Job> Promise<J::Out> for JobPromise<J> {
    ghost kept_by = { λ promise out. J.keeps promise.0.value out };
}

// The results of jobs for which no thread is started.
fn unrun_all<J: Job + Drop>(mut jobs: Vec<J>, outs: Vec<J::Out>) -> Vec<J::Out>
where
    J::Out: Drop,
    requires none { outs.items ≡ [] }
    requires room { vec_len jobs ≤ vec_capacity outs }
    ensures outs { AllZip J.keeps jobs.items result.items }
    ensures len { vec_len result ≡ vec_len jobs }
    ensures room { vec_capacity result ≡ vec_capacity outs }
{
    match jobs.pop() {
        None => outs,
        Some(job) => {
            let mut outs = unrun_all(jobs, outs);
            outs.push_reserved(job.unrun());
            outs
        }
    }
}

// Starts a thread that keeps a promise, if it is allowed. Else it is refused, as by the system.
fn start<'s, E, P: Promise<T> + Drop, F: FnOnce() -> T + Send + 's, T: Send + Drop + 's>(
    scope: &Scope<'s, E>,
    is_allowed: bool,
    promise: P,
    work: F,
) -> Result<PromisedHandle<T, P>, SpawnError<F>>
    requires callable { F.pre work }
    requires keeps { (out : T) → F.post work out → P.kept_by promise out }
    ensures allowed { OnOk result (IsTrue is_allowed) }
    ensures promise { IfOk result (λ handle. handle.promise ≡ promise) }
    ensures back { IfErr result (λ refused. refused.value ≡ work) }
{
    if is_allowed {
        scope.spawn_with(promise, work)
    } else {
        Err(SpawnError { value: work })
    }
}

// Starts the jobs, the last one first, then runs the lead, and joins them on the way back. `started` were started
// before, and no more than `most` are. A thread that was refused gives its job back inside of its work, so the work
// asks `limit`, which is set to the number started at a refusal, whether to run or not.
fn start_rest<'s, E, J: Job + Drop + 's, L: Lead + Drop, R: Threads>(
    rt: &R,
    scope: &Scope<'s, E>,
    limit: &'s AtomicUsize,
    most: usize,
    started: usize,
    mut jobs: Vec<J>,
    lead: L,
    outs: Vec<J::Out>,
) -> Joined<J::Out, L::Out>
where
    J::Out: Send + Drop + 's,
    requires none { outs.items ≡ [] }
    requires room { vec_len jobs ≤ vec_capacity outs }
    requires count { started + vec_len jobs < 2 ^ 64 }
    requires within { started ≤ most }
    ensures outs { AllZip J.keeps jobs.items result.outs.items }
    ensures len { vec_len result.outs ≡ vec_len jobs }
    ensures room { vec_capacity result.outs ≡ vec_capacity outs }
    ensures lead { L.ends lead result.started result.end }
    ensures started { result.started ≤ started + vec_len jobs }
    ensures within { result.started ≤ most }
{
    let Some(job) = jobs.pop() else {
        let end = lead.run(started);
        return Joined { outs, end, started };
    };
    let promise = JobPromise(Snapshot::of(&job));
    let work = move || {
        if started < limit.load(Ordering::SeqCst) {
            job.run()
        } else {
            job.unrun()
        }
    };
    match start(scope, started < most, promise, work) {
        Ok(handle) => {
            let mut joined = start_rest(rt, scope, limit, most, started + 1, jobs, lead, outs);
            joined.outs.push_reserved(handle.join(rt));
            joined
        }
        Err(refused) => {
            limit.store(started, Ordering::SeqCst);
            let end = lead.run(started);
            let mut outs = unrun_all(jobs, outs);
            outs.push_reserved((refused.value)());
            Joined { outs, end, started }
        }
    }
}

// Runs jobs in threads beside a lead, at most so many of them.
pub(crate) fn run_beside<J: Job + Drop, L: Lead + Drop, R: Threads + Wait>(
    rt: &R,
    most: usize,
    jobs: Vec<J>,
    lead: L,
) -> Result<Joined<J::Out, L::Out>, Unstarted<J, L>>
where
    J::Out: Send + Drop,
    ensures outs { IfOk result (λ joined. AllZip J.keeps jobs.items joined.outs.items) }
    ensures lead { IfOk result (λ joined. L.ends lead joined.started joined.end) }
    ensures started { IfOk result (λ joined. joined.started ≤ vec_len jobs) }
    ensures within { IfOk result (λ joined. joined.started ≤ most) }
    ensures back { IfErr result (λ unstarted. (unstarted.jobs ≡ jobs) × (unstarted.lead ≡ lead)) }
{
    let Ok(outs) = Vec::with_capacity(*jobs.allocator(), jobs.len()) else {
        return Err(Unstarted { jobs, lead });
    };
    let limit = AtomicUsize::new(usize::MAX);
    let limit = &limit;
    Ok(thread::scope(
        thread::scope_env(),
        rt,
        move |scope| -> Joined<J::Out, L::Out>
            requires { (outs.items ≡ []) × (vec_len jobs ≤ vec_capacity outs) }
            ensures { AllZip J.keeps jobs.items result.outs.items
                × L.ends lead result.started result.end
                × (result.started ≤ vec_len jobs)
                × (result.started ≤ most) }
        { start_rest(rt, scope, limit, most, 0, jobs, lead, outs) },
    ))
}
