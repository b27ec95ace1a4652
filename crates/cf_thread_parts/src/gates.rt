//! Gates: who is held up, and what a gate at which threads meet tells.
ghost use Rattle.std.specs.Prelude.{◌≡◌};

use cf_ids::ThreadId;
use cf_outside::{Gate, Job, Lead, MeetGate, OpenGate, Spawner, ThreadSpawner};
use std::alloc::{AllocError, Global};
use std::sync::Arc;
use std::test::Fail;

// A job that passes a gate as a thread.
#[derive(Drop)]
struct Passing {
    gate: Arc<MeetGate, Global>,
    thread: ThreadId,
}

impl Job for Passing {
    type Out = ThreadId;

    ghost keeps = { λ job out. out ≡ job.thread };

    fn run(self) -> ThreadId {
        self.gate.pass(self.thread, 0);
        self.thread
    }

    fn unrun(self) -> ThreadId {
        self.thread
    }
}

// A lead that does nothing.
#[derive(Drop)]
struct Idle;

impl Lead for Idle {
    type Out = ();

    ghost ends = { λ _ _ _. Unit {0} };

    fn run(self, _started: usize) {}
}

/// What a gate tells: whether both threads came, and whether the turns of one ran out.
fn told(gate: &MeetGate) -> [bool; 2] {
    [gate.both_came(), gate.ran_out()]
}

/// The jobs of the threads 1 and 2, which pass a gate.
fn two(alloc: Global, gate: &Arc<MeetGate, Global>) -> Result<Vec<Passing>, AllocError> {
    let mut jobs = Vec::new(alloc);
    jobs.push(Passing {
        gate: Arc::try_clone(gate)?,
        thread: ThreadId(1),
    })?;
    jobs.push(Passing {
        gate: Arc::try_clone(gate)?,
        thread: ThreadId(2),
    })?;
    Ok(jobs)
}

#[test]
fn two_threads_meet(rt: HostRuntime) -> Result<(), Fail> {
    let gate = Arc::new(rt.alloc(), MeetGate::new())?;
    let jobs = two(rt.alloc(), &gate)?;
    let done = ThreadSpawner::new(&rt).run_all(jobs, Idle).is_ok();
    assert_eq!(rt; (done, told(&gate)), (true, [true, false]), "they meet");
    Ok(())
}

#[test]
fn gates(rt: HostRuntime) {
    OpenGate.pass(ThreadId(1), 0);
    let gate = MeetGate::new();
    gate.pass(ThreadId(3), 0);
    gate.pass(ThreadId(1), 1);
    assert_eq!(rt;
        told(&gate),
        [false, false],
        "another thread, and a later pass"
    );
    gate.pass(ThreadId(1), 0);
    assert_eq!(rt; told(&gate), [false, true], "one thread alone");
    gate.pass(ThreadId(2), 0);
    assert_eq!(rt; told(&gate), [true, true], "the other one too late");
}
