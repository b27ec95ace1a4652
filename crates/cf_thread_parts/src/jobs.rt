//! Jobs in threads of their own: their results in order, and how many are started.
ghost use Rattle.std.specs.Prelude.{◌≡◌};

use cf_outside::{Job, Joined, Lead, RefusingSpawner, Spawner, ThreadSpawner};
use std::alloc::{AllocError, Global};
use std::test::Fail;

// A job that gives its number, and tells whether it ran.
#[derive(Drop)]
struct Numbered {
    number: u64,
}

impl Job for Numbered {
    type Out = (u64, bool);

    ghost keeps = { λ job out. out.0 ≡ job.number };

    fn run(self) -> (u64, bool) {
        (self.number, true)
    }

    fn unrun(self) -> (u64, bool) {
        (self.number, false)
    }
}

// A lead that gives a number, and the number of jobs that were started.
#[derive(Drop)]
struct Led {
    number: u64,
}

impl Lead for Led {
    type Out = (u64, usize);

    ghost ends = { λ lead started end. (end.0 ≡ lead.number) × (end.1 ≡ started) };

    fn run(self, started: usize) -> (u64, usize) {
        (self.number, started)
    }
}

/// What the jobs of the first so many numbers give, in their order, and what their lead gives.
fn run_numbered<S: Spawner>(
    alloc: Global,
    spawner: &mut S,
    count: u64,
) -> Result<Joined<(u64, bool), (u64, usize)>, AllocError> {
    let mut jobs = Vec::new(alloc);
    for number in 0..count {
        jobs.push(Numbered { number })?;
    }
    let Ok(joined) = spawner.run_all(jobs, Led { number: 7 }) else {
        return Err(AllocError);
    };
    Ok(joined)
}

/// Whether results are those of the jobs of so many numbers, in order, and how many jobs ran.
fn outcome(outs: &[(u64, bool)], count: u64) -> (bool, usize) {
    let in_order = outs.iter().map(|out| out.0).eq(0..count);
    (in_order, outs.iter().filter(|out| out.1).count())
}

#[test]
fn jobs_in_threads(rt: HostRuntime) -> Result<(), Fail> {
    let alloc = rt.alloc();
    let mut threads = ThreadSpawner::new(&rt);
    let mut refusing = RefusingSpawner::new(&rt, 1);
    for (case, joined, count, started) in [
        ("no job", run_numbered(alloc, &mut threads, 0)?, 0, 0),
        ("64 jobs", run_numbered(alloc, &mut threads, 64)?, 64, 64),
        (
            "no job to refuse",
            run_numbered(alloc, &mut refusing, 0)?,
            0,
            0,
        ),
        ("one job", run_numbered(alloc, &mut refusing, 1)?, 1, 1),
        (
            "the second start refused",
            run_numbered(alloc, &mut refusing, 4)?,
            4,
            1,
        ),
    ] {
        assert_eq!(rt;
            (outcome(&joined.outs, count), joined.started, joined.end),
            ((true, started), started, (7, started)),
            "{case}"
        );
    }
    Ok(())
}
