//! What is run in threads: jobs, and the lead beside them.
ghost use Rattle.std.specs.Prelude.{ℕ};

/// What a thread of its own does.
pub trait Job: Send {
    /// What it gives.
    type Out;

    /// What is promised of the result, whether the job ran or not.
    ghost keeps: { Self → Self.Out → Type 0 };

    /// Runs, in a thread that was started for it.
    fn run(self) -> Self::Out
        ensures { keeps self result };

    /// Gives a result in place of a run, if no thread was started for it.
    fn unrun(self) -> Self::Out
        ensures { keeps self result };
}

/// What the calling thread does beside the jobs.
pub trait Lead {
    /// What it gives.
    type Out;

    /// What is promised of the result, by the number of jobs that were started.
    ghost ends: { Self → ℕ → Self.Out → Type 0 };

    /// Runs beside the jobs, of which so many were started.
    fn run(self, started: usize) -> Self::Out
        ensures { ends self started result };
}

/// What jobs and their lead gave.
#[derive(Drop)]
pub struct Joined<O, E> {
    /// The result of each job, in the jobs' order.
    pub outs: Vec<O>,
    /// The result of the lead.
    pub end: E,
    /// How many jobs were started. The others gave `unrun`.
    pub started: usize,
}

/// The jobs and the lead, of which none ran: memory was wanting before any job was started.
#[derive(Drop)]
pub struct Unstarted<J, L> {
    /// The jobs, as they were handed in.
    pub jobs: Vec<J>,
    /// The lead.
    pub lead: L,
}
