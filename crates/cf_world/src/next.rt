//! What a thread and what the lead do next.
ghost use Rattle.std.specs.Prelude.{◌≡◌};
ghost use Rattle.cf_world.specs.Begun.{halted};

use cf_model::Action;

/// What a thread does next.
#[derive(Clone, Copy)]
pub enum Next {
    /// This action.
    Act(Action),
    /// It sleeps.
    Asleep,
    /// It is not started.
    Waiting,
    /// It is done.
    Done,
    /// The journal is at its limit.
    Limit,
    /// Its action makes an object, and as many were made as one run may make.
    Full,
}

/// Why a thread has no action that it may do.
#[derive(Clone, Copy)]
pub(crate) enum Halt {
    Asleep,
    Waiting,
    Done,
    Limit,
    Full,
}

impl Halt {
    /// The same as callers see it.
    #[inline(always)]
    pub fn next(self) -> Next
        ensures { result ≡ halted self }
    {
        match self {
            Halt::Asleep => Next::Asleep,
            Halt::Waiting => Next::Waiting,
            Halt::Done => Next::Done,
            Halt::Limit => Next::Limit,
            Halt::Full => Next::Full,
        }
    }
}

/// What the lead does next, which moves time where all threads sleep.
#[derive(Clone, Copy)]
pub enum LeadNext {
    /// A tick to at least this time, the least date of a sleeper, in ticks.
    Tick(u64),
    /// A stall: all sleep, and none has a date.
    Stall,
    /// Nothing: some started thread neither sleeps nor is done.
    Busy,
    /// Nothing more: all are done, or the last entry is a stall.
    Over,
}
