//! The state of a run.
ghost use Rattle.std.specs.Prelude.{◌≡◌, ◌||◌, not, IfOk};
ghost use Rattle.std.specs.List.{list_all, list_any};
ghost use Rattle.cf_model.specs.State.{start, threads_of};
ghost use Rattle.cf_model.specs.Known.{facts_of};
ghost use Rattle.cf_state.specs.Known.{facts_in};
ghost use Rattle.cf_model.specs.Journals.{all_sleep, can_go, due_date, is_going, sleeper_date, sleeps, ticked};
ghost use Rattle.cf_state.specs.States.{state_of};

use crate::dates::earlier;
use crate::known::Known;
use crate::parts::{Common, Flags, Parts, Sleep, flags_at};
use crate::stands::Stands;
use cf_references::Reference;
use cf_syntax::Script;
use std::alloc::{AllocError as NoMemory, Global};

/// The state of a run: its parts, the references, and where each thread stands.
#[derive(Drop)]
pub struct State {
    pub parts: Parts,
    pub edges: Vec<Reference>,
    pub stands: Stands,
}

/// Each loop has `default` as its one common mode.
fn opening_commons(alloc: Global, script: &Script) -> Result<Vec<Common>, NoMemory>
    ensures { IfOk result (λ v. v.items ≡ (start script.now).parts.commons) }
{
    let mut commons = Vec::new(alloc);
    let mut thread = 0;
    while thread < script.threads() {
        commons.push(Common { thread, mode: 0 })?;
        thread += 1;
    }
    Ok(commons)
}

/// Setup alone is started.
fn opening_flags(alloc: Global, script: &Script) -> Result<Vec<Flags>, NoMemory>
    ensures { IfOk result (λ v. v.items ≡ (start script.now).parts.flags) }
{
    let mut flags = Vec::new(alloc);
    let mut thread = 0;
    while thread < script.threads() {
        flags.push(Flags::of(thread == 0))?;
        thread += 1;
    }
    Ok(flags)
}

/// No object, no reference and time 0; setup alone is started, and each loop has `default` as its one common mode.
pub fn start(alloc: Global, script: &Script) -> Result<State, NoMemory>
    ensures { IfOk result (λ s. state_of s ≡ start script.now) }
{
    let commons = opening_commons(alloc, script)?;
    let flags = opening_flags(alloc, script)?;
    let stands = Stands::opening(alloc, script)?;
    let parts = Parts {
        objects: Vec::new(alloc),
        finalised: Vec::new(alloc),
        dropped: Vec::new(alloc),
        commons,
        registrations: Vec::new(alloc),
        flags,
        time: 0,
    };
    Ok(State {
        parts,
        edges: Vec::new(alloc),
        stands,
    })
}

impl State {
    /// The facts of the state.
    pub fn known(&self) -> Known<'_>
        ensures { facts_in result.parts.now result.edges.now ≡ facts_of (state_of self.now) }
    {
        Known {
            parts: &self.parts,
            edges: self.edges.as_slice(),
        }
    }

    /// Whether a thread is started and not done.
    pub fn is_going(&self, thread: usize) -> bool
        ensures { result ≡ is_going (state_of self.now) thread }
    {
        flags_at(self.parts.flags.as_slice(), thread).is_started && !self.stands.is_done(thread)
    }

    /// Whether the loop of a thread sleeps.
    pub fn sleeps(&self, thread: usize) -> bool
        ensures { result ≡ sleeps (state_of self.now) thread }
    {
        match flags_at(self.parts.flags.as_slice(), thread).sleep {
            Sleep::Awake => false,
            Sleep::Until(_) => true,
        }
    }

    /// The date of a thread that sleeps and is not done.
    fn sleeper_date(&self, thread: usize) -> Option<u64>
        ensures { result ≡ sleeper_date (state_of self.now) thread }
    {
        if !self.is_going(thread) {
            return None;
        }
        match flags_at(self.parts.flags.as_slice(), thread).sleep {
            Sleep::Awake => None,
            Sleep::Until(date) => date,
        }
    }

    /// The least date of a sleeper, if one has a date.
    pub fn due_date(&self, script: &Script) -> Option<u64>
        ensures { result ≡ due_date script.now (state_of self.now) }
    {
        let mut left = script.threads();
        let mut least = None;
        while left > 0 {
            left -= 1;
            least = earlier(self.sleeper_date(left), least);
        }
        least
    }

    /// Whether some thread is started and not done.
    fn some_goes(&self, script: &Script) -> bool
        ensures { result ≡ list_any (is_going (state_of self.now)) (threads_of script.now) }
    {
        (0..script.threads()).any(|thread| self.is_going(thread))
    }

    /// Whether a thread sleeps, is done or is not started.
    fn rests(&self, thread: usize) -> bool
        ensures { let st = state_of self.now in result ≡ (not (is_going st thread) || sleeps st thread) }
    {
        !self.is_going(thread) || self.sleeps(thread)
    }

    /// Whether each thread sleeps, is done or is not started.
    fn all_rest(&self, script: &Script) -> bool
        ensures { let st = state_of self.now in
            result ≡ list_all (λ t. not (is_going st t) || sleeps st t) (threads_of script.now) }
    {
        (0..script.threads()).all(|thread| self.rests(thread))
    }

    /// Whether some thread is started and not done, and each such thread sleeps.
    pub fn all_sleep(&self, script: &Script) -> bool
        ensures { result ≡ all_sleep script.now (state_of self.now) }
    {
        self.some_goes(script) && self.all_rest(script)
    }

    /// Whether a thread is started, not done and not asleep.
    pub fn can_go(&self, thread: usize) -> bool
        ensures { result ≡ can_go (state_of self.now) thread }
    {
        self.is_going(thread) && !self.sleeps(thread)
    }

    /// Moves the time, and wakes exactly the sleepers whose date is at most that.
    pub fn tick(&mut self, time: u64)
        ensures { state_of self.new ≡ ticked time (state_of self.old) }
    {
        self.parts.tick(time);
    }
}
