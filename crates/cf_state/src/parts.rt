//! What is neither references nor stands.
ghost use Rattle.std.specs.Prelude.{◌≡◌, map, true, OnOk};
ghost use Rattle.cf_model.specs.Journals.{tick_flags, wake_at};
ghost use Rattle.cf_model.specs.State.{flags_at, flags_of, is_common, with_flags};
ghost use Rattle.cf_state.specs.Few.{IsFew};
ghost use Rattle.cf_state.specs.Views.{sleeping_of};

use cf_ids::ObjId;
use cf_plain::Object;
use rl_base::Registration;
use std::alloc::AllocError as NoMemory;
use std::marker::Model;

/// Whether a thread's run loop sleeps, and until which date, if it has one.
#[derive(Clone, Copy)]
pub enum Sleep {
    Awake,
    Until(Option<u64>),
}

/// Whether a thread is started, whether it sleeps, and whether a wake is kept for it.
#[derive(Drop)]
pub struct Flags {
    pub is_started: bool,
    pub sleep: Sleep,
    pub is_woken: bool,
}

impl Model for Flags {
    ghost use Rattle.cf_model.specs.State.{Flags as Kept};

    ghost Value = { Kept };

    ghost use Rattle.cf_state.specs.Views.{sleeping_of};

    ghost view = { λ f. record { is_started = f.is_started; sleep = sleeping_of f.sleep; is_woken = f.is_woken } };
}

/// A mode that is a common one of a thread's run loop.
#[derive(Drop)]
pub struct Common {
    pub thread: usize,
    pub mode: usize,
}

impl Model for Common {
    ghost use Rattle.cf_model.specs.State.{CommonMode};

    ghost Value = { CommonMode };

    ghost view = { λ c. record { thread = c.thread; mode = c.mode } };
}

/// The objects made, those that are finalised, the bodies of slots given up, the common modes, the registrations, the
/// flags of threads, and the time.
#[derive(Drop)]
pub struct Parts {
    pub objects: Vec<Object>,
    pub finalised: Vec<ObjId>,
    pub dropped: Vec<ObjId>,
    pub commons: Vec<Common>,
    pub registrations: Vec<Option<Registration>>,
    pub flags: Vec<Flags>,
    pub time: u64,
}

impl Model for Parts {
    ghost use Rattle.cf_model.specs.State.{Parts as Kept};

    ghost Value = { Kept };

    ghost view = { λ p. record {
      objects = p.objects.items;
      finalised = p.finalised.items;
      dropped = p.dropped.items;
      commons = p.commons.items;
      registrations = p.registrations.items;
      flags = p.flags.items;
      time = p.time;
    } };

    ghost use Rattle.cf_state.specs.Few.{IsFew};

    ghost invariant = { λ p. IsFew p.objects.items p.dropped.items p.registrations.items };
}

impl Flags {
    /// The flags of a thread that is started or not, is awake and was not woken.
    pub fn of(started: bool) -> Flags
        ensures { result ≡ flags_of started }
    {
        Flags {
            is_started: started,
            sleep: Sleep::Awake,
            is_woken: false,
        }
    }

    /// The thread is started.
    pub fn start(&mut self)
        ensures { self.new ≡ record self.old { is_started = true } }
    {
        self.is_started = true;
    }

    /// A sleep whose date is at most the time is over.
    fn tick(&mut self, time: u64)
        ensures { self.new ≡ tick_flags time self.old }
    {
        self.sleep = wake_at(time, self.sleep);
    }

    /// The same once more.
    pub fn copy(&self) -> Flags
        ensures { result ≡ self.now }
    {
        Flags {
            is_started: self.is_started,
            sleep: self.sleep,
            is_woken: self.is_woken,
        }
    }
}

/// The flags of a thread.
pub fn flags_at(flags: &[Flags], thread: usize) -> Flags
    ensures { result ≡ flags_at thread flags.now }
{
    match flags.get(thread) {
        Some(flags) => flags.copy(),
        None => Flags::of(false),
    }
}

/// Gives a thread other flags.
pub fn set_flags(flags: &mut Vec<Flags>, thread: usize, next: Flags) -> Result<(), NoMemory>
    ensures { OnOk result (flags.new.items ≡ with_flags thread next flags.old.items) }
{
    while flags.len() <= thread {
        flags.push(Flags::of(false))?;
    }
    flags[thread] = next;
    Ok(())
}

/// Whether a mode is a common one of a thread's run loop.
pub fn is_common(commons: &[Common], thread: usize, mode: usize) -> bool
    ensures { result ≡ is_common thread commons.now mode }
{
    let mut rest = commons;
    while let Some((common, others)) = rest.split_first() {
        if common.thread == thread && common.mode == mode {
            return true;
        }
        rest = others;
    }
    false
}

/// A sleep after a tick: it is over if its date is at most the time.
fn wake_at(time: u64, sleep: Sleep) -> Sleep
    ensures { sleeping_of result ≡ wake_at time (sleeping_of sleep) }
{
    match sleep {
        Sleep::Until(Some(date)) if date <= time => Sleep::Awake,
        _ => sleep,
    }
}

impl Parts {
    /// That objects, slots and registrations are few, as a fact for those who prove. It does nothing.
    #[inline(always)]
    pub fn has_few(&self)
        ensures { IsFew self.now.objects self.now.dropped self.now.registrations }
    {
        let _ = &self.objects;
    }

    /// Moves the time, and wakes exactly the sleepers whose date is at most that.
    pub fn tick(&mut self, time: u64)
        ensures { self.new ≡ record self.old { time = time; flags = map (tick_flags time) self.old.flags } }
    {
        self.time = time;
        tick_all(&mut self.flags, time);
    }
}

/// Sleeps whose dates are at most the time are over.
fn tick_all(flags: &mut Vec<Flags>, time: u64)
    ensures { flags.new.items ≡ map (tick_flags time) flags.old.items }
{
    let mut thread = 0;
    while thread < flags.len() {
        flags[thread].tick(time);
        thread += 1;
    }
}
