//! What the lead does: time moves where all threads sleep.
ghost use Rattle.std.specs.Prelude.{◌≡◌, ◌<◌, false, length, map};
ghost use Rattle.std.specs.List.{list_all};
ghost use Rattle.cf_next.specs.declared.action.Action.TheVariants as actions;
ghost use Rattle.cf_next.specs.Standing.{Standing};
ghost use Rattle.cf_model.specs.Journals.{has_stalled, tick_flags, tick_or_stall};
ghost use Rattle.cf_world.specs.declared.next.LeadNext.TheVariants as leads;
ghost use Rattle.cf_world.specs.Grounds.{MayRun, flags_of, state_of};
ghost use Rattle.cf_world.specs.Begun.{AreFrames};
ghost use Rattle.cf_world.specs.Leads.{HasLed, HasPlaceFor, is_over_on, lead_on};
ghost use Rattle.cf_world.specs.Worlds.{IsLegalWorld, IsTick, lead_in, lead_of, led};

use crate::begun::Begun;
use crate::counts::write;
use crate::ground::Ground;
use crate::next::LeadNext;
use cf_ids::{Answer, ThreadId};
use cf_model::Action;
use cf_next::Frames;
use cf_scene::{Flags, Sleep, earlier};

impl Begun {
    /// What the lead does next.
    pub fn lead_next(&self) -> LeadNext
        ensures { result ≡ lead_in self.now }
    {
        if is_over(&self.ground, self.frames.as_slice()) {
            return LeadNext::Over;
        }
        next_while_going(&self.ground, self.frames.as_slice())
    }

    /// Lets time move to this time, in ticks.
    pub fn tick(&mut self, time: u64)
        requires due { IsTick (lead_in self.old) time }
        requires below { length self.old.journal < self.old.limit }
        ensures entered { self.new ≡ led (actions.Tick time) self.old }
        ensures legal { IsLegalWorld self.new }
    {
        self.has_room = false;
        self.ground.enter_tick(time);
    }

    /// Writes that all threads sleep and none has a date.
    pub fn stall(&mut self)
        requires due { lead_in self.old ≡ leads.Stall }
        requires below { length self.old.journal < self.old.limit }
        ensures entered { self.new ≡ led actions.Stall self.old }
        ensures legal { IsLegalWorld self.new }
    {
        self.has_room = false;
        self.ground.enter_stall();
    }
}

impl Ground {
    /// Whether the journal has a stall, which is its last entry then.
    fn has_stalled(&self) -> bool
        ensures stalled { result ≡ has_stalled self.now.journal }
        ensures runs { MayRun self.now.script }
    {
        match self.journal.as_slice().last() {
            Some(entry) => matches!(entry.action, Action::Stall),
            None => false,
        }
    }

    /// Time moves to this time, which wakes exactly the sleepers whose date is at most that.
    fn enter_tick(&mut self, time: u64)
        requires due { IsTick (lead_on self.old) time }
        requires place { HasPlaceFor self.old }
        ensures { HasLed (actions.Tick time) self.old self.new }
    {
        wake(&mut self.flags, time);
        self.time = time;
        write(
            &mut self.journal,
            ThreadId::LEAD,
            Action::Tick(time),
            Answer::Ok,
        );
    }

    /// All threads sleep, and none has a date.
    fn enter_stall(&mut self)
        requires due { lead_on self.old ≡ leads.Stall }
        requires place { HasPlaceFor self.old }
        ensures { HasLed actions.Stall self.old self.new }
    {
        write(&mut self.journal, ThreadId::LEAD, Action::Stall, Answer::Ok);
    }
}

/// Whether all threads are done, or the last entry is a stall.
fn is_over(ground: &Ground, frames: &[Frames]) -> bool
    requires { AreFrames ground.now.script (state_of ground.now) frames.now }
    ensures { result ≡ is_over_on ground.now }
{
    all_done(frames) || ground.has_stalled()
}

/// What the lead does next as long as not all is over: it waits for a thread that is going and does not sleep.
fn next_while_going(ground: &Ground, frames: &[Frames]) -> LeadNext
    requires frames { AreFrames ground.now.script (state_of ground.now) frames.now }
    requires going { is_over_on ground.now ≡ false }
    ensures { result ≡ lead_on ground.now }
{
    let _script = ground.script();
    let mut some_sleep = false;
    let mut due = None;
    for t in 0..frames.len() {
        let flags = ground.flags(ThreadId(t as u8));
        if flags.is_started && !frames[t].is_done() {
            let Sleep::Until(date) = flags.sleep else {
                return LeadNext::Busy;
            };
            some_sleep = true;
            due = earlier(due, date);
        }
    }
    if some_sleep {
        tick_or_stall(due)
    } else {
        LeadNext::Busy
    }
}

/// Whether all threads are done.
fn all_done(frames: &[Frames]) -> bool
    ensures { result ≡ list_all (λ (f : Standing). f.stand.is_done) frames.now }
{
    frames.iter().all(|f| f.is_done())
}

/// A tick at this date, or a stall if there is none.
fn tick_or_stall(due: Option<u64>) -> LeadNext
    ensures { result ≡ lead_of (tick_or_stall due) }
{
    match due {
        Some(date) => LeadNext::Tick(date),
        None => LeadNext::Stall,
    }
}

/// The flags of all threads after a tick to a time.
fn wake(flags: &mut Vec<Flags>, time: u64)
    ensures { map flags_of flags.new.items ≡ map (tick_flags time) (map flags_of flags.old.items) }
{
    for t in 0..flags.len() {
        flags[t] = flags[t].after_tick(time);
    }
}
