//! A serial run as far as it has come.
ghost use Rattle.std.specs.Prelude.{◌≡◌, ◌<◌, ◌≤◌, ℕ, List, [], Option, Some, None, false, IsTrue, OnOk, IfOk};
ghost use Rattle.cf_ids.specs.declared.limits.TheConstants.{LARGEST_LIMIT};
ghost use Rattle.cf_syntax.specs.Stage.{IsOfStage};
ghost use Rattle.cf_world.specs.declared.next.LeadNext.TheVariants as leads;
ghost use Rattle.cf_serial.specs.Running.{ActsNext, ClockKeeps, FirstOf, Goes, IsRun, IsSameJournal, IsStep, LeadsNext, TurnOf, can_act, date_of, ending_by, ending_of, goes_on, lead_turn_by, picks, prepared_run, turn_below, turn_by};

use crate::numbers::Numbers;
use cf_ids::{ObjId, ThreadId};
use cf_model::Ending;
use cf_outside::Clock;
use cf_owncheck::Checked;
use cf_world::{LeadNext, Next, World};
use std::alloc::{AllocError as NoMemory, Global};

/// What a run does next.
#[derive(Clone, Copy)]
pub(crate) enum Turn {
    /// A thread's action, and the object to which that takes a reference away, if it does.
    Acts(ThreadId, Option<ObjId>),
    /// The lead ticks, to at least this time.
    Ticks(u64),
    /// The lead stalls.
    Stalls,
    /// It is over.
    Over(Ending),
}

impl Turn {
    /// Whether the run goes on.
    pub fn goes_on(&self) -> bool
        ensures { result ≡ goes_on self.now }
    {
        !matches!(self, Turn::Over(_))
    }

    /// To at least which time the lead ticks, if it does.
    pub fn date(&self) -> Option<u64>
        ensures { result ≡ date_of self.now }
    {
        match self {
            Turn::Ticks(date) => Some(*date),
            Turn::Acts(_, _) | Turn::Stalls | Turn::Over(_) => None,
        }
    }

    /// How the run ends, where it is over.
    pub fn ending(&self) -> Ending
        ensures { result ≡ ending_of self.now }
    {
        match self {
            Turn::Over(ending) => *ending,
            Turn::Acts(_, _) | Turn::Ticks(_) | Turn::Stalls => Ending::Stalled,
        }
    }
}

// What the run does next if the pointer picks a thread that does this next; none if it can't go on.
fn turn_by(t: ThreadId, next: Next) -> Option<Turn>
    ensures { result ≡ turn_by t next }
{
    match &next {
        Next::Act(action) => Some(Turn::Acts(t, action.cuts())),
        Next::Limit => Some(Turn::Over(Ending::Limit)),
        Next::Full => Some(Turn::Over(Ending::Full)),
        Next::Waiting | Next::Done | Next::Asleep => None,
    }
}

// How a run ends in which nothing is left to do, after a stall or not.
fn ending_by(stalled: bool) -> Ending
    ensures { result ≡ ending_by stalled }
{
    if stalled {
        Ending::Stalled
    } else {
        Ending::Done
    }
}

// A turn of the lead, if the journal has room for its entry.
fn turn_below(room: u32, turn: Turn) -> Turn
    ensures { result ≡ turn_below room turn }
{
    if room == 0 {
        Turn::Over(Ending::Limit)
    } else {
        turn
    }
}

// The turn of the lead, after a stall or not, with room for so many entries.
fn lead_turn_by(lead: LeadNext, stalled: bool, room: u32) -> Turn
    ensures { result ≡ lead_turn_by lead stalled room }
{
    match lead {
        LeadNext::Over | LeadNext::Busy => Turn::Over(ending_by(stalled)),
        LeadNext::Tick(date) => turn_below(room, Turn::Ticks(date)),
        LeadNext::Stall => turn_below(room, Turn::Stalls),
    }
}

/// A run as far as it has come: its world, how many threads it has, where the pointer stands, how many references lead
/// to each object, and whether its last entry is a stall.
#[derive(Drop)]
pub(crate) struct Run {
    pub(crate) world: World,
    pub(crate) threads: usize,
    pub(crate) pointer: usize,
    pub(crate) numbers: Numbers,
    pub(crate) stalled: bool,
}

impl Run {
    /// A run at its start.
    pub fn begin(alloc: Global, script: Checked, limit: u32) -> Result<Run, NoMemory>
        requires some { 1 ≤ limit }
        requires most { limit ≤ LARGEST_LIMIT }
        requires stage { IsOfStage script }
        ensures run { IfOk result (λ r. IsRun r) }
        ensures world { IfOk result (λ r. r.world
            ≡ record { script = Some script; limit = limit; journal = []; gained = []; room = None }) }
    {
        let owned = script.script();
        owned.has_numbers();
        let threads = owned.threads();
        let mut world = World::empty();
        world.begin(alloc, script, limit)?;
        Ok(Run {
            world,
            threads,
            pointer: 0,
            numbers: Numbers::new(alloc),
            stalled: false,
        })
    }

    /// What the run does next; if a thread acts, there is room for that.
    #[inline(always)]
    pub fn turn(&mut self, alloc: Global) -> Result<Turn, NoMemory>
        requires run { IsRun self.old }
        ensures run { OnOk result (IsRun self.new) }
        ensures same { OnOk result (IsSameJournal self.old self.new) }
        ensures goes { IfOk result (λ turn. Goes self.new turn) }
    {
        if self.threads <= self.pointer {
            return self.early_turn(alloc);
        }
        match self.first_turn(alloc, self.pointer, self.threads)? {
            Some(turn) => Ok(turn),
            None => self.early_turn(alloc),
        }
    }

    // What the run does next, if no thread from the pointer on can go on.
    #[inline(always)]
    fn early_turn(&mut self, alloc: Global) -> Result<Turn, NoMemory>
        requires run { IsRun self.old }
        requires late { (u : ℕ) → self.old.pointer ≤ u → u < self.old.threads → can_act self.old u ≡ false }
        ensures run { OnOk result (IsRun self.new) }
        ensures same { OnOk result (IsSameJournal self.old self.new) }
        ensures goes { IfOk result (λ turn. Goes self.new turn) }
    {
        match self.first_turn(alloc, 0, self.pointer)? {
            Some(turn) => Ok(turn),
            None => Ok(self.lead_turn()),
        }
    }

    // The turn of the first of some threads that can go on, if the pointer picks it; none if none of them can, which
    // leaves the run.
    fn first_turn(
        &mut self,
        alloc: Global,
        from: usize,
        to: usize,
    ) -> Result<Option<Turn>, NoMemory>
        requires run { IsRun self.old }
        requires threads { to ≤ self.old.threads }
        ensures { IfOk result (λ turn. FirstOf self.old self.new from to turn) }
    {
        for t in from..to {
            if let Some(turn) = self.turn_of(alloc, t)? {
                return Ok(Some(turn));
            }
        }
        Ok(None)
    }

    // What the run does next if the pointer picks this thread; none if it can't go on, which leaves the run.
    fn turn_of(&mut self, alloc: Global, t: usize) -> Result<Option<Turn>, NoMemory>
        requires run { IsRun self.old }
        requires thread { t < self.old.threads }
        ensures run { OnOk result (self.new ≡ prepared_run t self.old) }
        ensures none { IfOk result (λ turn. turn ≡ None → self.new ≡ self.old) }
        ensures turn { IfOk result (λ turn. TurnOf self.new t turn) }
    {
        let t = ThreadId(t as u8);
        match self.world.prepare(alloc, t) {
            Ok(next) => Ok(turn_by(t, next)),
            Err(error) => Err(error),
        }
    }

    // What the lead does next, where no thread can go on.
    fn lead_turn(&self) -> Turn
        requires run { IsRun self.now }
        requires none { picks self.now ≡ None }
        ensures { Goes self.now result }
    {
        lead_turn_by(self.world.lead_next(), self.stalled, self.world.room())
    }

    /// Does what comes next. All that it needs is reserved before, so want of memory makes no entry.
    pub fn step<C: Clock>(&mut self, clock: &mut C, turn: Turn) -> Result<(), NoMemory>
        requires run { IsRun self.old }
        requires goes { Goes self.old turn }
        requires going { IsTrue (goes_on turn) }
        ensures step { OnOk result (IsStep self.old self.new) }
        ensures clock { OnOk result (ClockKeeps self.old self.new (C.times clock.old) (C.times clock.new)) }
    {
        self.numbers.reserve()?;
        self.make(clock, turn);
        Ok(())
    }

    // Does what comes next. There is room for the number of an object that it makes.
    fn make<C: Clock>(&mut self, clock: &mut C, turn: Turn)
        requires room { 0 < self.old.numbers.room }
        requires run { IsRun self.old }
        requires goes { Goes self.old turn }
        requires going { IsTrue (goes_on turn) }
        ensures step { IsStep self.old self.new }
        ensures clock { ClockKeeps self.old self.new (C.times clock.old) (C.times clock.new) }
    {
        match turn.date() {
            Some(date) => self.tick(clock, date),
            None => self.go(turn),
        }
    }

    // Does what comes next, if that is no tick.
    fn go(&mut self, turn: Turn)
        requires room { 0 < self.old.numbers.room }
        requires run { IsRun self.old }
        requires goes { Goes self.old turn }
        requires going { IsTrue (goes_on turn) }
        requires tickless { date_of turn ≡ None }
        ensures step { IsStep self.old self.new }
        ensures clock { (now : Option (List ℕ)) → ClockKeeps self.old self.new now now }
    {
        match turn {
            Turn::Acts(t, cut) => self.act(t, cut),
            Turn::Stalls => self.stall(),
            Turn::Ticks(_) | Turn::Over(_) => {}
        }
    }

    // Does a thread's action, which takes a reference to this object away, or none.
    fn act(&mut self, t: ThreadId, cut: Option<ObjId>)
        requires room { 0 < self.old.numbers.room }
        requires run { IsRun self.old }
        requires acts { ActsNext self.old t cut }
        ensures step { IsStep self.old self.new }
        ensures clock { (now : Option (List ℕ)) → ClockKeeps self.old self.new now now }
    {
        match cut {
            Some(o) => self.release(t, o),
            None => self.apply(t),
        }
    }

    // A thread's action that takes a reference to an object away.
    fn release(&mut self, t: ThreadId, o: ObjId)
        requires run { IsRun self.old }
        requires acts { ActsNext self.old t (Some o) }
        ensures step { IsStep self.old self.new }
        ensures clock { (now : Option (List ℕ)) → ClockKeeps self.old self.new now now }
    {
        let ended = self.numbers.ended(o);
        self.world.release(t, o, ended);
        self.numbers.lower(o);
        self.pointer = t.0 as usize + 1;
    }

    // A thread's action that takes none away. There is room for the number of an object that it makes.
    fn apply(&mut self, t: ThreadId)
        requires room { 0 < self.old.numbers.room }
        requires run { IsRun self.old }
        requires acts { ActsNext self.old t None }
        ensures step { IsStep self.old self.new }
        ensures clock { (now : Option (List ℕ)) → ClockKeeps self.old self.new now now }
    {
        self.world.apply(t);
        self.numbers.grow(self.world.made());
        self.numbers.raise(self.world.gained());
        self.pointer = t.0 as usize + 1;
    }

    // The lead lets time move to at least this time, as the clock says.
    fn tick<C: Clock>(&mut self, clock: &mut C, date: u64)
        requires run { IsRun self.old }
        requires leads { LeadsNext self.old (leads.Tick date) }
        ensures step { IsStep self.old self.new }
        ensures clock { ClockKeeps self.old self.new (C.times clock.old) (C.times clock.new) }
    {
        let time = clock.reach(date);
        self.world.tick(time);
    }

    // The lead writes that all sleep and none has a date.
    fn stall(&mut self)
        requires run { IsRun self.old }
        requires leads { LeadsNext self.old leads.Stall }
        ensures step { IsStep self.old self.new }
        ensures clock { (now : Option (List ℕ)) → ClockKeeps self.old self.new now now }
    {
        self.world.stall();
        self.stalled = true;
    }
}
