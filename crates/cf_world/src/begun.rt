//! A world whose script has begun.
ghost use Rattle.std.specs.Prelude.{◌≡◌, ℕ, List, ◌-◌, ◌<◌, ◌≤◌, [], ◌∷◌, Bool, length, slice_get, count_by, Some, None, IfOk, OnOk, OnErr, vec_capacity};
ghost use Rattle.cf_ids.specs.declared.limits.TheConstants.{LARGEST_LIMIT};
ghost use Rattle.cf_graph.specs.declared.edge.Edge.{Edge};
ghost use Rattle.cf_graph.specs.Edges.{edges_of};
ghost use Rattle.cf_next.specs.Actions.{cut_of};
ghost use Rattle.cf_model.specs.State.{start};
ghost use Rattle.cf_world.specs.Grounds.{MayRun, state_of};
ghost use Rattle.cf_next.specs.Standing.{HasRoomFor, innermost_run};
ghost use Rattle.cf_next.specs.Stands.{Stand};
ghost use Rattle.cf_next.specs.declared.action.Action.{Action as ActionValue};
ghost use Rattle.cf_syntax.specs.declared.script.Script.{Script as ScriptValue};
ghost use Rattle.cf_world.specs.Begun.{AreFrames, AreMost, FitsItems, FitsPhase, IsFound, IsReadyFor, IsReserved, HasLists, StandSo, most_listed, standing_at};
ghost use Rattle.cf_world.specs.declared.found.Found.{Found as FoundValue};
ghost use Rattle.cf_world.specs.declared.found.Reserved.{Reserved};
ghost use Rattle.cf_world.specs.Worlds.{IsLegalWorld, IsThread, acting, applied, edges_in, ended_in, entered, lead_in, led, made_in, next_in, prepared, retained_by, retains_in, IsTick};
ghost use Rattle.cf_ids.specs.declared.answer.Answer.TheVariants as answers;
ghost use Rattle.cf_next.specs.declared.action.Action.TheVariants as actions;
ghost use Rattle.cf_world.specs.declared.next.LeadNext.TheVariants as leads;

use crate::found::{Found, Reserved};
use crate::ground::Ground;
use crate::looking::look;
use crate::next::{LeadNext, Next};
use cf_graph::Edge;
use cf_ids::{Answer, Ended, ObjId, ThreadId};
use cf_model::{Action, Entry};
use cf_next::{Frames, Step};
use cf_owncheck::Checked;
use cf_syntax::Script;
use rl_turn::Phase;
use std::alloc::{AllocError as NoMemory, Global};
use std::marker::Model;

/// A world whose script has begun: where its threads stand, and the ground that they stand on.
#[derive(Drop)]
pub(crate) struct Begun {
    pub(crate) ground: Ground,
    /// Where each thread stands, by number.
    pub(crate) frames: Vec<Frames>,
    pub(crate) limit: u32,
    /// What the last `apply` gained.
    pub(crate) gained: Vec<ObjId>,
    /// What an entry collects or gives out.
    pub(crate) list: Vec<u32>,
    /// What the last look found.
    pub(crate) looked: Reserved,
    /// What was found when room was made.
    pub(crate) reserved: Reserved,
    /// Whether there is still room for that.
    pub(crate) has_room: bool,
}

impl Model for Begun {
    ghost use Rattle.cf_world.specs.Worlds.{WorldView};
    ghost use Rattle.cf_world.specs.Begun.{IsBegun, view_of};

    ghost Value = { WorldView };

    ghost view = { view_of };

    ghost invariant = { IsBegun };
}

impl Begun {
    /// A script at its start, with the journal's room for `limit` entries taken at once.
    pub fn new(alloc: Global, script: Checked, limit: u32) -> Result<Begun, NoMemory>
        requires runs { MayRun script }
        requires most { limit ≤ LARGEST_LIMIT }
        ensures { IfOk result (λ b. b
            ≡ record { script = Some script; limit = limit; journal = []; gained = []; room = None }) }
    {
        let ground = Ground::new(alloc, script, limit)?;
        let frames = first_frames(alloc, ground.script())?;
        let mut gained = Vec::new(alloc);
        gained.reserve(2)?;
        let mut list = Vec::new(alloc);
        list.reserve(2)?;
        Ok(Begun {
            ground,
            frames,
            limit,
            gained,
            list,
            looked: Reserved::blank(),
            reserved: Reserved::blank(),
            has_room: false,
        })
    }

    /// The script.
    pub fn checked(&self) -> &Checked
        ensures { Some result.now ≡ self.now.script }
    {
        &self.ground.script
    }

    /// The script and the journal.
    pub fn end(self) -> (Checked, Vec<Entry>)
        ensures script { Some result.0 ≡ self.script }
        ensures journal { result.1.items ≡ self.journal }
    {
        let Begun { ground, .. } = self;
        let Ground {
            script,
            journal,
            ..
        } = ground;
        (script, journal)
    }

    /// The entries so far.
    pub fn journal(&self) -> &[Entry]
        ensures entries { result.now ≡ self.now.journal }
        ensures legal { IsLegalWorld self.now }
    {
        self.ground.journal.as_slice()
    }

    /// The object of each reference that the last `apply` added.
    pub fn gained(&self) -> &[ObjId]
        ensures { result.now ≡ self.now.gained }
    {
        self.gained.as_slice()
    }

    /// How many objects were made.
    pub fn made(&self) -> usize
        ensures { result ≡ made_in self.now }
    {
        self.ground.made()
    }

    /// Sorts the elements of each heap.
    pub fn sort(&mut self)
        ensures { self.new ≡ self.old }
    {
        self.ground.store.sort();
    }

    /// How many entries may still be made.
    pub fn room(&self) -> u32
        ensures { result ≡ self.now.limit - length self.now.journal }
    {
        self.limit - self.ground.journal.len() as u32
    }

    /// What a thread does next.
    pub fn next(&self, t: ThreadId) -> Next
        requires { IsThread self.now t }
        ensures { result ≡ next_in self.now t }
    {
        let mut looked = Reserved::blank();
        match look(
            &self.ground,
            self.frames.as_slice(),
            self.limit,
            t,
            &mut looked,
        ) {
            Ok(()) => Next::Act(looked.action),
            Err(halt) => halt.next(),
        }
    }

    /// What a thread does next, with room for it if it acts.
    pub fn prepare(&mut self, alloc: Global, t: ThreadId) -> Result<Next, NoMemory>
        requires { IsThread self.old t }
        ensures next { IfOk result (λ n. n ≡ next_in self.old t) }
        ensures room { OnOk result (self.new ≡ prepared t self.old) }
        ensures refused { OnErr result (self.new ≡ self.old) }
    {
        match look(
            &self.ground,
            self.frames.as_slice(),
            self.limit,
            t,
            &mut self.looked,
        ) {
            Ok(()) => {
                reserve_for(
                    alloc,
                    &mut self.ground,
                    &mut self.frames,
                    &mut self.gained,
                    &mut self.list,
                    &self.looked,
                )?;
                self.reserved = self.looked;
                self.has_room = true;
                Ok(Next::Act(self.looked.action))
            }
            Err(halt) => Ok(halt.next()),
        }
    }

    /// The object of the (k+1)-th next action of a thread, where the next k+1 actions are all retains of objects.
    pub fn ahead(&self, t: ThreadId, k: usize) -> Option<ObjId>
        requires { IsThread self.now t }
        ensures { result ≡ slice_get (retains_in self.now t) k }
    {
        let flags = self.ground.flags(t);
        if !flags.is_started || flags.is_asleep() {
            return None;
        }
        self.frames[t.0 as usize].ahead(self.ground.script(), &self.ground, k)
    }
}

/// Where the threads of a script stand at its start.
fn first_frames(alloc: Global, script: &Script) -> Result<Vec<Frames>, NoMemory>
    requires { script.now.thread_count ≤ 64 }
    ensures { IfOk result (λ frames. AreFrames script.now (start script.now) frames.items) }
{
    let mut frames = Vec::new(alloc);
    for t in 0..script.threads() {
        frames.push(Frames::new(alloc, ThreadId(t as u8)))?;
    }
    Ok(frames)
}

/// Makes room for what was found of a thread's next entry: in the frames, in the lists, and for its deed.
fn reserve_for(
    alloc: Global,
    ground: &mut Ground,
    frames: &mut Vec<Frames>,
    gained: &mut Vec<ObjId>,
    list: &mut Vec<u32>,
    reserved: &Reserved,
) -> Result<(), NoMemory>
    requires found { IsFound ground.old reserved.now }
    requires frames { AreFrames ground.old.script (state_of ground.old) frames.old.items }
    requires gained_room { 2 ≤ vec_capacity gained.old }
    requires list_room { 2 ≤ vec_capacity list.old }
    ensures script { ground.new.script ≡ ground.old.script }
    ensures journal { ground.new.journal ≡ ground.old.journal }
    ensures room { ground.new.journal_room ≡ ground.old.journal_room }
    ensures frames { AreFrames ground.new.script (state_of ground.new) frames.new.items }
    ensures gained { gained.new.items ≡ gained.old.items }
    ensures gained_room { vec_capacity gained.old ≤ vec_capacity gained.new }
    ensures list_room { vec_capacity list.old ≤ vec_capacity list.new }
    ensures reserved { OnOk result (IsReserved ground.new frames.new.items reserved.now) }
    ensures lists { OnOk result
        (HasLists ground.new frames.new.items (vec_capacity gained.new) (vec_capacity list.new) reserved.now) }
    ensures refused { OnErr result ((r : Reserved) → IsReserved ground.old frames.old.items r
        → IsReserved ground.new frames.new.items r) }
    ensures kept { OnErr result ((r : Reserved)
        → HasLists ground.old frames.old.items (vec_capacity gained.old) (vec_capacity list.old) r
        → HasLists ground.new frames.new.items (vec_capacity gained.new) (vec_capacity list.new) r) }
{
    let more = most_listed(ground, frames.as_slice(), reserved);
    reserve_frames(frames, reserved.thread, &reserved.action, more)?;
    reserve_lists(gained, list, more)?;
    reserve_ground(alloc, ground, reserved)
}

/// Makes room in the frames of a thread for the entry of an action that lists so many numbers at most.
fn reserve_frames(
    frames: &mut Vec<Frames>,
    t: ThreadId,
    action: &Action,
    more: usize,
) -> Result<(), NoMemory>
    requires { t < length frames.old.items }
    ensures stands { (s : ScriptValue) (stands : List Stand) → StandSo s stands frames.old.items
        → StandSo s stands frames.new.items }
    ensures room { OnOk result (HasRoomFor action.now more (standing_at frames.new.items t)) }
    ensures kept { (a : ActionValue) (n u : ℕ) → HasRoomFor a n (standing_at frames.old.items u)
        → HasRoomFor a n (standing_at frames.new.items u) }
{
    frames[t.0 as usize].reserve_for(action, more)
}

/// Makes room for so many numbers in two lists, where that is not there anyway.
fn reserve_lists(gained: &mut Vec<ObjId>, list: &mut Vec<u32>, more: usize) -> Result<(), NoMemory>
    requires gained_room { 2 ≤ vec_capacity gained.old }
    requires list_room { 2 ≤ vec_capacity list.old }
    ensures gained { gained.new.items ≡ gained.old.items }
    ensures gained_more { vec_capacity gained.old ≤ vec_capacity gained.new }
    ensures list_more { vec_capacity list.old ≤ vec_capacity list.new }
    ensures gained_room { OnOk result (more ≤ vec_capacity gained.new) }
    ensures list_room { OnOk result (more ≤ vec_capacity list.new) }
{
    if more <= 2 {
        return Ok(());
    }
    gained.reserve(more)?;
    list.reserve(more)
}

/// Makes room in the ground for the entry of what was found of a thread.
fn reserve_ground(alloc: Global, ground: &mut Ground, reserved: &Reserved) -> Result<(), NoMemory>
    requires { IsFound ground.old reserved.now }
    ensures script { ground.new.script ≡ ground.old.script }
    ensures journal { ground.new.journal ≡ ground.old.journal }
    ensures room { ground.new.journal_room ≡ ground.old.journal_room }
    ensures ready { OnOk result (IsReadyFor ground.new reserved.now.thread reserved.now.found) }
    ensures refused { OnErr result ((t : ℕ) (f : FoundValue) → IsReadyFor ground.old t f → IsReadyFor ground.new t f) }
{
    match &reserved.found {
        Found::Says {
            block,
            number,
            used,
        } => ground.reserve_for(alloc, *block, *number, used),
        Found::Deals { block, number, .. } => {
            ground.reserve_place(reserved.thread, *block, *number)
        }
        _ => Ok(()),
    }
}

/// How many numbers the entry of what was found lists at most.
fn most_listed(ground: &Ground, frames: &[Frames], reserved: &Reserved) -> usize
    requires found { IsFound ground.now reserved.now }
    requires frames { AreFrames ground.now.script (state_of ground.now) frames.now }
    ensures least { most_listed reserved.now.action ≤ result }
    ensures most { AreMost ground.now reserved.now.thread result reserved.now.found }
{
    let t = reserved.thread;
    match &reserved.found {
        Found::Enters(phase) => most_collected(ground, &frames[t.0 as usize], t, *phase).max(2),
        Found::Spends { item, .. } => ground.places_of(*item).max(2),
        Found::Deals {
            block,
            number,
            used,
        } => ground.most_moved(t, *block, *number, used).max(2),
        _ => few_listed(&reserved.action),
    }
}

/// How many numbers a phase of a thread's innermost run collects at most.
fn most_collected(ground: &Ground, frames: &Frames, t: ThreadId, phase: Phase) -> usize
    ensures { FitsPhase (state_of ground.now) t result phase (innermost_run frames.now.stand.frames) }
{
    match phase {
        Phase::Sources => items_of_run(ground, frames, t),
        _ => 0,
    }
}

/// How many items the mode of a thread's innermost run has.
fn items_of_run(ground: &Ground, frames: &Frames, t: ThreadId) -> usize
    ensures { FitsItems (state_of ground.now) t result (innermost_run frames.now.stand.frames) }
{
    match frames.mode() {
        Some(mode) => ground.loops.items(t, mode).len(),
        None => 0,
    }
}

/// How many numbers the entry of an action lists at most, where these are few.
fn few_listed(action: &Action) -> usize
    ensures { result ≡ most_listed action.now }
{
    match action {
        Action::Retain { .. } => 0,
        _ => 2,
    }
}
