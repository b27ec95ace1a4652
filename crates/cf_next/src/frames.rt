//! Where a thread stands, what it does next and how an entry moves it on.
ghost use Rattle.std.specs.Prelude.{◌≡◌, ◌+◌, ◌<◌, ◌^◌, [], Some, OnOk, IfSome, false, length, option_to_list, slice_get};
ghost use Rattle.std.specs.Option.{option_and_then, option_map};
ghost use Rattle.cf_next.specs.Ahead.{ahead};
ghost use Rattle.cf_next.specs.Advance.{advanced, on_top};
ghost use Rattle.cf_next.specs.Advancing.{Fits};
ghost use Rattle.cf_next.specs.Actions.{cut_of};
ghost use Rattle.cf_next.specs.Demands.{demand, does};
ghost use Rattle.cf_next.specs.Facts.{Facts as Known};
ghost use Rattle.cf_next.specs.Next.{action_in, block_of, next, top_frame};
ghost use Rattle.cf_next.specs.Stands.{has_run, look, opening_stand, stop_stand};
ghost use Rattle.cf_next.specs.Standing.{HasRoom, HasRoomFor, RoomStays, ListsObjects, finals_in, innermost_run, kind_callee, last_phase};
ghost use Rattle.cf_next.specs.Stacks.{line_passed};
ghost use Rattle.cf_next.specs.Steps.{IsCutBy, IsFound, IsStep, SaysList, SaysRoom, StepLists, StepRoom, demand_of, step_cut};
ghost use Rattle.cf_syntax.specs.BlockLines.{says};
ghost use Rattle.cf_next.specs.Turns.{turn_facts};
ghost use Rattle.cf_next.specs.Views.{callee_of, turn_of};

use crate::action::Action;
use crate::advance::{finish_statement, frames_after, is_post, work_after};
use crate::facts::Facts;
use crate::finding::{action_of_step, ahead_of, block_number, find_step};
use crate::parts::{Callee, Kind, Work};
use crate::stack::Stack;
use crate::step::{Step, finalised};
use crate::turn::turn_facts;
use crate::work::{owe, put_body};
use cf_ids::{Answer, ModeId, ObjId, ThreadId, VarId};
use cf_syntax::{Script, Statement};
use rl_turn::{Phase, TurnFacts};
use std::alloc::{AllocError as NoMemory, Global};
use std::marker::Model;

/// Where one thread stands: its frames, its work, and whether it is done.
#[derive(Drop)]
pub struct Frames {
    thread: ThreadId,
    pub(crate) stack: Stack,
    /// The work, the first item last.
    pub(crate) work: Vec<Work>,
    is_done: bool,
}

impl Model for Frames {
    ghost use Rattle.std.specs.Prelude.{◌-◌, vec_len, vec_capacity};
    ghost use Rattle.cf_next.specs.Standing.{Standing};
    ghost use Rattle.cf_next.specs.Views.{works_of};

    ghost Value = { Standing };

    ghost view = { λ f. record {
      thread = f.thread;
      stand = record { frames = f.stack.frames; work = works_of f.work.items; is_done = f.is_done };
      frame_room = f.stack.frame_room;
      binding_room = f.stack.binding_room;
      callee_room = f.stack.callee_room;
      work_room = vec_capacity f.work - vec_len f.work;
    } };
}

impl Frames {
    /// A thread at the first line of its block, without room; takes no memory.
    pub fn new(alloc: Global, t: ThreadId) -> Frames
        ensures { result ≡ record {
          thread = t;
          stand = opening_stand t;
          frame_room = 0;
          binding_room = 0;
          callee_room = 0;
          work_room = 0;
        } }
    {
        Frames {
            thread: t,
            stack: Stack::new(alloc, t),
            work: Vec::new(alloc),
            is_done: false,
        }
    }

    /// Tells the innermost run to stop; false exactly if there is no run.
    pub fn stop(&mut self) -> bool
        ensures found { result ≡ has_run self.old.stand.frames }
        ensures stand { self.new.stand ≡ stop_stand self.old.stand }
        ensures thread { self.new.thread ≡ self.old.thread }
        ensures frame_room { self.new.frame_room ≡ self.old.frame_room }
        ensures binding_room { self.new.binding_room ≡ self.old.binding_room }
        ensures callee_room { self.new.callee_room ≡ self.old.callee_room }
        ensures work_room { self.new.work_room ≡ self.old.work_room }
    {
        self.stack.stop()
    }

    /// Whether the thread is done.
    pub fn is_done(&self) -> bool
        ensures { result ≡ self.now.stand.is_done }
    {
        self.is_done
    }

    /// How many frames are below the innermost one.
    pub fn depth(&self) -> usize
        ensures { length self.now.stand.frames ≡ result + 1 }
    {
        self.stack.depth()
    }

    /// What the handler of the innermost frame was called for; none if that is no handler's.
    pub fn callee(&self) -> Option<Callee>
        ensures { option_map callee_of result ≡ kind_callee (top_frame self.now.stand.frames).kind }
    {
        match self.stack.kind() {
            Kind::Handler { callee, .. } => Some(*callee),
            _ => None,
        }
    }

    /// The mode of the innermost run; none if there is no run.
    pub fn mode(&self) -> Option<ModeId>
        ensures { result ≡ option_map (λ r. r.mode) (innermost_run self.now.stand.frames) }
    {
        let run = self.stack.run()?;
        Some(run.mode)
    }

    /// The phase of the last entry of the innermost run, or `Note(1)` before its first; none if there is no run.
    pub fn phase(&self) -> Option<Phase>
        ensures { result ≡ option_map last_phase (innermost_run self.now.stand.frames) }
    {
        let run = self.stack.run()?;
        match run.last {
            Some(phase) => Some(phase),
            None => Some(Phase::Note(1)),
        }
    }

    /// The phase of the last entry of the innermost run; none before its first, and none if there is no run.
    pub fn last(&self) -> Option<Phase>
        ensures { result ≡ option_and_then (λ r. r.last) (innermost_run self.now.stand.frames) }
    {
        let run = self.stack.run()?;
        run.last
    }

    /// The deadline of the innermost run, in ticks; none if it has none or there is no run.
    pub fn deadline(&self) -> Option<u64>
        ensures { result ≡ option_and_then (λ r. r.deadline) (innermost_run self.now.stand.frames) }
    {
        let run = self.stack.run()?;
        run.deadline
    }

    /// The result of the last test of the innermost run, 1 to 4; none if the run goes on, was not tested yet, or
    /// there is no run.
    pub fn result(&self) -> Option<u8>
        ensures { result ≡ option_and_then (λ r. r.result) (innermost_run self.now.stand.frames) }
    {
        let run = self.stack.run()?;
        run.result
    }

    /// What the turn of the innermost run depends on; none exactly if there is no run.
    pub fn turn<F: Facts>(&self, facts: &F) -> Option<TurnFacts>
        ensures { result
            ≡ option_map (turn_facts (F.known facts.now) self.now.thread) (innermost_run self.now.stand.frames) }
    {
        let run = self.stack.run()?;
        Some(turn_facts(facts, self.thread, run))
    }

    /// What the thread does next, with what was looked up for it; none exactly if it is done. Takes no memory.
    pub fn step<'s, F: Facts>(&self, script: &'s Script, facts: &F) -> Option<Step<'s>>
        ensures demand { option_map demand_of result
            ≡ demand script.now (F.known facts.now) self.now.thread self.now.stand }
        ensures step { IfSome result (IsStep script.now (F.known facts.now) self.now.thread self.now.stand) }
    {
        if self.is_done {
            return None;
        }
        Some(find_step(
            script,
            facts,
            self.thread,
            &self.stack,
            self.work.as_slice(),
        ))
    }

    /// The next action; none exactly if the thread is done. Takes no memory.
    pub fn next<F: Facts>(&self, script: &Script, facts: &F) -> Option<Action>
        ensures { result ≡ next script.now (F.known facts.now) self.now.thread self.now.stand }
    {
        match &self.step(script, facts) {
            Some(step) => Some(self.action(script, facts, step)),
            None => None,
        }
    }

    /// The action of what the thread does next, as `step` found it.
    pub fn action<F: Facts>(&self, script: &Script, facts: &F, step: &Step) -> Action
        requires { IsStep script.now (F.known facts.now) self.now.thread self.now.stand step.now }
        ensures { result
            ≡ action_in script.now (F.known facts.now) self.now.thread self.now.stand.frames (demand_of step.now) }
    {
        action_of_step(script, facts, self.thread, &self.stack, step)
    }

    /// The object of the (k+1)-th next action; none exactly if the next k+1 actions are not all retains of objects.
    /// Takes no memory.
    pub fn ahead<F: Facts>(&self, script: &Script, facts: &F, k: usize) -> Option<ObjId>
        ensures { result ≡ slice_get (ahead script.now (F.known facts.now) self.now.thread self.now.stand) k }
    {
        if self.is_done {
            return None;
        }
        ahead_of(
            script,
            facts,
            self.thread,
            &self.stack,
            self.work.as_slice(),
            k,
        )
    }

    /// Makes room for the entry of an action whose list has at most `more` numbers. The retain of an object needs
    /// none.
    pub fn reserve_for(&mut self, action: &Action, more: usize) -> Result<(), NoMemory>
        ensures thread { self.new.thread ≡ self.old.thread }
        ensures stand { self.new.stand ≡ self.old.stand }
        ensures room { OnOk result (HasRoomFor action.now more self.new) }
        ensures kept { RoomStays self.old self.new }
    {
        if more == 0 && matches!(action, Action::Retain { .. }) {
            return Ok(());
        }
        let Some(items) = more.checked_add(4) else {
            return Err(NoMemory);
        };
        self.stack.reserve(more)?;
        self.work.reserve(items)
    }

    /// Moves the thread on by the entry of its next action, with its answer. The facts are those before the entry.
    /// `list` has the numbers of what the entry collects (objects, and for a `post` registrations) or gives out, in
    /// order; it is empty for other entries. Takes no memory.
    pub fn advance<F: Facts>(
        &mut self,
        script: &Script,
        facts: &F,
        action: &Action,
        answer: &Answer,
        list: &[u32],
    )
        requires room { HasRoomFor action.now (length list.now) self.old }
        requires list { ListsObjects action.now list.now }
        ensures thread { self.new.thread ≡ self.old.thread }
        ensures stand { next script.now (F.known facts.now) self.old.thread self.old.stand ≡ Some action.now
            → IfSome (demand script.now (F.known facts.now) self.old.thread self.old.stand)
            (λ d. self.new.stand ≡ advanced (F.known facts.now) self.old.thread d answer.now
            (finals_in (cut_of action.now) answer.now) list.now self.old.stand) }
    {
        script.has_numbers();
        if let Some(step) = &self.step(script, facts) {
            if step.is_retain() == action.is_retain() && step.is_post() == action.is_post() {
                self.go_on(facts, step, step.cut_of(action), answer, list);
            }
        }
    }

    /// The same by what `step` found, which is not looked up again.
    #[inline(always)]
    pub fn advance_by<F: Facts>(
        &mut self,
        script: &Script,
        facts: &F,
        step: &Step,
        answer: &Answer,
        list: &[u32],
    )
        requires step { IsStep script.now (F.known facts.now) self.old.thread self.old.stand step.now }
        requires room { StepRoom step.now (length list.now) self.old }
        requires list { StepLists step.now list.now }
        ensures thread { self.new.thread ≡ self.old.thread }
        ensures stand { self.new.stand
            ≡ advanced (F.known facts.now) self.old.thread (demand_of step.now) answer.now
            (finals_in (step_cut step.now) answer.now) list.now self.old.stand }
    {
        script.has_numbers();
        self.go_on(facts, step, step.cut(), answer, list);
    }

    /// The object of a variable of the innermost frame; none if it is empty or not bound.
    pub fn object(&self, variable: VarId) -> Option<ObjId>
        ensures { result ≡ look variable (top_frame self.now.stand.frames).bindings }
    {
        self.stack.object(variable)
    }

    /// How many lines of the innermost frame's block are done.
    pub fn lines_done(&self) -> u32
        ensures { result ≡ (top_frame self.now.stand.frames).number }
    {
        self.stack.number()
    }

    /// The number in the script of the block of the innermost frame; a run has 0.
    pub fn block(&self, script: &Script) -> u16
        ensures { result
            ≡ block_of script.now (top_frame self.now.stand.frames).kind (top_frame self.now.stand.frames).block }
    {
        block_number(script, self.stack.kind())
    }

    /// Moves the thread on by the entry of a statement, as `advance_by` does: of the facts that asks for the time
    /// alone. `finalised` is the object that the entry finalised. Takes no memory.
    pub fn say(
        &mut self,
        statement: &Statement,
        time: u64,
        answer: &Answer,
        finalised: Option<ObjId>,
        list: &[u32],
    )
        requires number { (top_frame self.old.stand.frames).number + 1 < 2 ^ 32 }
        requires room { SaysRoom statement.now finalised (length list.now) self.old }
        requires list { SaysList statement.now list.now }
        ensures thread { self.new.thread ≡ self.old.thread }
        ensures stand { (facts : Known) → facts.time ≡ time → self.new.stand
            ≡ advanced facts self.old.thread (does (says statement.now)) answer.now (option_to_list finalised) list.now
            self.old.stand }
    {
        if list.is_empty() && finalised.is_none() && matches!(statement, Statement::Retain { .. }) {
            self.retain();
            return;
        }
        self.work.clear();
        if !is_post(statement) {
            owe(&mut self.work, list);
        }
        put_body(&mut self.work, finalised);
        finish_statement(&mut self.stack, statement, answer, list, time);
        self.is_done = false;
    }

    /// The same, with the object to which the entry takes a reference away.
    #[inline(always)]
    fn go_on<F: Facts>(
        &mut self,
        facts: &F,
        step: &Step,
        cut: Option<ObjId>,
        answer: &Answer,
        list: &[u32],
    )
        requires found { IsFound (F.known facts.now) self.old.thread self.old.stand step.now }
        requires room { StepRoom step.now (length list.now) self.old }
        requires list { StepLists step.now list.now }
        requires cut { IsCutBy step.now cut }
        ensures thread { self.new.thread ≡ self.old.thread }
        ensures stand { Fits step.now (top_frame self.old.stand.frames).number → self.new.stand
            ≡ advanced (F.known facts.now) self.old.thread (demand_of step.now) answer.now
            (finals_in cut answer.now) list.now self.old.stand }
    {
        if !step.fits(self.stack.number()) {
            return;
        }
        if step.is_retain() && list.is_empty() {
            self.retain();
            return;
        }
        self.go_on_with_room(facts, step, cut, answer, list);
    }

    /// A retain is entered.
    fn retain(&mut self)
        requires { (top_frame self.old.stand.frames).number + 1 < 2 ^ 32 }
        ensures thread { self.new.thread ≡ self.old.thread }
        ensures stand { self.new.stand
            ≡ record { frames = on_top line_passed self.old.stand.frames; work = []; is_done = false } }
    {
        self.work.clear();
        self.stack.pass_line();
        self.is_done = false;
    }

    /// An entry for which there is room.
    #[inline(always)]
    fn go_on_with_room<F: Facts>(
        &mut self,
        facts: &F,
        step: &Step,
        cut: Option<ObjId>,
        answer: &Answer,
        list: &[u32],
    )
        requires found { IsFound (F.known facts.now) self.old.thread self.old.stand step.now }
        requires fits { Fits step.now (top_frame self.old.stand.frames).number }
        requires room { HasRoom (length list.now) self.old }
        requires list { StepLists step.now list.now }
        ensures thread { self.new.thread ≡ self.old.thread }
        ensures stand { self.new.stand
            ≡ advanced (F.known facts.now) self.old.thread (demand_of step.now) answer.now
            (finals_in cut answer.now) list.now self.old.stand }
    {
        work_after(&mut self.work, facts, &self.stack, step, list);
        put_body(&mut self.work, finalised(cut, answer));
        frames_after(&mut self.stack, facts, self.thread, step, answer, list);
        self.is_done = matches!(step, Step::Ends);
    }
}
