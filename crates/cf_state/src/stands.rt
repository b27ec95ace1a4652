//! Where the threads of a run stand.
ghost use Rattle.std.specs.Prelude.{◌≡◌, ◌<◌, ◌↔◌, length, map, IfOk, IsOk, OnErr, OnOk, MatchOption};
ghost use Rattle.cf_next.specs.Advance.{advanced};
ghost use Rattle.cf_next.specs.Standing.{finals_in};
ghost use Rattle.cf_next.specs.Stands.{opening_stand, stop_stand};
ghost use Rattle.cf_next.specs.Steps.{IsStep, StepLists, demand_of, step_cut};
ghost use Rattle.cf_model.specs.State.{blank, stand_at, threads_of, with_stand};
ghost use Rattle.cf_state.specs.Known.{facts_in};

use crate::known::Known;
use cf_ids::{Answer, ThreadId};
use cf_next::{Action, Frames, Step};
use cf_syntax::Script;
use std::alloc::{AllocError as NoMemory, Global};
use std::marker::Model;

/// Where each thread stands, by number.
#[derive(Drop)]
pub struct Stands {
    stands: Vec<Frames>,
}

impl Model for Stands {
    ghost use Rattle.std.specs.Prelude.{List};
    ghost use Rattle.cf_next.specs.Stands.{Stand};
    ghost use Rattle.cf_state.specs.Placed.{IsPlaced, stands_of};

    ghost Value = { List Stand };

    ghost view = { λ s. stands_of s.stands.items };

    ghost invariant = { λ s. IsPlaced 0 s.stands.items };
}

impl Stands {
    /// Each thread of a script at the first line of its block.
    pub fn opening(alloc: Global, script: &Script) -> Result<Stands, NoMemory>
        ensures { IfOk result (λ s. s ≡ map opening_stand (threads_of script.now)) }
    {
        let mut stands = Vec::new(alloc);
        let mut thread = 0;
        while thread < script.threads() {
            stands.push(Frames::new(alloc, ThreadId(thread as u8)))?;
            thread += 1;
        }
        Ok(Stands { stands })
    }

    /// Where a thread stands, if there is such a thread.
    pub fn get(&self, thread: usize) -> Option<&Frames>
        ensures { MatchOption result (stand_at thread self.now ≡ blank)
            (λ f. (f.now.thread ≡ thread) × (f.now.stand ≡ stand_at thread self.now)) }
    {
        self.stands.get(thread)
    }

    /// Whether a thread is done; one that is not there is not.
    pub fn is_done(&self, thread: usize) -> bool
        ensures { result ≡ (stand_at thread self.now).is_done }
    {
        match self.get(thread) {
            Some(frames) => frames.is_done(),
            None => false,
        }
    }

    /// Moves a thread on by what it does next, with its answer and its list. The facts are those before the entry.
    pub fn advance(
        &mut self,
        script: &Script,
        known: &Known,
        thread: usize,
        step: &Step,
        answer: &Answer,
        list: &[u32],
    ) -> Result<(), NoMemory>
        requires there { thread < length self.old }
        requires step { let facts = facts_in known.now.parts.now known.now.edges.now in
            IsStep script.now facts thread (stand_at thread self.old) step.now }
        requires list { StepLists step.now list.now }
        ensures { let facts = facts_in known.now.parts.now known.now.edges.now in
            OnOk result (self.new ≡ with_stand thread (advanced facts thread (demand_of step.now) answer.now
            (finals_in (step_cut step.now) answer.now) list.now (stand_at thread self.old)) self.old) }
    {
        go_on(&mut self.stands[thread], script, known, step, answer, list)
    }

    /// Tells the innermost run of a thread to stop. `NoMemory` comes exactly if there is no such thread; none that is
    /// told to stop is missing.
    pub fn stop(&mut self, thread: usize) -> Result<(), NoMemory>
        ensures stand { OnOk result (self.new ≡ with_stand thread (stop_stand (stand_at thread self.old)) self.old) }
        ensures there { IsOk result ↔ thread < length self.old }
        ensures err { OnErr result (self.new ≡ self.old) }
    {
        if self.stands.len() <= thread {
            return Err(NoMemory);
        }
        let frames = &mut self.stands[thread];
        frames.stop();
        Ok(())
    }
}

/// Moves the frames of a thread on by what it does next.
fn go_on(
    frames: &mut Frames,
    script: &Script,
    known: &Known,
    step: &Step,
    answer: &Answer,
    list: &[u32],
) -> Result<(), NoMemory>
    requires step { let facts = facts_in known.now.parts.now known.now.edges.now in
        IsStep script.now facts frames.old.thread frames.old.stand step.now }
    requires list { StepLists step.now list.now }
    ensures thread { frames.new.thread ≡ frames.old.thread }
    ensures stand { let facts = facts_in known.now.parts.now known.now.edges.now in
        OnOk result (frames.new.stand ≡ advanced facts frames.old.thread (demand_of step.now) answer.now
        (finals_in (step_cut step.now) answer.now) list.now frames.old.stand) }
{
    frames.reserve_for(&Action::Done, list.len())?;
    frames.advance_by(script, known, step, answer, list);
    Ok(())
}
