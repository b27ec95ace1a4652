//! The run loops of a run, and the room for what comes into them.
ghost use Rattle.std.specs.Prelude.{◌≡◌, ◌<◌, ◌≤◌, ◌^◌, length, replicate, slice_get, IfOk, IsOk, OnOk, OnErr};
ghost use Rattle.std.specs.Option.{option_copied};
ghost use Rattle.cf_ids.specs.declared.limits.TheConstants.{MODES};
ghost use Rattle.cf_syntax.specs.declared.script.Script.{Script};
ghost use Rattle.cf_model.specs.State.{start};
ghost use Rattle.cf_loops.specs.Following.{AreLoops, InStates, first_loop, loop_at};
ghost use Rattle.cf_loops.specs.Rooms.{HasMoreRoom, most_added, most_gained};

use crate::counts::most_added;
use cf_ids::ThreadId;
use rl_base::Place;
use rl_modes::Modes;
use std::alloc::{AllocError as NoMemory, Global};
use std::marker::Model;

/// The run loops of a run, one of each thread (the Run Loops guide). Contracts see them by thread.
#[derive(Drop)]
pub struct Loops {
    pub(crate) loops: Vec<Modes>,
}

impl Model for Loops {
    ghost use Rattle.std.specs.Prelude.{List};
    ghost use Rattle.rl_modes.specs.Loops.{Loop};

    ghost Value = { List Loop };

    ghost view = { λ l. l.loops.items };
}

impl Loops {
    /// The loops of so many threads at the start: nothing is held, and `default` is the one common mode of each.
    pub fn new(alloc: Global, threads: usize) -> Result<Loops, NoMemory>
        ensures loops { IfOk result (λ l. l ≡ replicate threads first_loop) }
        ensures start { IfOk result (λ l. (s : Script) → s.thread_count ≡ threads → 0 < length s.modes → length s.modes ≤ MODES
            → AreLoops s (start s).parts (start s).edges l) }
    {
        let mut loops = Vec::new(alloc);
        for _ in 0..threads {
            loops.push(Modes::new(alloc))?;
        }
        Ok(Loops { loops })
    }

    /// How many threads there are.
    pub fn threads(&self) -> usize
        ensures { result ≡ length self.now }
    {
        self.loops.len()
    }

    /// The loop of a thread, if there is that thread.
    pub(crate) fn of(&self, t: ThreadId) -> Option<&Modes>
        ensures { option_copied result ≡ slice_get self.now t }
    {
        self.loops.get(t.0 as usize)
    }

    /// Makes room in a thread's loop for at least so many items and common modes.
    fn reserve(&mut self, t: ThreadId, more: usize) -> Result<(), NoMemory>
        requires { t < length self.old }
        ensures only_room { HasMoreRoom t self.old self.new }
        ensures room { OnOk result (more ≤ (loop_at t self.new).room) }
        ensures enough { more ≤ (loop_at t self.old).room → IsOk result }
        ensures err { OnErr result (self.new ≡ self.old) }
    {
        let modes = &mut self.loops[t.0 as usize];
        modes.reserve(more)
    }

    /// Makes room to add an item to a place of a thread's loop. `NoMemory` comes only for want of memory, and changes
    /// nothing.
    pub fn reserve_add(&mut self, t: ThreadId, place: &Place) -> Result<(), NoMemory>
        requires { t < length self.old }
        ensures only_room { HasMoreRoom t self.old self.new }
        ensures kept { InStates self.old (λ s st. AreLoops s st.parts st.edges self.new) }
        ensures room { OnOk result (most_added place.now (loop_at t self.new) ≤ (loop_at t self.new).room) }

        // It can be refused only if the room was missing.
        ensures enough { most_added place.now (loop_at t self.old) < 2 ^ 64
            → most_added place.now (loop_at t self.old) ≤ (loop_at t self.old).room → IsOk result }
        ensures err { OnErr result (self.new ≡ self.old) }
    {
        let modes = &self.loops[t.0 as usize];
        match most_added(modes, place) {
            Some(more) => self.reserve(t, more),
            None => Err(NoMemory),
        }
    }

    /// Makes room for a mode of a thread's loop to become a common one. `NoMemory` comes only for want of memory, and
    /// changes nothing.
    pub fn reserve_common(&mut self, t: ThreadId) -> Result<(), NoMemory>
        requires { t < length self.old }
        ensures only_room { HasMoreRoom t self.old self.new }
        ensures kept { InStates self.old (λ s st. AreLoops s st.parts st.edges self.new) }
        ensures room { OnOk result (most_gained (loop_at t self.new) ≤ (loop_at t self.new).room) }

        // It can be refused only if the room was missing.
        ensures enough { most_gained (loop_at t self.old) ≤ (loop_at t self.old).room → IsOk result }
        ensures err { OnErr result (self.new ≡ self.old) }
    {
        let modes = &self.loops[t.0 as usize];
        let more = 1 + modes.common_items().len();
        self.reserve(t, more)
    }
}
