//! The frames of a thread.
ghost use Rattle.std.specs.Prelude.{◌≡◌, ℕ, None, ◌+◌, ◌-◌, ◌≤◌, ◌<◌, ◌^◌, ◌∷◌, [], drop, length, map, reverse, false, slice_set, vec_len, vec_capacity, MatchOption, OnOk};
ghost use Rattle.std.specs.Option.{option_copied, option_map};
ghost use Rattle.cf_ids.specs.declared.limits.TheConstants.{VARIABLES};
ghost use Rattle.cf_next.specs.Stands.{look, opening_stand, has_run, stop_frames};
ghost use Rattle.cf_next.specs.Held.{IsFrameAt, frame_at};
ghost use Rattle.cf_next.specs.Next.{top_frame};
ghost use Rattle.cf_next.specs.Advance.{kind_called, on_top};
ghost use Rattle.cf_next.specs.Standing.{innermost_run};
ghost use Rattle.cf_next.specs.Stacks.{HasFrame, RoomKept, is_block, with_binding, line_passed, with_collected, with_called, with_phase, opened, IsRunAt, code_is_run, code_stopped, code_run_or, code_run, code_has_run, code_stop};
ghost use Rattle.cf_next.specs.Views.{bindings_of, block_in, callee_of, callees_of, cell_of, kind_of, turn_of};

use crate::facts::Facts;
use crate::object::MaybeObject;
use crate::parts::{Bound, Callee, Frame, Kind, Run};
use crate::rows::Rows;
use crate::turn::enter_phase;
use cf_ids::{ObjId, ThreadId, VARIABLES, VarId};
use rl_turn::Phase;
use std::alloc::{AllocError as NoMemory, Global};
use std::marker::Model;

/// The frames, the innermost on top. The outermost is that of the thread's block.
#[derive(Drop)]
pub(crate) struct Stack {
    top: Frame,
    /// The other frames, the outermost first.
    below: Vec<Frame>,
    /// What the variables of each frame were bound to, the newest last.
    bindings: Rows<Bound>,
    /// What each frame collected and is not called yet, the first one last.
    collected: Rows<Callee>,
    /// What the variables of the innermost frame have, by number.
    table: [MaybeObject; VARIABLES],
}

impl Model for Stack {
    ghost use Rattle.std.specs.Prelude.{◌-◌, ◌∷◌, min, reverse, vec_len, vec_capacity};
    ghost use Rattle.cf_next.specs.Stacks.{Stack, frames_from, IsStack};

    ghost Value = { Stack };

    ghost view = { λ s. record {
      frames = frames_from (s.top ∷ reverse s.below.items) s.bindings.rows s.collected.rows;
      frame_room = min (vec_capacity s.below - vec_len s.below) (min s.bindings.row_room s.collected.row_room);
      binding_room = s.bindings.cell_room;
      callee_room = s.collected.cell_room;
    } };

    ghost invariant = { λ s. IsStack (s.top ∷ reverse s.below.items) s.bindings.rows s.collected.rows s.table };
}

impl Stack {
    /// A thread at the first line of its block, without room; takes no memory.
    pub(crate) fn new(alloc: Global, t: ThreadId) -> Stack
        ensures { result ≡ record {
          frames = (opening_stand t).frames;
          frame_room = 0;
          binding_room = 0;
          callee_room = 0;
        } }
    {
        Stack {
            top: Frame {
                kind: Kind::Block(t),
                number: 0,
            },
            below: Vec::new(alloc),
            bindings: Rows::new(alloc),
            collected: Rows::new(alloc),
            table: no_cells(),
        }
    }

    /// Makes room for one further frame, one binding, and so many that are collected.
    pub(crate) fn reserve(&mut self, callees: usize) -> Result<(), NoMemory>
        ensures frames { self.new.frames ≡ self.old.frames }
        ensures frame_room { OnOk result (1 ≤ self.new.frame_room) }
        ensures binding_room { OnOk result (1 ≤ self.new.binding_room) }
        ensures callee_room { OnOk result (callees ≤ self.new.callee_room) }
        ensures kept { RoomKept self.old self.new }
    {
        self.below.reserve(1)?;
        self.bindings.reserve(1, 1)?;
        self.collected.reserve(1, callees)
    }

    /// How many frames are below the innermost one.
    pub(crate) fn depth(&self) -> usize
        ensures { length self.now.frames ≡ result + 1 }
    {
        self.below.len()
    }

    /// How many frames there are.
    pub(crate) fn count(&self) -> usize
        ensures { result ≡ length self.now.frames }
    {
        self.below.len() + 1
    }

    /// The frame that so many others are below.
    pub(crate) fn frame(&self, depth: usize) -> &Frame
        requires { depth < length self.now.frames }
        ensures { IsFrameAt self.now.frames depth result.now }
    {
        if depth < self.below.len() {
            &self.below[depth]
        } else {
            &self.top
        }
    }

    /// What the variables of the frame were bound to that so many others are below, the newest last.
    pub(crate) fn bound(&self, depth: usize) -> &[Bound]
        requires { depth < length self.now.frames }
        ensures { bindings_of result.now ≡ (frame_at self.now.frames depth).bindings }
    {
        self.bindings.row(depth)
    }

    /// What the innermost frame is of.
    pub(crate) fn kind(&self) -> &Kind
        ensures some { HasFrame self.now.frames }
        ensures kind { kind_of result.now ≡ (top_frame self.now.frames).kind }
        ensures block { block_in result.now ≡ (top_frame self.now.frames).block }
    {
        &self.top.kind
    }

    /// How many lines of the innermost frame's block are done.
    pub(crate) fn number(&self) -> u32
        ensures { result ≡ (top_frame self.now.frames).number }
    {
        self.top.number
    }

    /// The object of a variable of the innermost frame.
    pub(crate) fn object(&self, variable: VarId) -> Option<ObjId>
        ensures { result ≡ look variable (top_frame self.now.frames).bindings }
    {
        self.table[usize::from(variable.0)].object()
    }

    /// What the innermost frame collected and is not called yet, the first one last.
    pub(crate) fn collected(&self) -> &[Callee]
        ensures { callees_of result.now ≡ (top_frame self.now.frames).collected }
    {
        self.collected.top()
    }

    /// Binds a variable of the innermost frame.
    pub(crate) fn bind(&mut self, variable: VarId, object: Option<ObjId>)
        requires { 0 < self.old.binding_room }
        ensures frames { self.new.frames ≡ on_top (with_binding variable object) self.old.frames }
        ensures frame_room { self.new.frame_room ≡ self.old.frame_room }
        ensures callee_room { self.new.callee_room ≡ self.old.callee_room }
    {
        let object = MaybeObject::of(object);
        self.bindings.push(Bound { variable, object });
        self.table[usize::from(variable.0)] = object;
    }

    /// A line of the innermost frame's block is done, and nothing is left of what was collected.
    pub(crate) fn pass_line(&mut self)
        requires { (top_frame self.old.frames).number + 1 < 2 ^ 32 }
        ensures frames { self.new.frames ≡ on_top line_passed self.old.frames }
        ensures frame_room { self.new.frame_room ≡ self.old.frame_room }
        ensures binding_room { self.new.binding_room ≡ self.old.binding_room }
        ensures callee_room { self.old.callee_room ≤ self.new.callee_room }
    {
        self.top.number += 1;
        self.collected.truncate(0);
    }

    /// The innermost frame collects one that comes before the others.
    pub(crate) fn collect(&mut self, callee: Callee)
        requires { 0 < self.old.callee_room }
        ensures frames { self.new.frames ≡ on_top (with_collected (callee_of callee ∷ [])) self.old.frames }
        ensures frame_room { self.new.frame_room ≡ self.old.frame_room }
        ensures callee_room { self.new.callee_room + 1 ≡ self.old.callee_room }
    {
        self.collected.push(callee);
    }

    /// The innermost frame has called one, and so many of what it collected are left.
    pub(crate) fn pass_callee(&mut self, callee: &Callee, left: usize)
        requires { left ≤ length (top_frame self.old.frames).collected }
        ensures frames { self.new.frames ≡ on_top (with_called (callee_of callee.now).role left) self.old.frames }
        ensures frame_room { self.new.frame_room ≡ self.old.frame_room }
        ensures binding_room { self.new.binding_room ≡ self.old.binding_room }
    {
        mark_called(&mut self.top.kind, callee);
        self.collected.truncate(left);
    }

    /// The innermost frame's run enters a phase, and nothing is left of what was collected.
    pub(crate) fn pass_phase<F: Facts>(&mut self, facts: &F, t: ThreadId, phase: Phase)
        ensures frames { self.new.frames ≡ on_top (with_phase (F.known facts.now) t phase) self.old.frames }
        ensures callee_room { self.old.callee_room ≤ self.new.callee_room }
    {
        if let Kind::Run(run) = &mut self.top.kind {
            enter_phase(facts, t, phase, run);
        }
        self.collected.truncate(0);
    }

    /// Puts a frame on top.
    pub(crate) fn push(&mut self, kind: Kind, number: u32)
        requires { 0 < self.old.frame_room }
        ensures frames { self.new.frames ≡ opened kind number ∷ self.old.frames }
        ensures binding_room { self.new.binding_room ≡ self.old.binding_room }
    {
        self.below.push_reserved(self.top);
        self.bindings.push_row();
        self.collected.push_row();
        self.top = Frame { kind, number };
        let table = no_cells();
        self.table = table;
    }

    /// Takes the innermost frame away, which is not that of the thread's block.
    pub(crate) fn pop(&mut self)
        requires { is_block (top_frame self.old.frames).kind ≡ false }
        ensures { self.new.frames ≡ drop 1 self.old.frames }
    {
        if let Some(frame) = self.below.pop() {
            self.bindings.pop_row();
            self.collected.pop_row();
            self.top = frame;
            fill(&mut self.table, self.bindings.top());
        }
    }

    /// Tells the innermost run to stop; false exactly if there is no run.
    pub(crate) fn stop(&mut self) -> bool
        ensures found { result ≡ has_run self.old.frames }
        ensures frames { self.new.frames ≡ stop_frames self.old.frames }
        ensures frame_room { self.new.frame_room ≡ self.old.frame_room }
        ensures binding_room { self.new.binding_room ≡ self.old.binding_room }
        ensures callee_room { self.new.callee_room ≡ self.old.callee_room }
    {
        if is_run(&self.top) {
            stop_frame(&mut self.top);
            true
        } else {
            stop_below(&mut self.below)
        }
    }

    /// The innermost run.
    pub(crate) fn run(&self) -> Option<&Run>
        ensures { option_map turn_of (option_copied result) ≡ innermost_run self.now.frames }
    {
        if is_run(&self.top) {
            run_of(&self.top)
        } else {
            run_below(self.below.as_slice())
        }
    }
}

/// A table that has nothing.
#[inline(always)]
pub(crate) fn no_cells() -> [MaybeObject; VARIABLES]
    ensures { (v : ℕ) → cell_of result v ≡ None }
{
    [MaybeObject::NONE; VARIABLES]
}

/// Puts what a variable was bound to into a table.
fn set(table: &mut [MaybeObject; VARIABLES], bound: &Bound)
    ensures within { bound.now.variable < VARIABLES }
    ensures table { table.new ≡ slice_set table.old bound.now.variable bound.now.object }
{
    table[usize::from(bound.variable.0)] = bound.object;
}

/// Makes a table of what variables were bound to, the newest last.
pub(crate) fn fill(table: &mut [MaybeObject; VARIABLES], row: &[Bound])
    ensures size { length table.new ≡ VARIABLES }
    ensures cells { (v : ℕ) → cell_of table.new v ≡ look v (bindings_of row.now) }
{
    *table = no_cells();
    for bound in row {
        set(table, bound);
    }
}

/// A run remembers that a source was called.
fn mark_called(kind: &mut Kind, callee: &Callee)
    ensures kind { kind_of kind.new ≡ kind_called (callee_of callee.now).role (kind_of kind.old) }
    ensures block { block_in kind.new ≡ block_in kind.old }
    ensures based { is_block (kind_of kind.new) ≡ is_block (kind_of kind.old) }
{
    if let (Callee::Source(_), Kind::Run(run)) = (callee, kind) {
        run.handled = true;
    }
}

/// Whether a frame is of a run.
fn is_run(frame: &Frame) -> bool
    ensures { result ≡ code_is_run frame.now.kind }
{
    matches!(&frame.kind, Kind::Run(_))
}

/// The place of the innermost run among these frames, the outermost first.
fn run_at(frames: &[Frame]) -> Option<usize>
    ensures { MatchOption result (code_has_run (reverse frames.now) ≡ false) (λ i. IsRunAt frames.now i) }
{
    let mut rest = frames;
    while let Some((last, others)) = rest.split_last() {
        if is_run(last) {
            return Some(others.len());
        }
        rest = others;
    }
    None
}

/// Tells the run of a frame to stop.
fn stop_frame(frame: &mut Frame)
    ensures { frame.new ≡ record frame.old { kind = code_stopped frame.old.kind } }
{
    if let Kind::Run(run) = &mut frame.kind {
        run.stopped = true;
    }
}

/// Tells the innermost run of these frames, the outermost first, to stop.
fn stop_below(frames: &mut Vec<Frame>) -> bool
    ensures found { result ≡ code_has_run (reverse frames.old.items) }
    ensures frames { reverse frames.new.items ≡ code_stop (reverse frames.old.items) }
    ensures len { vec_len frames.new ≡ vec_len frames.old }
    ensures capacity { vec_capacity frames.new ≡ vec_capacity frames.old }
{
    match run_at(frames.as_slice()) {
        Some(i) => {
            stop_frame(&mut frames[i]);
            true
        }
        None => false,
    }
}

/// The run of a frame.
fn run_of(frame: &Frame) -> Option<&Run>
    ensures { option_copied result ≡ code_run_or frame.now.kind None }
{
    match &frame.kind {
        Kind::Run(run) => Some(run),
        _ => None,
    }
}

/// The innermost run of these frames, the outermost first.
fn run_below(frames: &[Frame]) -> Option<&Run>
    ensures { option_copied result ≡ code_run (reverse frames.now) }
{
    match run_at(frames) {
        Some(i) => run_of(&frames[i]),
        None => None,
    }
}
