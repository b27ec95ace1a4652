//! What a thread does next is found, and its action is written.
ghost use Rattle.std.specs.Prelude.{◌≡◌, ◌≤◌, ◌-◌, drop, length, map, slice_get, Some, None, IfSome};
ghost use Rattle.std.specs.Option.{option_and_then, option_map};
ghost use Rattle.cf_syntax.specs.BlockLines.{says};
ghost use Rattle.cf_next.specs.Ahead.{ahead, lines_ahead, retain_of};
ghost use Rattle.cf_next.specs.Demands.{frame_lines, kind_demand, phase_demand, does};
ghost use Rattle.cf_next.specs.Finding.{IsFoundIn, end_demand, stand_in, top_lines, top_demand};
ghost use Rattle.cf_next.specs.Lines.{line_of};
ghost use Rattle.cf_next.specs.Next.{action_in, block_of, mode_of, object_at, phase_action, top_frame, used_objects};
ghost use Rattle.cf_next.specs.Steps.{HasSlot, IsLine, IsLineStep, IsStep, demand_of};
ghost use Rattle.cf_next.specs.Views.{block_in, kind_of, objects_of};

use crate::action::Action;
use crate::calling::first_call;
use crate::facts::Facts;
use crate::lines::{Line, kind_line, lines_before};
use crate::object::Used;
use crate::parts::{Kind, Work};
use crate::stack::Stack;
use crate::step::Step;
use crate::turn::phase_due;
use crate::work::first_work;
use cf_ids::{ModeId, ObjId, ThreadId, VarId};
use cf_syntax::{Script, Statement};
use rl_turn::Phase;

/// What a thread that is not done does next.
pub(crate) fn find_step<'s, F: Facts>(
    script: &'s Script,
    facts: &F,
    t: ThreadId,
    stack: &Stack,
    work: &[Work],
) -> Step<'s>
    ensures { IsStep script.now (F.known facts.now) t (stand_in stack.now.frames work.now) result }
{
    if let Some(step) = first_work(facts, work) {
        return step;
    }
    if let Some(step) = first_call(facts, t, stack.kind(), stack.collected()) {
        return step;
    }
    frame_step(script, facts, t, stack)
}

/// What the innermost frame does next, where it has nothing to call.
fn frame_step<'s, F: Facts>(script: &'s Script, facts: &F, t: ThreadId, stack: &Stack) -> Step<'s>
    ensures demand { demand_of result ≡ top_demand script.now (F.known facts.now) t (top_frame stack.now.frames) }
    ensures line { IsLineStep script.now stack.now.frames result }
    ensures found { IsFoundIn (F.known facts.now) t stack.now.frames result }
    ensures slot { HasSlot (F.known facts.now) result }
{
    let kind = stack.kind();
    if let Kind::Run(run) = kind {
        return phase_step(phase_due(facts, t, run));
    }
    match &kind_line(script, kind, stack.number() as usize) {
        Some(line) => line_step(script, stack, line),
        None => end_step(kind),
    }
}

/// The entry of a phase, or the end of the run.
fn phase_step<'s>(phase: Option<Phase>) -> Step<'s>
    ensures { demand_of result ≡ phase_demand phase }
{
    match phase {
        None | Some(Phase::Ran) => Step::Closes,
        Some(phase) => Step::Enters(phase),
    }
}

/// The end of a block.
fn end_step<'s>(kind: &Kind) -> Step<'s>
    ensures { demand_of result ≡ end_demand (kind_of kind.now) }
{
    match kind {
        Kind::Handler { .. } => Step::Returns,
        _ => Step::Ends,
    }
}

/// A line, with what it uses.
fn line_step<'s>(script: &'s Script, stack: &Stack, line: &Line<'s>) -> Step<'s>
    requires { IsLine script.now (line_of line.now) stack.now.frames }
    ensures demand { demand_of result ≡ does (line_of line.now) }
    ensures line { IsLineStep script.now stack.now.frames result }
{
    match line {
        Line::Begins => Step::Begins,
        Line::Claims { place, variable } => Step::Claims {
            place: *place,
            variable: *variable,
        },
        Line::Says(statement) => Step::Says {
            statement: *statement,
            used: used_by(stack, *statement),
            number: number_after(stack.number(), lines_before(script, stack.kind())),
        },
        Line::Packs {
            thread,
            place,
            variable,
        } => Step::Packs {
            thread: *thread,
            place: *place,
            variable: *variable,
        },
    }
}

/// The object of a variable, if there is a variable.
pub(crate) fn object_at(stack: &Stack, variable: Option<VarId>) -> Option<ObjId>
    ensures { result ≡ object_at (top_frame stack.now.frames).bindings variable }
{
    match variable {
        Some(variable) => stack.object(variable),
        None => None,
    }
}

/// The objects of the variables that a statement uses.
fn used_by(stack: &Stack, statement: &Statement) -> Used
    ensures { objects_of result ≡ used_objects (top_frame stack.now.frames).bindings (says statement.now) }
{
    let [first, second, third] = statement.uses();
    Used::of([
        object_at(stack, first),
        object_at(stack, second),
        object_at(stack, third),
    ])
}

/// The number of a line among those after the first ones.
fn number_after(number: u32, before: usize) -> u32
    ensures { result ≡ number - before }
{
    if before <= number as usize {
        number - before as u32
    } else {
        0
    }
}

/// The action of what a thread does next.
pub(crate) fn action_of_step<F: Facts>(
    script: &Script,
    facts: &F,
    t: ThreadId,
    stack: &Stack,
    step: &Step,
) -> Action
    requires { IsLineStep script.now stack.now.frames step.now }
    ensures { result ≡ action_in script.now (F.known facts.now) t stack.now.frames (demand_of step.now) }
{
    match step {
        Step::Begins | Step::Ends => Action::Done,
        Step::Claims { place, .. } => Action::Claim(facts.parcel(t, *place)),
        Step::Says {
            statement,
            used,
            number,
        } => Action::of(
            *statement,
            block_number(script, stack.kind()),
            *number,
            used.objects(),
        ),
        Step::Packs {
            thread,
            variable,
            ..
        } => Action::Pack(*thread, object_at(stack, *variable)),
        Step::Returns => Action::Return,
        Step::Owes { object, .. } => Action::Owed(*object),
        Step::Spends { item, .. } => Action::Spend(*item),
        Step::Drops {
            body,
            place,
            object,
            ..
        } => Action::DropSlot {
            body: *body,
            place: *place,
            object: *object,
        },
        Step::Calls {
            callee,
            handler,
            info,
            ..
        } => Action::Call {
            handler: *handler,
            item: callee.item(),
            info: info.object(),
        },
        Step::Enters(phase) => phase_action(*phase),
        Step::Closes => Action::Ran(mode_of(stack.kind())),
    }
}

/// The action of the entry of a phase.
fn phase_action(phase: Phase) -> Action
    ensures { result ≡ phase_action phase }
{
    match phase {
        Phase::Note(activity) => Action::Note(activity),
        Phase::Sources => Action::Sources,
        Phase::Timers => Action::Timers,
        Phase::Sleep => Action::Sleep,
        Phase::Test => Action::Test,
        Phase::Ran => Action::Ran(ModeId(0)),
    }
}

/// The number of a frame's block in the script.
pub(crate) fn block_number(script: &Script, kind: &Kind) -> u16
    ensures { result ≡ block_of script.now (kind_of kind.now) (block_in kind.now) }
{
    match kind {
        Kind::Block(thread) => u16::from(thread.0),
        Kind::Handler { handler, .. } => match script.handler(*handler) {
            Some(block) => block as u16,
            None => 0,
        },
        Kind::Run(_) => 0,
    }
}

/// The mode of a run.
fn mode_of(kind: &Kind) -> ModeId
    ensures { result ≡ mode_of (kind_of kind.now) }
{
    match kind {
        Kind::Run(run) => run.mode,
        _ => ModeId(0),
    }
}

/// The object of the (k+1)-th next action of a thread that is not done.
pub(crate) fn ahead_of<F: Facts>(
    script: &Script,
    facts: &F,
    t: ThreadId,
    stack: &Stack,
    work: &[Work],
    k: usize,
) -> Option<ObjId>
    ensures { result ≡ slice_get (ahead script.now (F.known facts.now) t (stand_in stack.now.frames work.now)) k }
{
    if first_work(facts, work).is_some() {
        return None;
    }
    if first_call(facts, t, stack.kind(), stack.collected()).is_some() {
        return None;
    }
    retained_after(script, stack, k)
}

/// The object that a line of the innermost frame retains, if it does.
fn retained(script: &Script, stack: &Stack, number: usize) -> Option<ObjId>
    ensures { result ≡ option_and_then (retain_of (top_frame stack.now.frames).bindings)
        (slice_get (top_lines script.now (top_frame stack.now.frames)) number) }
{
    match &kind_line(script, stack.kind(), number) {
        Some(Line::Says(Statement::Retain { variable })) => stack.object(*variable),
        _ => None,
    }
}

/// The object that the line after `k` others retains, where they all do.
fn retained_after(script: &Script, stack: &Stack, k: usize) -> Option<ObjId>
    ensures { result ≡ slice_get (lines_ahead (top_frame stack.now.frames).bindings
        (drop (top_frame stack.now.frames).number (top_lines script.now (top_frame stack.now.frames)))) k }
{
    script.has_numbers();
    let mut number = stack.number() as usize;
    let mut left = k;
    while left > 0 {
        if retained(script, stack, number).is_none() {
            return None;
        }
        number += 1;
        left -= 1;
    }
    retained(script, stack, number)
}
