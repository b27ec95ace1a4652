//! How an entry moves a thread's work and frames on.
ghost use Rattle.std.specs.Prelude.{◌≡◌, ◌+◌, ◌-◌, ◌≤◌, ◌<◌, ◌^◌, ◌++◌, ◌∷◌, length, map, true, vec_len, vec_capacity};
ghost use Rattle.std.specs.List.{All};
ghost use Rattle.cf_ids.specs.Ranges.{IsObjectNumber};
ghost use Rattle.cf_syntax.specs.BlockLines.{says};
ghost use Rattle.cf_syntax.specs.Mentions.{ownership_of};
ghost use Rattle.cf_next.specs.Advance.{frames_after, is_entered, is_spent, object_in, handler_frame, is_post, on_top, run_frames, spend_work, work_after, deadline_of};
ghost use Rattle.cf_next.specs.Advancing.{IsFrameFound, IsWorkFound, PlaceFits, line_finished, receivers_of, return_of};
ghost use Rattle.cf_next.specs.Next.{top_frame};
ghost use Rattle.cf_next.specs.Stacks.{with_called, with_collected};
ghost use Rattle.cf_next.specs.Stands.{as_receiver, callee, of_handler};
ghost use Rattle.cf_next.specs.Steps.{StepFits, StepLists, demand_of};
ghost use Rattle.cf_next.specs.Turns.{role_at};
ghost use Rattle.cf_next.specs.Views.{callee_of, kind_of, works_of};

use crate::facts::Facts;
use crate::parts::{Callee, Kind, Run, Work};
use crate::stack::Stack;
use crate::step::Step;
use crate::work::{keep_work, owe, owe_one, put_first};
use cf_ids::{Answer, HandlerId, ObjId, ThreadId, VarId};
use cf_syntax::{Ownership, Statement};
use rl_turn::Phase;

// ---- work

/// The work after an entry, without what it finalised.
pub(crate) fn work_after<F: Facts>(
    work: &mut Vec<Work>,
    facts: &F,
    stack: &Stack,
    step: &Step,
    list: &[u32],
)
    requires found { IsWorkFound (F.known facts.now) (works_of work.old.items) step.now }
    requires place { PlaceFits step.now }
    requires room { vec_len work.old + (length list.now + 4) ≤ vec_capacity work.old }
    requires list { StepLists step.now list.now }
    ensures items { works_of work.new.items
        ≡ work_after (F.known facts.now) stack.now.frames (demand_of step.now) list.now (works_of work.old.items) }
    ensures room { vec_len work.new < vec_capacity work.new }
{
    match step {
        Step::Begins | Step::Claims { .. } | Step::Says { .. } | Step::Packs { .. } => {
            work.clear();
            if !step.is_post() {
                owe(work, list);
            }
        }
        Step::Returns => {
            work.clear();
            owe_return(work, facts, stack.kind(), stack.object(VarId(0)));
        }
        Step::Owes { left, .. } => keep_work(work, *left),
        Step::Spends { left, .. } => {
            keep_work(work, *left);
            owe(work, list);
        }
        Step::Drops {
            body,
            place,
            left,
            ..
        } => {
            keep_work(work, *left);
            put_first(
                work,
                Work::Slots {
                    body: *body,
                    place: *place + 1,
                },
            );
        }
        _ => work.clear(),
    }
}

/// Whether an item is invalidated after its handler.
fn is_spent<F: Facts>(facts: &F, callee: &Callee) -> bool
    ensures { result ≡ is_spent (F.known facts.now) (callee_of callee.now).role (callee_of callee.now).number }
{
    match callee {
        Callee::Timer(timer) => facts.is_valid(*timer) && facts.next_date(*timer).is_none(),
        Callee::Observer(observer) => facts.is_valid(*observer) && !facts.repeats(*observer),
        _ => false,
    }
}

/// Puts an item in front that is invalidated, if it is.
fn spend_one<F: Facts>(work: &mut Vec<Work>, facts: &F, callee: &Callee, kind: &Kind)
    requires room { vec_len work.old < vec_capacity work.old }
    requires kind { kind_of kind.now ≡ of_handler (callee_of callee.now) }
    ensures items { works_of work.new.items
        ≡ spend_work (F.known facts.now) (kind_of kind.now) ++ works_of work.old.items }
    ensures len { vec_len work.new ≤ vec_len work.old + 1 }
    ensures capacity { vec_capacity work.new ≡ vec_capacity work.old }
{
    if is_spent(facts, callee) {
        if let Some(item) = callee.item() {
            put_first(work, Work::Spend(item));
        }
    }
}

/// The work after a handler: the release of its info, the item if it is spent, and the release of the item.
fn owe_return<F: Facts>(work: &mut Vec<Work>, facts: &F, kind: &Kind, info: Option<ObjId>)
    requires { vec_len work.old + 3 ≤ vec_capacity work.old }
    ensures items { works_of work.new.items
        ≡ return_of (F.known facts.now) (kind_of kind.now) info ++ works_of work.old.items }
    ensures len { vec_len work.new ≤ vec_len work.old + 3 }
    ensures capacity { vec_capacity work.new ≡ vec_capacity work.old }
{
    if let Kind::Handler { callee, .. } = kind {
        owe_one(work, callee.item());
        spend_one(work, facts, callee, kind);
    }
    owe_one(work, info);
}

// ---- frames

/// The frames after an entry.
pub(crate) fn frames_after<F: Facts>(
    stack: &mut Stack,
    facts: &F,
    t: ThreadId,
    step: &Step,
    answer: &Answer,
    list: &[u32],
)
    requires found { IsFrameFound (F.known facts.now) t stack.old.frames step.now }
    requires fits { StepFits step.now (top_frame stack.old.frames).number }
    requires frame_room { 1 ≤ stack.old.frame_room }
    requires binding_room { 1 ≤ stack.old.binding_room }
    requires callee_room { length list.now ≤ stack.old.callee_room }
    requires list { StepLists step.now list.now }
    ensures { stack.new.frames
        ≡ frames_after (F.known facts.now) t (demand_of step.now) answer.now list.now stack.old.frames }
{
    match step {
        Step::Begins => finish_line(stack, Ownership::Binds(VarId(0)), object_in(answer), &[]),
        Step::Claims { place, variable } => {
            let object = facts.parcel(t, *place);
            finish_line(stack, Ownership::Binds(*variable), object, &[]);
        }
        Step::Says { statement, .. } => finish_statement(
            stack,
            *statement,
            answer,
            list,
            facts.time(),
        ),
        Step::Packs { .. } => finish_line(stack, Ownership::Keeps, None, &[]),
        Step::Returns | Step::Closes => stack.pop(),
        Step::Calls {
            callee,
            handler,
            info,
            left,
        } => call(stack, callee, *handler, info.object(), *left),
        Step::Enters(phase) => {
            stack.pass_phase(facts, t, *phase);
            collect_items(stack, *phase, list);
        }
        _ => {}
    }
}

/// A line is done: the variable that it binds has an object, and what it collected is registrations.
fn finish_line(stack: &mut Stack, ownership: Ownership, object: Option<ObjId>, receivers: &[u32])
    requires number { (top_frame stack.old.frames).number + 1 < 2 ^ 32 }
    requires binding_room { 1 ≤ stack.old.binding_room }
    requires callee_room { length receivers.now ≤ stack.old.callee_room }
    ensures frames { stack.new.frames ≡ on_top (line_finished ownership object receivers.now) stack.old.frames }
    ensures frame_room { stack.new.frame_room ≡ stack.old.frame_room }
{
    stack.pass_line();
    if let Ownership::Binds(variable) = ownership {
        stack.bind(variable, object);
    }
    collect_receivers(stack, receivers);
}

/// A statement is done. A run that began has a frame of its own.
pub(crate) fn finish_statement(
    stack: &mut Stack,
    statement: &Statement,
    answer: &Answer,
    list: &[u32],
    time: u64,
)
    requires number { (top_frame stack.old.frames).number + 1 < 2 ^ 32 }
    requires frame_room { 1 ≤ stack.old.frame_room }
    requires binding_room { 1 ≤ stack.old.binding_room }
    requires callee_room { length list.now ≤ stack.old.callee_room }
    ensures { stack.new.frames ≡ run_frames time (says statement.now) (is_entered answer.now)
        ++ on_top (line_finished (ownership_of statement.now) (object_in answer.now)
        (receivers_of statement.now list.now)) stack.old.frames }
{
    let receivers = if is_post(statement) { list } else { &[] };
    finish_line(stack, statement.ownership(), object_in(answer), receivers);
    if is_entered(answer) {
        begin_run(stack, statement, time);
    }
}

/// Whether a statement posts a notice.
pub(crate) fn is_post(statement: &Statement) -> bool
    ensures { result ≡ is_post (says statement.now) }
{
    matches!(statement, Statement::Post { .. })
}

/// Whether a run of a loop began.
fn is_entered(answer: &Answer) -> bool
    ensures { result ≡ is_entered answer.now }
{
    matches!(answer, Answer::Entered)
}

/// The object that an answer names.
fn object_in(answer: &Answer) -> Option<ObjId>
    ensures { result ≡ object_in answer.now }
{
    match answer {
        Answer::Object(object) => Some(*object),
        _ => None,
    }
}

/// The deadline of a run, which is at most 2^64 - 1.
fn deadline_of(time: u64, limit: &Option<u64>) -> Option<u64>
    ensures { result ≡ deadline_of time limit.now }
{
    match limit {
        Some(limit) => Some(time.saturating_add(*limit)),
        None => None,
    }
}

/// Opens the frame of the run that a statement began.
fn begin_run(stack: &mut Stack, statement: &Statement, time: u64)
    requires { 1 ≤ stack.old.frame_room }
    ensures { stack.new.frames ≡ run_frames time (says statement.now) true ++ stack.old.frames }
{
    if let Statement::Run { mode, limit, once } = statement {
        let run = Run {
            mode: *mode,
            once: *once,
            deadline: deadline_of(time, limit),
            last: None,
            handled: false,
            stopped: false,
            result: None,
        };
        stack.push(Kind::Run(run), 0);
    }
}

/// Calls a handler, which has a frame of its own, after the line by which it has its info in variable 0.
fn call(stack: &mut Stack, callee: &Callee, handler: HandlerId, info: Option<ObjId>, left: usize)
    requires left { left ≤ length (top_frame stack.old.frames).collected }
    requires frame_room { 1 ≤ stack.old.frame_room }
    requires binding_room { 1 ≤ stack.old.binding_room }
    ensures { stack.new.frames ≡ handler_frame (callee_of callee.now) (record { handler = handler; info = info })
        ∷ on_top (with_called (callee_of callee.now).role left) stack.old.frames }
{
    stack.pass_callee(callee, left);
    stack.push(
        Kind::Handler {
            callee: *callee,
            handler,
        },
        1,
    );
    stack.bind(VarId(0), info);
}

/// Collects registrations, in front of what is collected.
fn collect_receivers(stack: &mut Stack, list: &[u32])
    requires { length list.now ≤ stack.old.callee_room }
    ensures frames { stack.new.frames ≡ on_top (with_collected (map (callee as_receiver) list.now)) stack.old.frames }
    ensures frame_room { stack.new.frame_room ≡ stack.old.frame_room }
{
    let mut rest = list;
    while let Some((last, others)) = rest.split_last() {
        stack.collect(Callee::Receiver(*last));
        rest = others;
    }
}

/// What a phase collects, by its number as an object.
fn item_at(phase: Phase, item: ObjId) -> Callee
    ensures { callee_of result ≡ callee (role_at phase) item }
{
    match phase {
        Phase::Sources => Callee::Source(item),
        Phase::Timers => Callee::Timer(item),
        _ => Callee::Observer(item),
    }
}

/// Collects the items of a phase, in front of what is collected.
fn collect_items(stack: &mut Stack, phase: Phase, list: &[u32])
    requires room { length list.now ≤ stack.old.callee_room }
    requires objects { All IsObjectNumber list.now }
    ensures { stack.new.frames ≡ on_top (with_collected (map (callee (role_at phase)) list.now)) stack.old.frames }
{
    let mut rest = list;
    while let Some((last, others)) = rest.split_last() {
        stack.collect(item_at(phase, ObjId(*last)));
        rest = others;
    }
}
