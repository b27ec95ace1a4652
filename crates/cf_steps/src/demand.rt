//! The step of what a thread demands.
ghost use Rattle.std.specs.Prelude.{◌≡◌, true, [], length, Some, IfOk};
ghost use Rattle.cf_next.specs.Advance.{kind_item, top_info, top_kind};
ghost use Rattle.cf_next.specs.Facts.{Callout};
ghost use Rattle.cf_next.specs.Stands.{Turn};
ghost use Rattle.cf_next.specs.Views.{callee_of};
ghost use Rattle.cf_next.specs.Next.{object_at};
ghost use Rattle.cf_next.specs.Steps.{IsLineStep, IsStep, demand_of, is_line};
ghost use Rattle.cf_next.specs.Standing.{innermost_run};
ghost use Rattle.cf_model.specs.Known.{facts_of};
ghost use Rattle.cf_model.specs.State.{first_held, flags_at, stand_at};
ghost use Rattle.cf_graph.specs.Holders as holders;
ghost use Rattle.cf_references.specs.Views.{holder_of};
ghost use Rattle.cf_model.specs.Steps.{activity, bindings_of, call_answer, call_step, claim_step, collect_step, deal_step, depth_of, frames_at, pack_step, packed_holder, phase_step, return_step, sleep_step, sleeping, spend_if, step_of as step_in};
ghost use Rattle.cf_model.specs.Things.{mode_date, thing_at};
ghost use Rattle.cf_next.specs.Turns.{test_result};
ghost use Rattle.cf_steps.specs.Doing.{step_of};
ghost use Rattle.cf_steps.specs.Running.{IsInRun, is_observer, until_step};
ghost use Rattle.cf_state.specs.Views.{sleeping_of};
ghost use Rattle.cf_state.specs.States.{state_of};

use crate::collect::{collected_of, items_in, mode_date};
use crate::done::Done;
use crate::statement::{statement_step, variable_at};
use crate::steps::{
    call_references, claim_step, cut_step, deal_step, doing, drop_step, end_step, fire, idle,
    pack_step, result_answer, return_step, updating,
};
use cf_deals::{Deal, invalidate_deal};
use cf_ids::{Answer, ObjId, VarId};
use cf_next::{Callee, Frames, Step};
use cf_references::{Flow, Holder};
use cf_state::{Flags, Sleep, State, Update, earlier, flags_at, has_come};
use cf_syntax::Script;
use rl_turn::Phase;
use std::alloc::{AllocError as NoMemory, Global};

/// A step after which a thread sleeps or is awake, and its wake flag is taken.
fn sleeping(alloc: Global, state: &State, thread: usize, answer: Answer, sleep: Sleep) -> Done
    ensures { step_of state.now.parts result ≡ sleeping (state_of state.now) thread answer (sleeping_of sleep) }
{
    let before = flags_at(state.parts.flags.as_slice(), thread);
    let flags = Flags {
        is_started: before.is_started,
        sleep,
        is_woken: false,
    };
    updating(alloc, answer, Update::Flag { thread, flags })
}

/// Whether a wake is kept for a thread.
fn is_woken(state: &State, thread: usize) -> bool
    ensures { result ≡ (flags_at thread state.now.parts.flags).is_woken }
{
    flags_at(state.parts.flags.as_slice(), thread).is_woken
}

/// The least date of the valid timers of a mode.
fn date_of(
    alloc: Global,
    state: &State,
    thread: usize,
    mode: usize,
) -> Result<Option<u64>, NoMemory>
    ensures { IfOk result (λ date. date ≡ mode_date (state_of state.now) thread mode) }
{
    mode_date(alloc, &state.parts, state.edges.as_slice(), thread, mode)
}

/// A loop that was not woken sleeps, unless the deadline is past or a timer's date has come.
fn unwoken_step(
    alloc: Global,
    state: &State,
    thread: usize,
    deadline: Option<u64>,
    date: Option<u64>,
) -> Done
    ensures { step_of state.now.parts result ≡ until_step (state_of state.now) thread deadline date }
{
    if has_come(&deadline, state.parts.time) || has_come(&date, state.parts.time) {
        return idle(alloc, Answer::Due);
    }
    let until = earlier(deadline, date);
    sleeping(
        alloc,
        state,
        thread,
        Answer::Asleep(until),
        Sleep::Until(until),
    )
}

/// A loop that was woken does not sleep.
fn sleep_step(
    alloc: Global,
    state: &State,
    thread: usize,
    frames: &Frames,
    mode: usize,
) -> Result<Done, NoMemory>
    ensures { let st = state_of state.now in (r : Turn)
        → innermost_run frames.now.stand.frames ≡ Some r → mode ≡ r.mode
        → IfOk result (λ d. step_of state.now.parts d ≡ sleep_step st thread r) }
{
    if is_woken(state, thread) {
        return Ok(sleeping(alloc, state, thread, Answer::Woken, Sleep::Awake));
    }
    let date = date_of(alloc, state, thread, mode)?;
    Ok(unwoken_step(alloc, state, thread, frames.deadline(), date))
}

/// The result of a test of the innermost run.
fn test(state: &State, thread: usize, frames: &Frames) -> Option<u8>
    requires { frames.now.thread ≡ thread }
    ensures { (r : Turn) → innermost_run frames.now.stand.frames ≡ Some r
        → result ≡ test_result (facts_of (state_of state.now)) thread r }
{
    let known = state.known();
    match frames.turn(&known) {
        Some(facts) => rl_turn::result(&facts),
        None => None,
    }
}

/// The numbers of objects.
fn numbers_of(alloc: Global, objects: &[ObjId]) -> Result<Vec<u32>, NoMemory>
    ensures { IfOk result (λ v. v.items ≡ objects.now) }
{
    objects.iter().map(|object| object.0).collect(alloc)
}

/// A phase collects items of its mode.
fn collect_step(
    alloc: Global,
    state: &State,
    thread: usize,
    mode: usize,
    phase: Phase,
) -> Result<Done, NoMemory>
    ensures { let st = state_of state.now in (r : Turn) → mode ≡ r.mode
        → IfOk result (λ d. step_of state.now.parts d ≡ collect_step st thread r phase) }
{
    let items = items_in(alloc, &state.parts, state.edges.as_slice(), thread, mode)?;
    let collected = collected_of(alloc, &state.parts, phase, items.as_slice())?;
    let mut done = idle(alloc, Answer::Ok);
    done.list = numbers_of(alloc, collected.as_slice())?;
    Ok(done)
}

/// The step of a phase; only a run has phases.
fn phase_step(
    alloc: Global,
    state: &State,
    thread: usize,
    frames: &Frames,
    phase: Phase,
) -> Result<Done, NoMemory>
    requires thread { frames.now.thread ≡ thread }
    requires run { IsInRun frames.now.stand.frames }
    ensures { let kind = top_kind frames.now.stand.frames in
        IfOk result (λ d. step_of state.now.parts d ≡ phase_step (state_of state.now) thread phase kind) }
{
    let Some(mode) = frames.mode() else {
        return Ok(idle(alloc, Answer::Ok));
    };
    let mode = usize::from(mode.0);
    match phase {
        Phase::Sleep => sleep_step(alloc, state, thread, frames, mode),
        Phase::Test => Ok(idle(alloc, result_answer(test(state, thread, frames)))),
        _ => collect_step(alloc, state, thread, mode, phase),
    }
}

/// The activity of which an observer is told: that of the last note of its run.
fn activity(frames: &Frames) -> u8
    requires { IsInRun frames.now.stand.frames }
    ensures { result ≡ activity (top_kind frames.now.stand.frames) }
{
    match frames.last() {
        Some(Phase::Note(activity)) => activity,
        _ => 0,
    }
}

/// A call of an observer answers the activity, any other `ok`.
fn call_answer(frames: &Frames, callee: &Callee) -> Answer
    requires { is_observer (callee_of callee.now).role ≡ true → IsInRun frames.now.stand.frames }
    ensures { result ≡ call_answer (callee_of callee.now).role (activity (top_kind frames.now.stand.frames)) }
{
    match callee {
        Callee::Observer(_) => Answer::Number(i64::from(activity(frames))),
        _ => Answer::Ok,
    }
}

/// A callout: it has references to its item and its info, and takes a signal or a date.
fn call_step(
    alloc: Global,
    state: &State,
    thread: usize,
    frames: &Frames,
    callee: &Callee,
    info: &Option<ObjId>,
) -> Result<Done, NoMemory>
    requires { is_observer (callee_of callee.now).role ≡ true → IsInRun frames.now.stand.frames }
    ensures { let fs = frames.now.stand.frames in (c : Callout) → c.info ≡ info.now
        → IfOk result (λ d. step_of state.now.parts d
        ≡ call_step thread (length fs) (state_of state.now) (top_kind fs) (callee_of callee.now) c) }
{
    let Some(depth) = frames.depth().checked_add(1) else {
        return Err(NoMemory);
    };
    let item = callee.item();
    let enters = call_references(alloc, thread, depth, info, &item)?;
    let flow = Flow::Grows {
        enters,
        moves: Vec::new(alloc),
        to: Holder::Owed { thread },
    };
    let answer = call_answer(frames, callee);
    Ok(doing(alloc, answer, flow, fire(&state.parts, &item)))
}

/// An item that was invalidated since its handler returned is left as it is.
fn spend_step(
    alloc: Global,
    script: &Script,
    state: &State,
    thread: usize,
    item: ObjId,
) -> Result<Done, NoMemory>
    ensures { let st = state_of state.now in
        IfOk result (λ d. step_of state.now.parts d
        ≡ deal_step thread (spend_if script.now st item (thing_at st.parts item)) []) }
{
    let deal = match state.parts.thing(item) {
        Some(thing) if thing.valid => invalidate_deal(
            alloc,
            script,
            &state.parts,
            state.edges.as_slice(),
            item,
            &thing,
        )?,
        _ => Deal::answering(alloc, Answer::Ok),
    };
    deal_step(alloc, thread, deal, &[])
}

/// A reference goes from a place of the thread's parcel to a variable.
fn claim(
    alloc: Global,
    state: &State,
    thread: usize,
    depth: usize,
    place: usize,
    variable: VarId,
) -> Result<Done, NoMemory>
    ensures { let st = state_of state.now in IfOk result (λ d. step_of state.now.parts d
        ≡ claim_step st (holders.parcel thread place) (first_held (holders.parcel thread place) st.edges)
        (holders.variable thread depth variable)) }
{
    let from = Holder::Parcel { thread, place };
    let to = variable_at(thread, depth, variable);
    claim_step(alloc, state, from, to)
}

/// The variable that is packed; there is none if setup has no variable of that name.
fn packed_holder(thread: usize, depth: usize, variable: &Option<VarId>) -> Holder
    ensures { holder_of result ≡ packed_holder thread depth variable.now }
{
    match *variable {
        Some(variable) => variable_at(thread, depth, variable),
        None => Holder::Owed { thread },
    }
}

/// The object of a variable of the innermost frame, if there is a variable.
fn object_at(frames: &Frames, variable: &Option<VarId>) -> Option<ObjId>
    ensures { result ≡ object_at (bindings_of frames.now.stand.frames) variable.now }
{
    match *variable {
        Some(variable) => frames.object(variable),
        None => None,
    }
}

/// A reference of the thread goes to a place of another's parcel.
fn pack(
    alloc: Global,
    state: &State,
    thread: usize,
    depth: usize,
    frames: &Frames,
    variable: &Option<VarId>,
    to: Holder,
) -> Result<Done, NoMemory>
    ensures { let st = state_of state.now in IfOk result (λ d. step_of state.now.parts d
        ≡ pack_step thread st (packed_holder thread depth variable.now)
        (object_at (bindings_of frames.now.stand.frames) variable.now) (holder_of to)) }
{
    let from = packed_holder(thread, depth, variable);
    let object = object_at(frames, variable);
    pack_step(alloc, state, thread, from, &object, to)
}

/// The item for which the innermost frame's handler was called.
fn item_of(frames: &Frames) -> Option<ObjId>
    ensures { result ≡ kind_item (top_kind frames.now.stand.frames) }
{
    match frames.callee() {
        Some(callee) => callee.item(),
        None => None,
    }
}

/// The step of a line.
fn line_step(
    alloc: Global,
    script: &Script,
    state: &State,
    thread: usize,
    frames: &Frames,
    step: &Step,
) -> Result<Done, NoMemory>
    requires { IsLineStep script.now frames.now.stand.frames step.now }
    ensures { let st = state_of state.now in let fs = frames.now.stand.frames in
        is_line step.now ≡ true → IfOk result (λ d. step_of state.now.parts d
        ≡ step_in script.now thread st fs (demand_of step.now)) }
{
    let depth = frames.depth();
    match step {
        Step::Claims { place, variable } => claim(alloc, state, thread, depth, *place, *variable),
        Step::Packs {
            thread: other,
            place,
            variable,
        } => {
            let to = Holder::Parcel {
                thread: usize::from(other.0),
                place: *place,
            };
            pack(alloc, state, thread, depth, frames, variable, to)
        }
        Step::Says {
            statement,
            used,
            ..
        } => statement_step(
            alloc,
            script,
            thread,
            depth,
            state,
            *statement,
            &used.objects(),
        ),
        _ => Ok(idle(alloc, Answer::Ok)),
    }
}

/// The end of a callout.
fn return_of(alloc: Global, state: &State, thread: usize, frames: &Frames) -> Result<Done, NoMemory>
    ensures { let st = state_of state.now in let fs = frames.now.stand.frames in
        IfOk result (λ d. step_of state.now.parts d
        ≡ return_step thread (depth_of fs) st (top_info fs) (kind_item (top_kind fs))) }
{
    let info = frames.object(VarId(0));
    let item = item_of(frames);
    return_step(alloc, state, thread, frames.depth(), &info, &item)
}

/// The step of what a thread demands, by where it stands.
fn step_by(
    alloc: Global,
    script: &Script,
    state: &State,
    thread: usize,
    frames: &Frames,
    step: &Step,
) -> Result<Done, NoMemory>
    requires thread { frames.now.thread ≡ thread }
    requires step { IsStep script.now (facts_of (state_of state.now)) thread frames.now.stand step.now }
    ensures { let st = state_of state.now in let fs = frames.now.stand.frames in
        IfOk result (λ d. step_of state.now.parts d ≡ step_in script.now thread st fs (demand_of step.now)) }
{
    match step {
        Step::Ends => Ok(end_step(alloc, thread)),
        Step::Returns => return_of(alloc, state, thread, frames),
        Step::Owes { object, .. } => {
            let holder = Holder::Owed { thread };
            Ok(cut_step(alloc, state, thread, &holder, *object))
        }
        Step::Spends { item, .. } => spend_step(alloc, script, state, thread, *item),
        Step::Drops { body, object, .. } => Ok(drop_step(alloc, *body, *object)),
        Step::Calls { callee, info, .. } => {
            call_step(alloc, state, thread, frames, callee, &info.object())
        }
        Step::Enters(phase) => phase_step(alloc, state, thread, frames, *phase),
        Step::Closes => Ok(idle(alloc, result_answer(frames.result()))),
        _ => line_step(alloc, script, state, thread, frames, step),
    }
}

/// The step of what a thread demands.
pub fn step_of(
    alloc: Global,
    script: &Script,
    state: &State,
    thread: usize,
    step: &Step,
) -> Result<Done, NoMemory>
    requires { let st = state_of state.now in
        IsStep script.now (facts_of st) thread (stand_at thread st.stands) step.now }
    ensures { let st = state_of state.now in IfOk result (λ d. step_of state.now.parts d
        ≡ step_in script.now thread st (frames_at thread st) (demand_of step.now)) }
{
    match state.stands.get(thread) {
        Some(frames) => step_by(alloc, script, state, thread, frames, step),
        None => Err(NoMemory),
    }
}
