//! An entry after a state: whether it is legal there, and the state after it.
ghost use Rattle.std.specs.Prelude.{◌≡◌, ◌↔◌, ◌++◌, true, OnOk, IfOk};
ghost use Rattle.std.specs.Option.{option_to_list};
ghost use Rattle.cf_graph.specs.Flows.{cut_of, flowed};
ghost use Rattle.cf_ids.specs.declared.answer.Answer.TheVariants as answers;
ghost use Rattle.cf_next.specs.Advance.{advanced};
ghost use Rattle.cf_next.specs.Standing.{finals_in};
ghost use Rattle.cf_next.specs.Steps.{IsStep, StepLists, demand_of, step_cut};
ghost use Rattle.cf_model.specs.Journals.{AllowsStall, AllowsTick, IsLastIf, IsLegalEntry, IsLegalStep, MayUseAll, after_action, lead, owners_of, ticked, uses_of};
ghost use Rattle.cf_model.specs.Known.{facts_of};
ghost use Rattle.cf_model.specs.State.{stand_at, with_stand};
ghost use Rattle.cf_model.specs.Steps.{acted, demanded, finals_of, step_answer, stopped_at};
ghost use Rattle.cf_references.specs.Flows.{flow_of};
ghost use Rattle.cf_steps.specs.Doing.{step_of};
ghost use Rattle.cf_machine.specs.Entering.{GrowsByOne, HasRoom, IsDone, IsNext, entered};
ghost use Rattle.cf_state.specs.Known.{facts_in};
ghost use Rattle.cf_state.specs.Rooms.{HasNumber};
ghost use Rattle.cf_state.specs.States.{state_of};
ghost use Rattle.cf_state.specs.Updates.{updated};

use crate::coming::{next_with_place, thread_of};
use crate::left::{Left, is_told, left_by};
use crate::uses::may_use_all;
use cf_ids::{Answer, OBJECT_NUMBERS, ObjId};
use cf_model::Entry;
use cf_next::{Action, Step};
use cf_state::{Known, Parts, Stands, State, Update, has_come};
use cf_steps::{Done, step_of};
use cf_syntax::{Script, Statement};
use std::alloc::{AllocError as NoMemory, Global};

/// The thread of the lead.
const LEAD: u8 = 255;

/// Whether the numbers of a list are those that a step lists: of objects, or of a notice's registrations.
fn lists(step: &Step, list: &[u32]) -> bool
    ensures { (result ≡ true) → StepLists step.now list.now }
{
    match step {
        Step::Says {
            statement: Statement::Post { .. },
            ..
        } => true,
        _ => list
            .iter()
            .all(|number| (*number as usize) < OBJECT_NUMBERS),
    }
}

/// Moves the thread of an entry on, with the facts before the entry.
fn advance(
    stands: &mut Stands,
    known: &Known,
    script: &Script,
    entry: &Entry,
    step: &Step,
    done: &Done,
) -> Result<(), NoMemory>
    requires { let facts = facts_in known.now.parts.now known.now.edges.now in
        IsStep script.now facts entry.now.thread (stand_at entry.now.thread stands.old) step.now }
    ensures { let facts = facts_in known.now.parts.now known.now.edges.now in let t = entry.now.thread in
        OnOk result (stands.new ≡ with_stand t (advanced facts t (demand_of step.now) entry.now.answer
        (finals_in (step_cut step.now) entry.now.answer) done.now.list.items (stand_at t stands.old)) stands.old) }
{
    let list = done.list.as_slice();
    if !lists(step, list) {
        return Err(NoMemory);
    }
    stands.advance(script, known, thread_of(entry), step, &entry.answer, list)
}

/// Tells the innermost run of a thread to stop, if there is one that is to stop.
fn stop_if(stands: &mut Stands, stops: &Option<usize>) -> Result<(), NoMemory>
    ensures { OnOk result (stands.new ≡ stopped_at stops.now stands.old) }
{
    match *stops {
        Some(other) => stands.stop(other),
        None => Ok(()),
    }
}

/// Moves the thread of an entry on, with the facts before the entry, and tells a run to stop.
fn move_on(
    stands: &mut Stands,
    known: &Known,
    script: &Script,
    entry: &Entry,
    step: &Step,
    done: &Done,
) -> Result<(), NoMemory>
    requires { let facts = facts_in known.now.parts.now known.now.edges.now in
        IsStep script.now facts entry.now.thread (stand_at entry.now.thread stands.old) step.now }
    ensures { let facts = facts_in known.now.parts.now known.now.edges.now in let t = entry.now.thread in
        OnOk result (stands.new ≡ stopped_at done.now.stops (with_stand t
        (advanced facts t (demand_of step.now) entry.now.answer (finals_in (step_cut step.now) entry.now.answer)
        done.now.list.items (stand_at t stands.old)) stands.old)) }
{
    advance(stands, known, script, entry, step, done)?;
    stop_if(stands, &done.stops)
}

/// What becomes of the parts is done, and an object is finalised, if there is one.
fn change(
    alloc: Global,
    parts: &mut Parts,
    update: Update,
    last: &Option<ObjId>,
) -> Result<(), NoMemory>
    requires { HasNumber update parts.old }
    ensures { let after = updated update parts.old in OnOk result (parts.new
        ≡ record after { finalised = option_to_list last.now ++ after.finalised }) }
{
    parts.update(alloc, update)?;
    parts.finalise(last)
}

/// Moves the state on by what a step does and what it leaves.
fn go_on(
    alloc: Global,
    state: &mut State,
    script: &Script,
    entry: &Entry,
    step: &Step,
    left: Left,
) -> Result<(), NoMemory>
    requires step { let st = state_of state.old in
        IsStep script.now (facts_of st) entry.now.thread (stand_at entry.now.thread st.stands) step.now }
    requires number { HasNumber left.done.update state.old.parts }
    requires edges { left.edges.items ≡ flowed (flow_of left.done.flow) state.old.edges.items }
    requires last { option_to_list left.last ≡ finals_of (cut_of (flow_of left.done.flow)) left.edges.items }
    ensures { let st = state_of state.old in OnOk result (state_of state.new
        ≡ entered entry.now.thread step.now entry.now.answer (step_of st.parts left.done) st) }
{
    let Left { done, edges, last } = left;
    let known = Known {
        parts: &state.parts,
        edges: state.edges.as_slice(),
    };
    move_on(&mut state.stands, &known, script, entry, step, &done)?;
    change(alloc, &mut state.parts, done.update, &last)?;
    state.edges = edges;
    Ok(())
}

/// Whether an entry may use its objects, and its answer is that of what it does.
fn may_enter(state: &State, entry: &Entry, left: &Left) -> bool
    requires { left.now.edges.items ≡ flowed (flow_of left.now.done.flow) state.now.edges.items }
    ensures { let st = state_of state.now in let t = entry.now.thread in (result ≡ true)
        ↔ (MayUseAll st t (owners_of entry.now.action) (uses_of entry.now.action entry.now.answer)
        × (entry.now.answer ≡ step_answer (step_of st.parts left.now.done) st)) }
{
    if may_use_all(state, thread_of(entry), &entry.action, &entry.answer) {
        is_told(state, entry, left)
    } else {
        false
    }
}

/// Enters an entry of a thread by what its step does, if it is legal.
fn enter_left(
    alloc: Global,
    state: &mut State,
    script: &Script,
    entry: &Entry,
    step: &Step,
    left: Left,
) -> Result<bool, NoMemory>
    requires room { HasRoom state.old.parts }
    requires next { IsNext script.now (state_of state.old) entry.now step.now }
    requires done { IsDone script.now (state_of state.old) entry.now step.now left.done }
    requires edges { left.edges.items ≡ flowed (flow_of left.done.flow) state.old.edges.items }
    requires last { option_to_list left.last ≡ finals_of (cut_of (flow_of left.done.flow)) left.edges.items }
    ensures legal { IfOk result (λ legal. (legal ≡ true) ↔ IsLegalStep script.now (state_of state.old) entry.now) }
    ensures state { let st = state_of state.old in
        IfOk result (λ legal. legal ≡ true → (state_of state.new
        ≡ acted script.now entry.now.thread st (demanded script.now st entry.now.thread))
        × GrowsByOne state.old.parts state.new.parts) }
{
    if !may_enter(state, entry, &left) {
        return Ok(false);
    }
    go_on(alloc, state, script, entry, step, left)?;
    Ok(true)
}

/// Enters an entry of a thread, if it is legal. After one that is not, the state is of no use.
fn enter_step(
    alloc: Global,
    state: &mut State,
    script: &Script,
    entry: &Entry,
) -> Result<bool, NoMemory>
    requires room { HasRoom state.old.parts }
    ensures legal { IfOk result (λ legal. (legal ≡ true) ↔ IsLegalStep script.now (state_of state.old) entry.now) }
    ensures state { let st = state_of state.old in
        IfOk result (λ legal. legal ≡ true → (state_of state.new
        ≡ acted script.now entry.now.thread st (demanded script.now st entry.now.thread))
        × GrowsByOne state.old.parts state.new.parts) }
{
    let Some(step) = next_with_place(state, script, entry) else {
        return Ok(false);
    };
    let done = step_of(alloc, script, state, thread_of(entry), &step)?;
    let left = left_by(alloc, done, state.edges.as_slice())?;
    enter_left(alloc, state, script, entry, &step, left)
}

/// Enters a tick, if it is legal.
fn enter_tick(state: &mut State, script: &Script, entry: &Entry, time: u64) -> bool
    ensures legal { (result ≡ true) ↔ ((entry.now.thread ≡ lead) × (entry.now.answer ≡ answers.Ok)
        × AllowsTick script.now (state_of state.old) time) }
    ensures state { result ≡ true → (state_of state.new ≡ ticked time (state_of state.old))
        × GrowsByOne state.old.parts state.new.parts }
{
    if !may_tick(state, script, entry, time) {
        return false;
    }
    state.tick(time);
    true
}

/// Enters an entry, if it is legal. After one that is not, the state is of no use.
fn enter(alloc: Global, state: &mut State, script: &Script, entry: &Entry) -> Result<bool, NoMemory>
    requires room { HasRoom state.old.parts }
    ensures legal { IfOk result (λ legal. (legal ≡ true) ↔ IsLegalEntry script.now (state_of state.old) entry.now) }
    ensures state { IfOk result (λ legal. legal ≡ true → (state_of state.new
        ≡ after_action script.now entry.now.thread (state_of state.old) entry.now.action)
        × GrowsByOne state.old.parts state.new.parts) }
{
    match &entry.action {
        Action::Tick(time) => Ok(enter_tick(state, script, entry, *time)),
        Action::Stall => Ok(may_stall(state, script, entry)),
        _ => enter_step(alloc, state, script, entry),
    }
}

/// Enters an entry, if it is legal and, as a stall, the last. After one that is not, the state is of no use.
pub(crate) fn enter_before(
    alloc: Global,
    state: &mut State,
    script: &Script,
    entry: &Entry,
    others: &[Entry],
) -> Result<bool, NoMemory>
    requires room { HasRoom state.old.parts }
    ensures legal { IfOk result (λ legal. (legal ≡ true)
        ↔ (IsLegalEntry script.now (state_of state.old) entry.now × IsLastIf entry.now.action others.now)) }
    ensures state { IfOk result (λ legal. legal ≡ true → (state_of state.new
        ≡ after_action script.now entry.now.thread (state_of state.old) entry.now.action)
        × GrowsByOne state.old.parts state.new.parts) }
{
    if !may_come_before(entry, others) {
        return Ok(false);
    }
    enter(alloc, state, script, entry)
}

/// Whether an entry is the last, if it is a stall.
fn may_come_before(entry: &Entry, others: &[Entry]) -> bool
    ensures { (result ≡ true) ↔ IsLastIf entry.now.action others.now }
{
    match entry.action {
        Action::Stall => others.is_empty(),
        _ => true,
    }
}

/// Whether an entry is the lead's, answers `ok`, and a tick to a time may come.
fn may_tick(state: &State, script: &Script, entry: &Entry, time: u64) -> bool
    ensures { (result ≡ true) ↔ ((entry.now.thread ≡ lead) × (entry.now.answer ≡ answers.Ok)
        × AllowsTick script.now (state_of state.now) time) }
{
    is_of_lead(entry) && state.all_sleep(script) && has_come(&state.due_date(script), time)
}

/// Whether an entry is the lead's, answers `ok`, and a stall may come.
fn may_stall(state: &State, script: &Script, entry: &Entry) -> bool
    ensures { (result ≡ true) ↔ ((entry.now.thread ≡ lead) × (entry.now.answer ≡ answers.Ok)
        × AllowsStall script.now (state_of state.now)) }
{
    is_of_lead(entry) && state.all_sleep(script) && state.due_date(script).is_none()
}

/// Whether an entry is the lead's, and answers `ok`.
fn is_of_lead(entry: &Entry) -> bool
    ensures { (result ≡ true) ↔ ((entry.now.thread ≡ lead) × (entry.now.answer ≡ answers.Ok)) }
{
    entry.thread.0 == LEAD && matches!(entry.answer, Answer::Ok)
}
