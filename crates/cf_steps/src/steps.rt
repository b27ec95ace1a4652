//! What each demand of a thread does, as data.
ghost use Rattle.std.specs.Prelude.{◌≡◌, [], map, None, IfOk};
ghost use Rattle.rl_base.specs.Dates.{date_after};
ghost use Rattle.cf_plain.specs.Views.{item_of};
ghost use Rattle.cf_ids.specs.declared.answer.Answer.TheVariants as answers;
ghost use Rattle.cf_graph.specs.Edges.{Reference as Held};
ghost use Rattle.cf_graph.specs.Flows.{grows, still};
ghost use Rattle.cf_model.specs.Own.{moves_to, own_reference, own_references};
ghost use Rattle.cf_model.specs.Steps.{call_references, claim_step, cut_step, deal_step, drop_step, end_step, fire_if, fired, pack_step, release_step, result_answer, retain_step, return_step};
ghost use Rattle.cf_references.specs.Flows.{flow_of};
ghost use Rattle.cf_references.specs.Views.{holder_of};
ghost use Rattle.cf_deals.specs.Deals.{deal_of};
ghost use Rattle.cf_steps.specs.Doing.{step_of};
ghost use Rattle.cf_state.specs.Updates.{updated};
ghost use Rattle.cf_state.specs.States.{state_of};
ghost use Rattle.cf_model.specs.State.{Parts as Kept, State as Whole, first_held};

use crate::done::Done;
use cf_deals::{Deal, held_if};
use cf_ids::{Answer, ObjId};
use cf_plain::{Change, Item};
use cf_references::{Flow, Holder, Reference, first_held, own_reference, own_references};
use cf_state::{Parts, State, Update};
use std::alloc::{AllocError as NoMemory, Global};

/// A step that answers, and changes references and parts.
pub(crate) fn doing(alloc: Global, answer: Answer, flow: Flow, update: Update) -> Done
    ensures { (p : Kept) → step_of p result
        ≡ record { answer = answer; flow = flow_of flow; parts = updated update p; list = []; stops = None } }
{
    Done {
        answer,
        flow,
        update,
        list: Vec::new(alloc),
        stops: None,
    }
}

/// A step that answers and changes references alone.
fn flowing(alloc: Global, answer: Answer, flow: Flow) -> Done
    ensures { (p : Kept) → step_of p result
        ≡ record { answer = answer; flow = flow_of flow; parts = p; list = []; stops = None } }
{
    doing(alloc, answer, flow, Update::Nothing)
}

/// A step that answers and changes parts alone.
pub(crate) fn updating(alloc: Global, answer: Answer, update: Update) -> Done
    ensures { (p : Kept) → step_of p result
        ≡ record { answer = answer; flow = still; parts = updated update p; list = []; stops = None } }
{
    doing(alloc, answer, Flow::still(alloc), update)
}

/// A step that changes nothing but where its thread stands.
pub(crate) fn idle(alloc: Global, answer: Answer) -> Done
    ensures { (p : Kept) → step_of p result
        ≡ record { answer = answer; flow = still; parts = p; list = []; stops = None } }
{
    updating(alloc, answer, Update::Nothing)
}

/// The object of a variable gets a reference more.
pub(crate) fn retain_step(
    alloc: Global,
    holder: Holder,
    object: &Option<ObjId>,
) -> Result<Done, NoMemory>
    ensures { IfOk result (λ d. (st : Whole) → step_of st.parts d ≡ retain_step (holder_of holder) st object.now) }
{
    let Some(object) = *object else {
        return Ok(idle(alloc, Answer::Skip));
    };
    let enters = vec![in alloc; Reference::new(holder, object)]?;
    let flow = Flow::Grows {
        enters,
        moves: Vec::new(alloc),
        to: holder,
    };
    Ok(flowing(alloc, Answer::Ok, flow))
}

/// The holder's own reference to an object, or else the first that the thread has.
fn own_of(state: &State, thread: usize, holder: &Holder, object: ObjId) -> Option<Reference>
    ensures { result ≡ own_reference thread (holder_of holder.now) object state.now.edges.items }
{
    own_reference(thread, holder, object, state.edges.as_slice())
}

/// The same for several, one after another.
fn all_own(
    alloc: Global,
    state: &State,
    thread: usize,
    wanted: &[Reference],
) -> Result<Vec<Reference>, NoMemory>
    ensures { IfOk result (λ v. v.items ≡ own_references thread wanted.now state.now.edges.items) }
{
    own_references(alloc, thread, wanted, state.edges.as_slice())
}

/// The object that a holder has, the first of its references if it has several.
fn first_of(state: &State, holder: &Holder) -> Option<ObjId>
    ensures { result ≡ first_held (holder_of holder.now) state.now.edges.items }
{
    first_held(holder, state.edges.as_slice())
}

/// One of the thread's references to an object is taken away; nothing is if it has none.
pub(crate) fn cut_step(
    alloc: Global,
    state: &State,
    thread: usize,
    holder: &Holder,
    object: ObjId,
) -> Done
    ensures { step_of state.now.parts result ≡ cut_step thread (holder_of holder.now) (state_of state.now) object }
{
    match own_of(state, thread, holder, object) {
        Some(reference) => flowing(alloc, Answer::Ok, Flow::Shrinks(reference)),
        None => idle(alloc, Answer::Ok),
    }
}

/// The object of a variable loses a reference of the thread.
pub(crate) fn release_step(
    alloc: Global,
    state: &State,
    thread: usize,
    holder: &Holder,
    object: &Option<ObjId>,
) -> Done
    ensures { let st = state_of state.now in
        step_of state.now.parts result ≡ release_step thread (holder_of holder.now) st object.now }
{
    match *object {
        Some(object) => cut_step(alloc, state, thread, holder, object),
        None => idle(alloc, Answer::Skip),
    }
}

/// References of the thread go to a holder.
fn moving(alloc: Global, moves: Vec<Reference>, to: Holder) -> Done
    ensures { (p : Kept) → step_of p result ≡ record {
      answer = answers.Ok;
      flow = grows [] (moves_to (holder_of to) moves.items);
      parts = p;
      list = [];
      stops = None;
    } }
{
    let flow = Flow::Grows {
        enters: Vec::new(alloc),
        moves,
        to,
    };
    flowing(alloc, Answer::Ok, flow)
}

/// A reference goes from a place of the thread's parcel to a variable.
pub(crate) fn claim_step(
    alloc: Global,
    state: &State,
    from: Holder,
    to: Holder,
) -> Result<Done, NoMemory>
    ensures { let st = state_of state.now in let object = first_held (holder_of from) st.edges in
        IfOk result (λ d. step_of state.now.parts d ≡ claim_step st (holder_of from) object (holder_of to)) }
{
    match first_of(state, &from) {
        Some(object) => {
            let moves = vec![in alloc; Reference::new(from, object)]?;
            Ok(moving(alloc, moves, to))
        }
        None => Ok(idle(alloc, Answer::Skip)),
    }
}

/// A reference of the thread goes to a place of another's parcel.
pub(crate) fn pack_step(
    alloc: Global,
    state: &State,
    thread: usize,
    from: Holder,
    object: &Option<ObjId>,
    to: Holder,
) -> Result<Done, NoMemory>
    ensures { let st = state_of state.now in IfOk result (λ d. step_of state.now.parts d
        ≡ pack_step thread st (holder_of from) object.now (holder_of to)) }
{
    let Some(object) = *object else {
        return Ok(idle(alloc, Answer::Skip));
    };
    let wanted = vec![in alloc; Reference::new(from, object)]?;
    let moves = all_own(alloc, state, thread, wanted.as_slice())?;
    Ok(moving(alloc, moves, to))
}

/// The end of a block: that of setup starts all threads.
pub(crate) fn end_step(alloc: Global, thread: usize) -> Done
    ensures { (st : Whole) → step_of st.parts result ≡ end_step thread st }
{
    if thread == 0 {
        updating(alloc, Answer::Ok, Update::Start)
    } else {
        idle(alloc, Answer::Ok)
    }
}

/// The references of a callout: one to its info and one to its item.
pub(crate) fn call_references(
    alloc: Global,
    thread: usize,
    depth: usize,
    info: &Option<ObjId>,
    item: &Option<ObjId>,
) -> Result<Vec<Reference>, NoMemory>
    ensures { IfOk result (λ v. v.items ≡ call_references thread depth info.now item.now) }
{
    let variable = Holder::Variable {
        thread,
        depth,
        variable: 0,
    };
    let mut references = held_if(alloc, &variable, info)?;
    let mut other = held_if(alloc, &Holder::Callout { thread, depth }, item)?;
    references.append(&mut other)?;
    Ok(references)
}

/// The end of a callout: the thread owes the releases of its item and its info.
pub(crate) fn return_step(
    alloc: Global,
    state: &State,
    thread: usize,
    depth: usize,
    info: &Option<ObjId>,
    item: &Option<ObjId>,
) -> Result<Done, NoMemory>
    ensures { let st = state_of state.now in
        IfOk result (λ d. step_of state.now.parts d ≡ return_step thread depth st info.now item.now) }
{
    let wanted = call_references(alloc, thread, depth, info, item)?;
    let moves = all_own(alloc, state, thread, wanted.as_slice())?;
    Ok(moving(alloc, moves, Holder::Owed { thread }))
}

/// A body gives up a slot, once it is finalised.
pub(crate) fn drop_step(alloc: Global, body: ObjId, object: ObjId) -> Done
    ensures { (st : Whole) → step_of st.parts result ≡ drop_step st body object }
{
    let holder = Holder::Slot {
        body: body.0 as usize,
    };
    let flow = Flow::Shrinks(Reference::new(holder, object));
    doing(alloc, Answer::Ok, flow, Update::Drop(body))
}

/// The numbers of the objects to which references lead.
fn objects_of(alloc: Global, references: &[Reference]) -> Result<Vec<u32>, NoMemory>
    ensures { IfOk result (λ v. v.items ≡ map (λ (r : Held). r.object) references.now) }
{
    let mut numbers = Vec::new(alloc);
    for reference in references {
        numbers.push(reference.object().0)?;
    }
    Ok(numbers)
}

/// The step of a deal: what leaves a body or a loop goes to the thread, which owes its release.
pub(crate) fn deal_step(
    alloc: Global,
    thread: usize,
    deal: Deal,
    posts: &[u32],
) -> Result<Done, NoMemory>
    ensures { IfOk result (λ d. (p : Kept) → step_of p d ≡ deal_step thread (deal_of p deal) posts.now) }
{
    let Deal {
        answer,
        update,
        enters,
        leaves,
        stops,
    } = deal;
    let mut list = objects_of(alloc, leaves.as_slice())?;
    list.extend_from_slice(posts)?;
    Ok(Done {
        answer,
        flow: Flow::Grows {
            enters,
            moves: leaves,
            to: Holder::Owed { thread },
        },
        update,
        list,
        stops,
    })
}

/// The date of a timer after a call at a time.
fn date_after(first: u64, interval: u64, now: u64) -> Option<u64>
    ensures { result ≡ date_after first interval now }
{
    if interval == 0 {
        return None;
    }
    let first = u128::from(first);
    let interval = u128::from(interval);
    let now = u128::from(now);
    let passed = (now + interval).saturating_sub(first);
    let date = first + passed / interval * interval;
    if date < 1 << 64 {
        Some(date as u64)
    } else {
        None
    }
}

/// A callout takes a source's signal, and gives a timer its next date.
fn fired(time: u64, item: &Item) -> Item
    ensures { item_of result ≡ fired time (item_of item.now) }
{
    match item {
        Item::Source { order, .. } => Item::Source {
            order: *order,
            signalled: false,
        },
        Item::Timer {
            first,
            interval,
            ..
        } => Item::Timer {
            first: *first,
            interval: *interval,
            date: date_after(*first, *interval, time),
        },
        Item::Observer { .. } => *item,
    }
}

/// What becomes of the parts as an item is called.
pub(crate) fn fire(parts: &Parts, item: &Option<ObjId>) -> Update
    ensures { updated result parts.now ≡ fire_if parts.now item.now }
{
    let Some(number) = *item else {
        return Update::Nothing;
    };
    match parts.thing(number) {
        Some(thing) => Update::Change {
            object: number,
            change: Change::Item {
                valid: thing.valid,
                item: fired(parts.time, &thing.item),
            },
        },
        None => Update::Nothing,
    }
}

/// The answer of a test: its result, or `again` if there is none.
pub(crate) fn result_answer(found: Option<u8>) -> Answer
    ensures { result ≡ result_answer found }
{
    match found {
        Some(number) => Answer::Number(i64::from(number)),
        None => Answer::Again,
    }
}
