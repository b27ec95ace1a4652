//! The deal of a statement.
ghost use Rattle.std.specs.Prelude.{◌≡◌, pos, length, slice_get, Some, IfOk};
ghost use Rattle.cf_ids.specs.declared.answer.Answer.TheVariants as answers;
ghost use Rattle.cf_contents.specs.Deeds.{deed_at};
ghost use Rattle.cf_plain.specs.Deeds.{deed_of as deed_view};
ghost use Rattle.cf_plain.specs.Views.{change_of};
ghost use Rattle.cf_model.specs.Deals.{add_deal, answering, change_deal, change_unless_skipped, common_deal, deal_of as deal_in, drop_deal, forget_deal, invalidate_deal, live_receivers, observe_deal, okay, place_in, posts_of, signal_deal, stop_deal, wake_parts, with_filter, with_thing, with_used};
ghost use Rattle.cf_model.specs.State.{Parts as Kept, stand_at};
ghost use Rattle.cf_next.specs.Stands.{has_run};
ghost use Rattle.cf_syntax.specs.Mentions.{first_of, used_at};
ghost use Rattle.cf_state.specs.Known.{bare};
ghost use Rattle.cf_state.specs.States.{state_of};
ghost use Rattle.cf_deals.specs.Deals.{deal_of, filter_in};

use crate::deal::{
    Deal, held_by_all, observe_deal, run_deal, signal_deal, thread_in, wake, wake_deal,
};
use crate::loops::{add_deal, common_deal, drop_deal, invalidate_deal};
use crate::notices::{forget_deal, live_receivers};
use crate::places::place_in;
use cf_ids::{Answer, HandlerId, ModeId, NameId, ObjId, VarId};
use cf_plain::{Change, Deed, Found, Object, coming_in, deed_by, going_out, see};
use cf_references::{Holder, Reference};
use cf_state::{Parts, State, Update};
use cf_syntax::{ModeWord, Script, Statement};
use std::alloc::{AllocError as NoMemory, Global};

/// A change of a body that is there.
fn changing(
    alloc: Global,
    answer: Answer,
    number: ObjId,
    object: &Object,
    change: Change,
) -> Result<Deal, NoMemory>
    ensures { (p : Kept) → slice_get p.objects number ≡ Some object.now
        → IfOk result (λ d. deal_of p d ≡ change_deal p answer (Some number) (change_of change)) }
{
    let body = number.0 as usize;
    let entering = coming_in(alloc, &change, object.content())?;
    let leaving = going_out(alloc, &change, object.content())?;
    let enters = held_by_all(alloc, &Holder::Slot { body }, entering.as_slice())?;
    let leaves = held_by_all(alloc, &Holder::Slot { body }, leaving.as_slice())?;
    let update = Update::Change {
        object: number,
        change,
    };
    Ok(Deal {
        answer,
        update,
        enters,
        leaves,
        stops: None,
    })
}

/// A change of a body: it takes in what comes, and gives out what goes.
fn change_body(
    alloc: Global,
    parts: &Parts,
    body: &Option<ObjId>,
    answer: Answer,
    change: Change,
) -> Result<Deal, NoMemory>
    ensures { IfOk result (λ d. deal_of parts.now d ≡ change_deal parts.now answer body.now (change_of change)) }
{
    let Some(number) = *body else {
        return Ok(Deal::answering(alloc, answer));
    };
    match parts.object(number) {
        Some(object) => changing(alloc, answer, number, object, change),
        None => Ok(Deal::answering(alloc, answer)),
    }
}

/// The same of a deed; a statement that is skipped changes nothing.
fn change_by(
    alloc: Global,
    parts: &Parts,
    body: &Option<ObjId>,
    deed: Deed,
) -> Result<Deal, NoMemory>
    ensures { let said = deed_view deed in IfOk result (λ d. deal_of parts.now d
        ≡ change_deal parts.now said.answer body.now (change_unless_skipped said.answer said.change)) }
{
    let Deed { answer, change, .. } = deed;
    match answer {
        Answer::Skip => Ok(Deal::skipping(alloc)),
        _ => change_body(alloc, parts, body, answer, change),
    }
}

/// Whether some frame of a thread is of a run.
fn runs(state: &State, thread: usize) -> bool
    ensures { result ≡ has_run (stand_at thread (state_of state.now).stands).frames }
{
    match state.stands.get(thread) {
        Some(frames) => frames.mode().is_some(),
        None => false,
    }
}

/// The innermost run of a thread is told to stop, and its loop is woken; a thread without one is idle.
fn stop_deal(alloc: Global, state: &State, thread: usize) -> Deal
    ensures { deal_of state.now.parts result ≡ stop_deal (state_of state.now) thread }
{
    if runs(state, thread) {
        Deal {
            answer: Answer::Ok,
            update: wake(&state.parts, thread),
            enters: Vec::new(alloc),
            leaves: Vec::new(alloc),
            stops: Some(thread),
        }
    } else {
        Deal::answering(alloc, Answer::Idle)
    }
}

/// The item of a variable is added to a place of a thread's loop.
fn add(
    alloc: Global,
    script: &Script,
    parts: &Parts,
    edges: &[Reference],
    thread: &Option<usize>,
    mode: &ModeWord,
    item: &Option<ObjId>,
) -> Result<Deal, NoMemory>
    ensures { let st = bare parts.now edges.now in IfOk result (λ d. deal_of parts.now d
        ≡ with_thing parts.now item.now
        (λ i x. with_used parts.now thread.now (λ w. add_deal script.now st w (place_in mode.now) i x))) }
{
    let Some(item) = *item else {
        return Ok(Deal::skipping(alloc));
    };
    let Some(thing) = parts.thing(item) else {
        return Ok(Deal::skipping(alloc));
    };
    match *thread {
        Some(thread) => add_deal(
            alloc,
            script,
            parts,
            edges,
            thread,
            &place_in(mode),
            item,
            &thing,
        ),
        None => Ok(Deal::skipping(alloc)),
    }
}

/// The item of a variable is dropped from a place of a thread's loop.
fn drop_item(
    alloc: Global,
    script: &Script,
    parts: &Parts,
    edges: &[Reference],
    thread: &Option<usize>,
    mode: &ModeWord,
    item: &Option<ObjId>,
) -> Result<Deal, NoMemory>
    ensures { let st = bare parts.now edges.now in IfOk result (λ d. deal_of parts.now d
        ≡ with_thing parts.now item.now
        (λ i x. with_used parts.now thread.now (λ w. drop_deal script.now st w (place_in mode.now) i))) }
{
    let Some(item) = *item else {
        return Ok(Deal::skipping(alloc));
    };
    let Some(_) = parts.thing(item) else {
        return Ok(Deal::skipping(alloc));
    };
    match *thread {
        Some(thread) => drop_deal(alloc, script, parts, edges, thread, &place_in(mode), item),
        None => Ok(Deal::skipping(alloc)),
    }
}

/// A mode becomes a common one of a thread's loop.
fn common(
    alloc: Global,
    parts: &Parts,
    edges: &[Reference],
    thread: &Option<usize>,
    mode: ModeId,
) -> Result<Deal, NoMemory>
    ensures { let st = bare parts.now edges.now in IfOk result (λ d. deal_of parts.now d
        ≡ with_used parts.now thread.now (λ w. common_deal st w mode)) }
{
    match *thread {
        Some(thread) => common_deal(alloc, parts, edges, thread, mode),
        None => Ok(Deal::skipping(alloc)),
    }
}

/// The item of a variable is signalled.
fn signal(alloc: Global, parts: &Parts, item: &Option<ObjId>) -> Deal
    ensures { deal_of parts.now result
        ≡ with_thing parts.now item.now (λ i x. signal_deal parts.now i x.valid x.item) }
{
    let Some(item) = *item else {
        return Deal::skipping(alloc);
    };
    match parts.thing(item) {
        Some(thing) => signal_deal(alloc, item, &thing),
        None => Deal::skipping(alloc),
    }
}

/// The item of a variable is invalidated.
fn invalidate(
    alloc: Global,
    script: &Script,
    parts: &Parts,
    edges: &[Reference],
    item: &Option<ObjId>,
) -> Result<Deal, NoMemory>
    ensures { IfOk result (λ d. deal_of parts.now d
        ≡ with_thing parts.now item.now (invalidate_deal script.now (bare parts.now edges.now))) }
{
    let Some(item) = *item else {
        return Ok(Deal::skipping(alloc));
    };
    match parts.thing(item) {
        Some(thing) => invalidate_deal(alloc, script, parts, edges, item, &thing),
        None => Ok(Deal::skipping(alloc)),
    }
}

/// A thread is woken.
fn wake_thread(alloc: Global, parts: &Parts, thread: &Option<usize>) -> Deal
    ensures { deal_of parts.now result ≡ with_used parts.now thread.now (λ w. okay (wake_parts parts.now w)) }
{
    match *thread {
        Some(thread) => wake_deal(alloc, parts, thread),
        None => Deal::skipping(alloc),
    }
}

/// The innermost run of a thread is told to stop.
fn stop(alloc: Global, state: &State, thread: &Option<usize>) -> Deal
    ensures { deal_of state.now.parts result
        ≡ with_used state.now.parts thread.now (stop_deal (state_of state.now)) }
{
    match *thread {
        Some(thread) => stop_deal(alloc, state, thread),
        None => Deal::skipping(alloc),
    }
}

/// The object of a variable becomes an observer of notices.
fn observe(
    alloc: Global,
    handler: HandlerId,
    name: &Option<NameId>,
    filter: &Option<VarId>,
    observer: &Option<ObjId>,
    object: &Option<ObjId>,
) -> Deal
    ensures { (p : Kept) → deal_of p result ≡ with_used p observer.now
        (λ o. with_filter p filter.now object.now (observe_deal p handler name.now o)) }
{
    let Some(observer) = *observer else {
        return Deal::skipping(alloc);
    };
    if filter.is_some() && object.is_none() {
        return Deal::skipping(alloc);
    }
    observe_deal(alloc, handler, *name, observer, filter_of(filter, object))
}

/// Registrations of the object of a variable are forgotten.
fn forget(
    alloc: Global,
    parts: &Parts,
    name: &Option<NameId>,
    filter: &Option<VarId>,
    observer: &Option<ObjId>,
    object: &Option<ObjId>,
) -> Deal
    ensures { deal_of parts.now result ≡ with_used parts.now observer.now
        (λ o. with_filter parts.now filter.now object.now (forget_deal parts.now name.now o)) }
{
    let Some(observer) = *observer else {
        return Deal::skipping(alloc);
    };
    if filter.is_some() && object.is_none() {
        return Deal::skipping(alloc);
    }
    forget_deal(alloc, parts, name, observer, &filter_of(filter, object))
}

/// The filter object of a registration, if a line names a filter.
fn filter_of(filter: &Option<VarId>, object: &Option<ObjId>) -> Option<ObjId>
    ensures { result ≡ filter_in filter.now object.now }
{
    match *filter {
        Some(_) => *object,
        None => None,
    }
}

/// A notice is posted.
fn post(
    alloc: Global,
    parts: &Parts,
    name: NameId,
    object: &Option<ObjId>,
) -> Result<Deal, NoMemory>
    ensures { IfOk result (λ d. deal_of parts.now d
        ≡ answering parts.now (answers.Number (pos (length (live_receivers parts.now name object.now))))) }
{
    let receivers = live_receivers(alloc, parts, name, object)?;
    Ok(Deal::answering(alloc, Answer::Number(receivers.len() as i64)))
}

/// The first object that a statement uses.
pub fn first_of(used: &[Option<ObjId>; 3]) -> Option<ObjId>
    ensures { result ≡ first_of used.now }
{
    used[0]
}

/// The second one.
fn second_of(used: &[Option<ObjId>; 3]) -> Option<ObjId>
    ensures { result ≡ used_at used.now 1 }
{
    used[1]
}

/// The third one.
fn third_of(used: &[Option<ObjId>; 3]) -> Option<ObjId>
    ensures { result ≡ used_at used.now 2 }
{
    used[2]
}

/// The deal of a statement, by the objects that it uses.
pub fn deal_of(
    alloc: Global,
    script: &Script,
    thread: usize,
    state: &State,
    statement: &Statement,
    used: &[Option<ObjId>; 3],
) -> Result<Deal, NoMemory>
    ensures { let deal = deal_in script.now thread (state_of state.now) statement.now used.now in
        IfOk result (λ d. deal_of state.now.parts d ≡ deal) }
{
    let parts = &state.parts;
    let edges = state.edges.as_slice();
    let first = first_of(used);
    let second = second_of(used);
    match statement {
        Statement::Add {
            thread: word,
            mode,
            ..
        } => add(
            alloc,
            script,
            parts,
            edges,
            &thread_in(thread, word),
            mode,
            &first,
        ),
        Statement::Drop {
            thread: word,
            mode,
            ..
        } => drop_item(
            alloc,
            script,
            parts,
            edges,
            &thread_in(thread, word),
            mode,
            &first,
        ),
        Statement::Common { thread: word, mode } => {
            common(alloc, parts, edges, &thread_in(thread, word), *mode)
        }
        Statement::Signal { .. } => Ok(signal(alloc, parts, &first)),
        Statement::Invalidate { .. } => invalidate(alloc, script, parts, edges, &first),
        Statement::Wake { thread: word } => Ok(wake_thread(alloc, parts, &thread_in(thread, word))),
        Statement::Stop { thread: word } => Ok(stop(alloc, state, &thread_in(thread, word))),
        Statement::Run { mode, .. } => {
            Ok(run_deal(alloc, parts, edges, thread, usize::from(mode.0)))
        }
        Statement::Observe {
            handler,
            name,
            filter,
            ..
        } => Ok(observe(alloc, *handler, name, filter, &first, &second)),
        Statement::Forget { name, filter, .. } => {
            Ok(forget(alloc, parts, name, filter, &first, &second))
        }
        Statement::Post { name, .. } => post(alloc, parts, *name, &first),
        _ => {
            let deed = deed_at(alloc, script, parts, statement, used)?;
            change_by(alloc, parts, &first, deed)
        }
    }
}

/// What a statement posts to.
pub fn posts_of(
    alloc: Global,
    parts: &Parts,
    statement: &Statement,
    used: &[Option<ObjId>; 3],
) -> Result<Vec<u32>, NoMemory>
    ensures { IfOk result (λ v. v.items ≡ posts_of parts.now statement.now used.now) }
{
    let first = first_of(used);
    match statement {
        Statement::Post { name, .. } => live_receivers(alloc, parts, *name, &first),
        _ => Ok(Vec::new(alloc)),
    }
}

/// The deed of a statement among objects, by the numbers of those that it uses.
pub fn deed_at(
    alloc: Global,
    script: &Script,
    parts: &Parts,
    statement: &Statement,
    used: &[Option<ObjId>; 3],
) -> Result<Deed, NoMemory>
    ensures { let deed = deed_at script.now.classes parts.now.objects statement.now used.now in
        IfOk result (λ d. deed_view d ≡ deed) }
{
    let objects = parts.objects.as_slice();
    let found = Found {
        first: see(objects, first_of(used)),
        second: see(objects, second_of(used)),
        third: see(objects, third_of(used)),
    };
    deed_by(alloc, script.classes(), statement, &found)
}
