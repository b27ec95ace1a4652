//! What statements over run loops need before they are said.
ghost use Rattle.std.specs.Prelude.{◌≡◌, ℕ, ◌<◌, ◌≤◌, List, Option, length, true, IfSome, OnOk, OnErr};
ghost use Rattle.cf_syntax.specs.Mentions.{first_of};
ghost use Rattle.cf_syntax.specs.Numbered.{NamesThread};
ghost use Rattle.cf_model.specs.Deals.{add_deal, drop_deal, invalidate_deal, place_in, thread_in, with_thing};
ghost use Rattle.cf_loops.specs.Following.{AreLoops, InStates};
ghost use Rattle.cf_scene.specs.Needs.{AtMost, FitsCommon, HasPlaceFor, MovesAtMost, acts_on_loops, placing};

use cf_ids::{ObjId, ThreadId};
use cf_loops::Loops;
use cf_syntax::{ModeWord, Statement, ThreadWord};
use rl_base::Place;
use std::alloc::AllocError as NoMemory;

/// Whether a statement acts on run loops: on their places, on items, or on the runs and sleeps of threads.
pub fn acts_on_loops(statement: &Statement) -> bool
    ensures { result ≡ acts_on_loops statement.now }
{
    matches!(
        statement,
        Statement::Add { .. }
            | Statement::Drop { .. }
            | Statement::Common { .. }
            | Statement::Signal { .. }
            | Statement::Invalidate { .. }
            | Statement::Wake { .. }
            | Statement::Stop { .. }
            | Statement::Run { .. }
    )
}

/// The thread that a word names where a thread says it, if there is one.
pub fn thread_of(t: ThreadId, word: &ThreadWord) -> Option<ThreadId>
    ensures { result ≡ thread_in t word.now }
{
    match word {
        ThreadWord::Own => Some(t),
        ThreadWord::Named(thread) => *thread,
    }
}

/// The place of a loop that a word names.
pub(crate) fn place_of(word: &ModeWord) -> Place
    ensures { result ≡ place_in word.now }
{
    match word {
        ModeWord::Common => Place::Common,
        ModeWord::Mode(mode) => Place::Mode(*mode),
    }
}

/// Makes room in the loop that a statement of a thread names for what it adds. `NoMemory` comes only for want of memory,
/// and changes nothing.
pub fn reserve_places(loops: &mut Loops, t: ThreadId, statement: &Statement) -> Result<(), NoMemory>
    requires thread { t < length loops.old }
    requires named { NamesThread (length loops.old) statement.now }
    ensures kept { InStates loops.old (λ s st. AreLoops s st.parts st.edges loops.new) }
    ensures room { OnOk result (HasPlaceFor t loops.new statement.now) }
    ensures refused { OnErr result (loops.new ≡ loops.old) }
{
    match statement {
        Statement::Add { thread, mode, .. } => match thread_of(t, thread) {
            Some(thread) => loops.reserve_add(thread, &place_of(mode)),
            None => Ok(()),
        },
        Statement::Common { thread, .. } => match thread_of(t, thread) {
            Some(thread) => loops.reserve_common(thread),
            None => Ok(()),
        },
        _ => Ok(()),
    }
}

/// How many references a statement over run loops moves at most, which a thread says of an object, if its variable has
/// one. It takes time that grows with the places and items that it counts.
pub fn most_moved(loops: &Loops, t: ThreadId, object: Option<ObjId>, statement: &Statement) -> usize
    requires threads { length loops.now ≤ 64 }
    requires thread { t < length loops.now }
    requires named { NamesThread (length loops.now) statement.now }
    ensures { InStates loops.now (λ s st. (used : List (Option ℕ)) → acts_on_loops statement.now ≡ true
        → first_of used ≡ object → MovesAtMost s t st statement.now used result) }
{
    match statement {
        Statement::Add { thread, mode, .. } => {
            most_added(loops, object, thread_of(t, thread), &place_of(mode))
        }
        Statement::Drop { thread, mode, .. } => {
            most_dropped(loops, object, thread_of(t, thread), &place_of(mode))
        }
        Statement::Common { thread, .. } => most_gained(loops, thread_of(t, thread)),
        Statement::Invalidate { .. } => most_left(loops, object),
        _ => 0,
    }
}

/// How many references to an item come into a place of a thread's loop at most, if there are both.
fn most_added(loops: &Loops, item: Option<ObjId>, thread: Option<ThreadId>, place: &Place) -> usize
    requires { IfSome thread (λ w. w < length loops.now) }
    ensures { InStates loops.now (λ s st. AtMost result (placing st.parts item thread (λ w. add_deal s st w place.now))) }
{
    let Some(item) = item else {
        return 0;
    };
    match thread {
        Some(thread) => loops.added(thread, place, item),
        None => 0,
    }
}

/// How many references to an item go out of a place of a thread's loop at most, if there are both.
fn most_dropped(
    loops: &Loops,
    item: Option<ObjId>,
    thread: Option<ThreadId>,
    place: &Place,
) -> usize
    requires { IfSome thread (λ w. w < length loops.now) }
    ensures { InStates loops.now (λ s st.
        AtMost result (placing st.parts item thread (λ w i x. drop_deal s st w place.now i))) }
{
    let Some(item) = item else {
        return 0;
    };
    match thread {
        Some(thread) => loops.dropped(thread, place, item),
        None => 0,
    }
}

/// How many references a mode of a thread's loop gains at most that becomes a common one.
fn most_gained(loops: &Loops, thread: Option<ThreadId>) -> usize
    ensures { InStates loops.now (λ s st. FitsCommon st thread result) }
{
    match thread {
        Some(thread) => loops.common_items(thread).len(),
        None => 0,
    }
}

/// How many places an item leaves at most that is invalidated, if there is one.
fn most_left(loops: &Loops, item: Option<ObjId>) -> usize
    requires { length loops.now ≤ 64 }
    ensures { InStates loops.now (λ s st. AtMost result (with_thing st.parts item (invalidate_deal s st))) }
{
    match item {
        Some(item) => loops.everywhere(item),
        None => 0,
    }
}
