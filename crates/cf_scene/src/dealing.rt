//! What statements over run loops do to a scene.
ghost use Rattle.std.specs.Prelude.{◌≡◌, ℕ, ◌<◌, ◌≤◌, List, Option, length, true, IfSome};
ghost use Rattle.rl_base.specs.Modes.{rank};
ghost use Rattle.cf_syntax.specs.Mentions.{first_of};
ghost use Rattle.cf_syntax.specs.Numbered.{NamesMode, NamesThread};
ghost use Rattle.cf_next.specs.Stands.{has_run};
ghost use Rattle.cf_model.specs.State.{Parts, State, stand_at};
ghost use Rattle.cf_model.specs.Deals.{add_deal, common_deal, deal_of, drop_deal, invalidate_deal, okay, place_in, signal_deal, stop_deal, thread_in, wake_parts, with_thing, with_used};
ghost use Rattle.cf_loops.specs.Following.{AfterDeal, InStates};
ghost use Rattle.cf_loops.specs.Rooms.{most_added, most_gained};
ghost use Rattle.cf_scene.specs.Acts.{IsDealt, TellsRun};
ghost use Rattle.cf_scene.specs.Dealing.{IsDone};
ghost use Rattle.cf_scene.specs.Needs.{HasPlaceFor, HasRoomIn, acts_on_loops, placing};
ghost use Rattle.cf_scene.specs.Scenes.{InScenes, Mirrors, all_flags};

use crate::dealt::Dealt;
use crate::flags::Flags;
use crate::needs::{place_of, thread_of};
use crate::places::{add, drop_from, invalidate, make_common};
use crate::sources::signal;
use crate::threads::{run, stop, wake};
use cf_ids::{Answer, ModeId, ObjId, ThreadId};
use cf_loops::Loops;
use cf_store::Store;
use cf_syntax::{ModeWord, Statement, ThreadWord};

/// Who says a statement over run loops, and what there is of what it names.
#[derive(Clone, Copy)]
pub struct Acting {
    /// The thread that says it.
    pub thread: ThreadId,
    /// The object of its variable, if it names a variable and that is not empty.
    pub object: Option<ObjId>,
    /// Whether the thread that a `stop` names has a run.
    pub runs: bool,
}

/// Does what a statement over run loops does, for which there is room in the loop that it names. It takes no memory. What
/// comes into a mode that becomes a common one is told before, by `Loops::gained`.
pub fn deal(
    store: &mut Store,
    loops: &mut Loops,
    flags: &mut Vec<Flags>,
    acting: &Acting,
    statement: &Statement,
) -> Dealt
    requires acts { acts_on_loops statement.now ≡ true }
    requires threads { length loops.old ≤ 64 }
    requires flags { length flags.old.items ≡ length loops.old }
    requires thread { acting.now.thread < length loops.old }
    requires named { NamesThread (length loops.old) statement.now }
    requires room { HasPlaceFor acting.now.thread loops.old statement.now }
    ensures { let t = acting.now.thread in
        InScenes store.old.bodies loops.old (λ s st. (used : List (Option ℕ)) → first_of used ≡ acting.now.object
        → st.parts.flags ≡ all_flags flags.old.items → NamesMode (length s.modes) statement.now
        → TellsRun st t acting.now.runs statement.now
        → IsDealt s st t (deal_of s t st statement.now used) statement.now result
        store.new.bodies loops.new flags.new.items) }
{
    match statement {
        Statement::Add { thread, mode, .. } => add_named(store, loops, acting, thread, mode),
        Statement::Drop { thread, mode, .. } => drop_named(store, loops, acting, thread, mode),
        Statement::Common { thread, mode } => {
            Dealt::answering(make_common_named(loops, acting, thread, *mode))
        }
        Statement::Signal { .. } => Dealt::answering(signal_named(store, acting)),
        Statement::Invalidate { .. } => invalidate_named(store, loops, acting),
        Statement::Wake { thread } => Dealt::answering(wake_named(flags, acting, thread)),
        Statement::Stop { thread } => Dealt::answering(stop_named(flags, acting, thread)),
        Statement::Run { mode, .. } => Dealt::answering(run(loops, acting.thread, *mode)),
        _ => Dealt::answering(Answer::Skip),
    }
}

// ---- places

/// Adds the item that is named to a place of the loop that is named, if there are both.
fn add_named(
    store: &Store,
    loops: &mut Loops,
    acting: &Acting,
    thread: &ThreadWord,
    mode: &ModeWord,
) -> Dealt
    requires named { IfSome (thread_in acting.now.thread thread.now) (λ u. u < length loops.old) }
    requires room { HasRoomIn loops.old (thread_in acting.now.thread thread.now) (most_added (place_in mode.now)) }
    ensures { let u = thread_in acting.now.thread thread.now in
        InScenes store.now.bodies loops.old (λ s st. (by : ℕ) → rank (place_in mode.now) ≤ length s.modes
        → IsDone s st by (placing st.parts acting.now.object u (λ w i x. add_deal s st w (place_in mode.now) i x)) result
        store.now.bodies loops.new) }
{
    let Some(item) = acting.object else {
        return Dealt::answering(Answer::Skip);
    };
    match thread_of(acting.thread, thread) {
        Some(thread) => add(store, loops, thread, &place_of(mode), item),
        None => Dealt::answering(Answer::Skip),
    }
}

/// Drops the item that is named from a place of the loop that is named, if there are both.
fn drop_named(
    store: &Store,
    loops: &mut Loops,
    acting: &Acting,
    thread: &ThreadWord,
    mode: &ModeWord,
) -> Dealt
    requires { IfSome (thread_in acting.now.thread thread.now) (λ u. u < length loops.old) }
    ensures { let u = thread_in acting.now.thread thread.now in
        InScenes store.now.bodies loops.old (λ s st. (by : ℕ)
        → IsDone s st by (placing st.parts acting.now.object u (λ w i x. drop_deal s st w (place_in mode.now) i)) result
        store.now.bodies loops.new) }
{
    let Some(item) = acting.object else {
        return Dealt::answering(Answer::Skip);
    };
    match thread_of(acting.thread, thread) {
        Some(thread) => drop_from(store, loops, thread, &place_of(mode), item),
        None => Dealt::answering(Answer::Skip),
    }
}

/// Makes a mode a common one of the loop that is named, if there is one.
fn make_common_named(loops: &mut Loops, acting: &Acting, thread: &ThreadWord, m: ModeId) -> Answer
    requires named { IfSome (thread_in acting.now.thread thread.now) (λ u. u < length loops.old) }
    requires room { HasRoomIn loops.old (thread_in acting.now.thread thread.now) most_gained }
    ensures answer { let u = thread_in acting.now.thread thread.now in
        InStates loops.old (λ s st. m < length s.modes
        → result ≡ (with_used st.parts u (λ w. common_deal st w m)).answer) }
    ensures loops { let u = thread_in acting.now.thread thread.now in
        InStates loops.old (λ s st. (by : ℕ) → m < length s.modes
        → AfterDeal s st by (with_used st.parts u (λ w. common_deal st w m)) loops.new) }
{
    match thread_of(acting.thread, thread) {
        Some(thread) => make_common(loops, thread, m),
        None => Answer::Skip,
    }
}

// ---- items

/// Signals the source that is named, if there is one.
fn signal_named(store: &mut Store, acting: &Acting) -> Answer
    ensures answer { (p : Parts) → Mirrors p store.old.bodies
        → result ≡ (with_thing p acting.now.object (λ i x. signal_deal p i x.valid x.item)).answer }
    ensures mirrors { (p : Parts) → Mirrors p store.old.bodies
        → Mirrors (with_thing p acting.now.object (λ i x. signal_deal p i x.valid x.item)).parts store.new.bodies }
{
    match acting.object {
        Some(source) => signal(store, source),
        None => Answer::Skip,
    }
}

/// Invalidates the item that is named, if there is one.
fn invalidate_named(store: &mut Store, loops: &mut Loops, acting: &Acting) -> Dealt
    requires { length loops.old ≤ 64 }
    ensures { InScenes store.old.bodies loops.old (λ s st. (by : ℕ)
        → IsDone s st by (with_thing st.parts acting.now.object (invalidate_deal s st)) result
        store.new.bodies loops.new) }
{
    match acting.object {
        Some(item) => invalidate(store, loops, item),
        None => Dealt::answering(Answer::Skip),
    }
}

// ---- threads

/// Wakes the loop of the thread that is named, if there is one.
fn wake_named(flags: &mut Vec<Flags>, acting: &Acting, thread: &ThreadWord) -> Answer
    requires { IfSome (thread_in acting.now.thread thread.now) (λ u. u < length flags.old.items) }
    ensures answer { let u = thread_in acting.now.thread thread.now in
        (p : Parts) → result ≡ (with_used p u (λ w. okay (wake_parts p w))).answer }
    ensures flags { let u = thread_in acting.now.thread thread.now in
        (p : Parts) → p.flags ≡ all_flags flags.old.items
        → all_flags flags.new.items ≡ (with_used p u (λ w. okay (wake_parts p w))).parts.flags }
{
    match thread_of(acting.thread, thread) {
        Some(thread) => {
            wake(flags, thread);
            Answer::Ok
        }
        None => Answer::Skip,
    }
}

/// Tells the innermost run of the thread that is named to stop, if there is one.
fn stop_named(flags: &mut Vec<Flags>, acting: &Acting, thread: &ThreadWord) -> Answer
    requires { IfSome (thread_in acting.now.thread thread.now) (λ u. u < length flags.old.items) }
    ensures answer { let u = thread_in acting.now.thread thread.now in
        (st : State) → IfSome u (λ w. acting.now.runs ≡ has_run (stand_at w st.stands).frames)
        → result ≡ (with_used st.parts u (stop_deal st)).answer }
    ensures flags { let u = thread_in acting.now.thread thread.now in
        (st : State) → IfSome u (λ w. acting.now.runs ≡ has_run (stand_at w st.stands).frames)
        → st.parts.flags ≡ all_flags flags.old.items
        → all_flags flags.new.items ≡ (with_used st.parts u (stop_deal st)).parts.flags }
{
    match thread_of(acting.thread, thread) {
        Some(thread) => stop(flags, thread, acting.runs),
        None => Answer::Skip,
    }
}
