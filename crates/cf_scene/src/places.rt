//! Items come into places of loops and leave them.
ghost use Rattle.std.specs.Prelude.{◌≡◌, ℕ, ◌<◌, ◌≤◌, length, true};
ghost use Rattle.rl_base.specs.Modes.{rank};
ghost use Rattle.cf_contents.specs.Items.{kind_of};
ghost use Rattle.cf_model.specs.Deals.{stays_in_one};
ghost use Rattle.cf_store.specs.Sources.{item_at, is_valid_source};
ghost use Rattle.cf_loops.specs.Following.{InStates, loop_at};
ghost use Rattle.cf_loops.specs.Rooms.{most_added, most_gained};
ghost use Rattle.cf_scene.specs.Dealing.{IsCommonNow, IsDone, adding, dropping, invalidating, spending};
ghost use Rattle.cf_scene.specs.Scenes.{InScenes};

use crate::dealt::Dealt;
use cf_ids::{Answer, Item, ItemKind, ModeId, ObjId, ThreadId};
use cf_loops::Loops;
use cf_store::Store;
use rl_base::Place;

/// Adds an item to a place of a thread's loop, for which there is room: to a mode, or to the common items and each
/// common mode that does not hold it. It answers `invalid`, `elsewhere` of a timer or an observer that another loop
/// holds, `present`, `ok`, or `skip` if the object is no item.
pub fn add(store: &Store, loops: &mut Loops, t: ThreadId, place: &Place, i: ObjId) -> Dealt
    requires thread { t < length loops.old }
    requires room { most_added place.now (loop_at t loops.old) ≤ (loop_at t loops.old).room }
    ensures { InScenes store.now.bodies loops.old (λ s st. (by : ℕ) → t < s.thread_count
        → rank place.now ≤ length s.modes
        → IsDone s st by (adding s st t place.now i) result store.now.bodies loops.new) }
{
    let Some(item) = store.item(i) else {
        return Dealt::answering(Answer::Skip);
    };
    if !item.valid {
        return Dealt::answering(Answer::Invalid);
    }
    let kind = item.kind();
    if stays_in_one(kind) && loops.is_elsewhere(t, i) {
        return Dealt::answering(Answer::Elsewhere);
    }
    if loops.has(t, place, i) {
        return Dealt::answering(Answer::Present);
    }
    let came = loops.added(t, place, i);
    loops.add(t, place, &Item { id: i, kind });
    Dealt {
        answer: Answer::Ok,
        item: i,
        came,
        went: 0,
    }
}

/// Whether an item of a kind is in the loop of one thread alone.
fn stays_in_one(kind: ItemKind) -> bool
    ensures { result ≡ stays_in_one kind }
{
    match kind {
        ItemKind::Source => false,
        ItemKind::Timer | ItemKind::Observer => true,
    }
}

/// Drops an item from a place of a thread's loop: from a mode, or from the common items and each common mode that holds
/// it. It answers `absent`, `ok`, or `skip` if the object is no item.
pub fn drop_from(store: &Store, loops: &mut Loops, t: ThreadId, place: &Place, i: ObjId) -> Dealt
    requires { t < length loops.old }
    ensures { InScenes store.now.bodies loops.old (λ s st. (by : ℕ) → t < s.thread_count
        → IsDone s st by (dropping s st t place.now i) result store.now.bodies loops.new) }
{
    if store.item(i).is_none() {
        return Dealt::answering(Answer::Skip);
    }
    if !loops.has(t, place, i) {
        return Dealt::answering(Answer::Absent);
    }
    let went = loops.dropped(t, place, i);
    loops.drop_from(t, place, i);
    Dealt {
        answer: Answer::Ok,
        item: i,
        came: 0,
        went,
    }
}

/// Makes a mode a common one of a thread's loop, for which there is room: it gains each common item that it does not
/// hold. It answers `present` or `ok`.
pub fn make_common(loops: &mut Loops, t: ThreadId, m: ModeId) -> Answer
    requires thread { t < length loops.old }
    requires room { most_gained (loop_at t loops.old) ≤ (loop_at t loops.old).room }
    ensures { InStates loops.old (λ s st. (by : ℕ) → t < s.thread_count → m < length s.modes
        → IsCommonNow s st by t m result loops.new) }
{
    let answer = if loops.is_common(t, m) {
        Answer::Present
    } else {
        Answer::Ok
    };
    loops.make_common(t, m);
    answer
}

/// Invalidates an item, which leaves every place of all loops. It answers `invalid`, `ok`, or `skip` if the object is no
/// item.
pub fn invalidate(store: &mut Store, loops: &mut Loops, i: ObjId) -> Dealt
    requires { length loops.old ≤ 64 }
    ensures { InScenes store.old.bodies loops.old (λ s st. (by : ℕ)
        → IsDone s st by (invalidating s st i) result store.new.bodies loops.new) }
{
    match store.item(i) {
        Some(item) if item.valid => leave(store, loops, i),
        Some(_) => Dealt::answering(Answer::Invalid),
        None => Dealt::answering(Answer::Skip),
    }
}

/// Invalidates an item after its handler, if it was not invalidated since. It answers `ok`.
pub fn spend(store: &mut Store, loops: &mut Loops, i: ObjId) -> Dealt
    requires { length loops.old ≤ 64 }
    ensures { InScenes store.old.bodies loops.old (λ s st. (by : ℕ)
        → IsDone s st by (spending s st i) result store.new.bodies loops.new) }
{
    match store.item(i) {
        Some(item) if item.valid => leave(store, loops, i),
        _ => Dealt::answering(Answer::Ok),
    }
}

/// A valid item is invalidated, and leaves every place.
fn leave(store: &mut Store, loops: &mut Loops, i: ObjId) -> Dealt
    requires valid { is_valid_source (item_at store.old.bodies i) ≡ true }
    requires threads { length loops.old ≤ 64 }
    ensures { InScenes store.old.bodies loops.old (λ s st. (by : ℕ)
        → IsDone s st by (invalidating s st i) result store.new.bodies loops.new) }
{
    let went = loops.everywhere(i);
    store.invalidate(i);
    loops.leave_all(i);
    Dealt {
        answer: Answer::Ok,
        item: i,
        came: 0,
        went,
    }
}
