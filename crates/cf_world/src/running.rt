//! A world goes on by an entry that no line writes and that takes no reference away: the call of a handler and its end,
//! an item that is invalidated after it, a phase of a run, and the end of a run.
ghost use Rattle.std.specs.List.{All};
ghost use Rattle.std.specs.Prelude.{◌≡◌, ◌≤◌, ◌<◌, [], IfSome, length, replicate, vec_capacity, vec_len};
ghost use Rattle.cf_ids.specs.Ranges.{IsObjectNumber};
ghost use Rattle.rl_turn.specs.declared.phases.Phase.TheVariants as phases;
ghost use Rattle.cf_next.specs.Standing.{HasRoom, innermost_run};
ghost use Rattle.cf_next.specs.Turns.{test_result};
ghost use Rattle.cf_next.specs.Views.{callee_of};
ghost use Rattle.cf_model.specs.Known.{facts_of};
ghost use Rattle.cf_model.specs.Steps.{activity_of, call_answer, result_answer};
ghost use Rattle.cf_world.specs.Begun.{AreFrames, FitsItems, HasGone, IsCallOf, IsRoundFound, IsReserved, IsSpends, IsStillFound, HasLists, still_answer, sources_of_run, standing_at};
ghost use Rattle.std.specs.Option.{option_and_then};
ghost use Rattle.cf_world.specs.Entering.{IsPass, gained_in};
ghost use Rattle.cf_world.specs.Grounds.{state_of};
ghost use Rattle.cf_world.specs.declared.found.Found.TheVariants as kept;

use crate::applying::go_on;
use crate::found::{Found, Reserved};
use crate::ground::Ground;
use crate::statements::put_all;
use cf_ids::{Answer, ObjId, ThreadId};
use cf_next::{Callee, Frames, MaybeObject};
use rl_turn::{Phase, result as turn_result};

/// A thread goes on by an entry that leaves the ground as it is, with its answer and what it collects.
fn pass(
    ground: &mut Ground,
    frames: &mut Vec<Frames>,
    reserved: &Reserved,
    answer: Answer,
    list: &[u32],
)
    requires reserved { IsReserved ground.old frames.old.items reserved.now }
    requires frames { AreFrames ground.old.script (state_of ground.old) frames.old.items }
    requires passes { IsPass ground.old reserved.now.thread answer list.now }
    requires room { HasRoom (length list.now) (standing_at frames.old.items reserved.now.thread) }
    requires numbers { All IsObjectNumber list.now }
    ensures gone { HasGone reserved.now ground.old ground.new frames.new.items }
    ensures gained { gained_in ground.old reserved.now.thread ≡ [] }
{
    let t = reserved.thread;
    go_on(frames, ground, t, &reserved.found, &answer, list);
    ground.enter_pass(t, reserved.action, answer, list);
}

/// What no line writes is entered, which takes no reference away.
pub(crate) fn go_round(
    ground: &mut Ground,
    frames: &mut Vec<Frames>,
    gained: &mut Vec<ObjId>,
    list: &mut Vec<u32>,
    reserved: &Reserved,
)
    requires reserved { IsReserved ground.old frames.old.items reserved.now }
    requires frames { AreFrames ground.old.script (state_of ground.old) frames.old.items }
    requires round { IsRoundFound reserved.now.found }
    requires no_gained { gained.old.items ≡ [] }
    requires gained_room { 2 ≤ vec_capacity gained.old }
    requires no_list { list.old.items ≡ [] }
    requires lists { HasLists ground.old frames.old.items (vec_capacity gained.old) (vec_capacity list.old) reserved.now }
    ensures gone { HasGone reserved.now ground.old ground.new frames.new.items }
    ensures gained { gained.new.items ≡ gained_in ground.old reserved.now.thread }
    ensures gained_room { vec_capacity gained.new ≡ vec_capacity gained.old }
    ensures list_room { vec_capacity list.new ≡ vec_capacity list.old }
{
    match reserved.found {
        Found::Enters(phase) => turn(ground, frames, gained, list, reserved, phase),
        Found::Calls { callee, info, .. } => call(ground, frames, gained, reserved, &callee, &info),
        Found::Spends { item, .. } => spend(ground, frames, list, reserved, item),
        _ => still(ground, frames, reserved),
    }
}

/// The first line of a handler, its end, or the end of a run.
fn still(ground: &mut Ground, frames: &mut Vec<Frames>, reserved: &Reserved)
    requires reserved { IsReserved ground.old frames.old.items reserved.now }
    requires frames { AreFrames ground.old.script (state_of ground.old) frames.old.items }
    requires still { IsStillFound reserved.now.found }
    ensures gone { HasGone reserved.now ground.old ground.new frames.new.items }
    ensures gained { gained_in ground.old reserved.now.thread ≡ [] }
{
    let t = reserved.thread;
    let answer = answer_of_still(&reserved.found, &frames[t.0 as usize]);
    pass(ground, frames, reserved, answer, &[]);
}

/// The answer of what stays in its place: the end of a run tells its result.
fn answer_of_still(found: &Found, frames: &Frames) -> Answer
    ensures { result ≡ still_answer found.now
        (option_and_then (λ r. r.result) (innermost_run frames.now.stand.frames)) }
{
    match found {
        Found::Closes => answer_of_result(frames.result()),
        _ => Answer::Ok,
    }
}

/// The answer of a test, by its result: `again` if it has none.
fn answer_of_result(number: Option<u8>) -> Answer
    ensures { result ≡ result_answer number }
{
    match number {
        Some(number) => Answer::Number(i64::from(number)),
        None => Answer::Again,
    }
}

/// A run enters a phase.
fn turn(
    ground: &mut Ground,
    frames: &mut Vec<Frames>,
    gained: &mut Vec<ObjId>,
    list: &mut Vec<u32>,
    reserved: &Reserved,
    phase: Phase,
)
    requires reserved { IsReserved ground.old frames.old.items reserved.now }
    requires frames { AreFrames ground.old.script (state_of ground.old) frames.old.items }
    requires enters { reserved.now.found ≡ kept.Enters phase }
    requires no_gained { gained.old.items ≡ [] }
    requires no_list { list.old.items ≡ [] }
    requires lists { HasLists ground.old frames.old.items (vec_capacity gained.old) (vec_capacity list.old) reserved.now }
    ensures gone { HasGone reserved.now ground.old ground.new frames.new.items }
    ensures gained { gained.new.items ≡ gained_in ground.old reserved.now.thread }
    ensures none { gained.new.items ≡ [] }
    ensures gained_room { vec_capacity gained.new ≡ vec_capacity gained.old }
    ensures list_room { vec_capacity list.new ≡ vec_capacity list.old }
{
    match phase {
        Phase::Sleep => sleep(ground, frames, reserved),
        Phase::Test => test(ground, frames, reserved),
        Phase::Sources => {
            collect(ground, frames.as_slice(), reserved.thread, gained, list);
            pass(ground, frames, reserved, Answer::Ok, list.as_slice());
        }
        _ => pass(ground, frames, reserved, Answer::Ok, &[]),
    }
}

/// A run is tested at the end of a turn.
fn test(ground: &mut Ground, frames: &mut Vec<Frames>, reserved: &Reserved)
    requires reserved { IsReserved ground.old frames.old.items reserved.now }
    requires frames { AreFrames ground.old.script (state_of ground.old) frames.old.items }
    requires tests { reserved.now.found ≡ kept.Enters phases.Test }
    ensures gone { HasGone reserved.now ground.old ground.new frames.new.items }
    ensures gained { gained_in ground.old reserved.now.thread ≡ [] }
{
    let t = reserved.thread;
    let answer = answer_of_test(ground, &frames[t.0 as usize]);
    pass(ground, frames, reserved, answer, &[]);
}

/// What a test of a thread's innermost run answers.
fn answer_of_test(ground: &Ground, frames: &Frames) -> Answer
    ensures { IfSome (innermost_run frames.now.stand.frames)
        (λ r. result ≡ result_answer (test_result (facts_of (state_of ground.now)) frames.now.thread r)) }
{
    match &frames.turn(ground) {
        Some(facts) => answer_of_result(turn_result(facts)),
        None => Answer::Ok,
    }
}

/// Lists the numbers of the sources that a thread's innermost run is to call, in order; `scratch` is empty before and
/// after.
fn collect(
    ground: &Ground,
    frames: &[Frames],
    t: ThreadId,
    scratch: &mut Vec<ObjId>,
    list: &mut Vec<u32>,
)
    requires thread { t < length frames.now }
    requires scratch { scratch.old.items ≡ [] }
    requires list { list.old.items ≡ [] }
    requires room { FitsItems (state_of ground.now) t (vec_capacity scratch.old)
        (innermost_run (standing_at frames.now t).stand.frames) }
    requires list_room { FitsItems (state_of ground.now) t (vec_capacity list.old)
        (innermost_run (standing_at frames.now t).stand.frames) }
    ensures scratch { scratch.new.items ≡ [] }
    ensures scratch_room { vec_capacity scratch.new ≡ vec_capacity scratch.old }
    ensures list { list.new.items ≡ sources_of_run (state_of ground.now) t
        (innermost_run (standing_at frames.now t).stand.frames) }
    ensures list_room { vec_capacity list.new ≡ vec_capacity list.old }
    ensures numbers { All IsObjectNumber list.new.items }
{
    let Some(mode) = frames[t.0 as usize].mode() else {
        return;
    };
    ground
        .store
        .collect_sources(ground.loops.items(t, mode), scratch);
    push_numbers(list, scratch.as_slice());
    scratch.clear();
}

/// A list gets the numbers of these objects, in order.
fn push_numbers(list: &mut Vec<u32>, objects: &[ObjId])
    requires empty { list.old.items ≡ [] }
    requires room { length objects.now ≤ vec_capacity list.old }
    ensures items { list.new.items ≡ objects.now }
    ensures room { vec_capacity list.new ≡ vec_capacity list.old }
    ensures numbers { All IsObjectNumber list.new.items }
{
    for object in objects {
        list.push_reserved(object.0);
    }
}

/// A run sleeps, or finds that it was woken or that something is due. Where its thread goes on does not depend on that.
fn sleep(ground: &mut Ground, frames: &mut Vec<Frames>, reserved: &Reserved)
    requires reserved { IsReserved ground.old frames.old.items reserved.now }
    requires frames { AreFrames ground.old.script (state_of ground.old) frames.old.items }
    requires sleeps { reserved.now.found ≡ kept.Enters phases.Sleep }
    ensures gone { HasGone reserved.now ground.old ground.new frames.new.items }
    ensures gained { gained_in ground.old reserved.now.thread ≡ [] }
{
    let t = reserved.thread;
    let deadline = frames[t.0 as usize].deadline();
    go_on(frames, ground, t, &reserved.found, &Answer::Ok, &[]);
    ground.enter_sleep(t, reserved.action, deadline);
}

/// An item is invalidated after its handler, and its thread is given out what its places had.
fn spend(
    ground: &mut Ground,
    frames: &mut Vec<Frames>,
    list: &mut Vec<u32>,
    reserved: &Reserved,
    item: ObjId,
)
    requires reserved { IsReserved ground.old frames.old.items reserved.now }
    requires frames { AreFrames ground.old.script (state_of ground.old) frames.old.items }
    requires spends { IsSpends reserved.now.found item }
    requires no_list { list.old.items ≡ [] }
    requires lists { HasLists ground.old frames.old.items (vec_capacity list.old) (vec_capacity list.old) reserved.now }
    ensures gone { HasGone reserved.now ground.old ground.new frames.new.items }
    ensures gained { gained_in ground.old reserved.now.thread ≡ [] }
    ensures list_room { vec_capacity list.new ≡ vec_capacity list.old }
{
    let t = reserved.thread;
    let went = ground.places_of(item);
    push_copies(list, item, went);
    go_on(
        frames,
        ground,
        t,
        &reserved.found,
        &Answer::Ok,
        list.as_slice(),
    );
    ground.enter_spend(t, reserved.action, item);
}

/// A list gets the number of an object so often.
pub(crate) fn push_copies(list: &mut Vec<u32>, object: ObjId, times: usize)
    requires empty { list.old.items ≡ [] }
    requires room { times ≤ vec_capacity list.old }
    ensures items { list.new.items ≡ replicate times object }
    ensures room { vec_capacity list.new ≡ vec_capacity list.old }
    ensures numbers { All IsObjectNumber list.new.items }
{
    for _ in 0..times {
        list.push_reserved(object.0);
    }
}

/// The handler of what was collected is called.
fn call(
    ground: &mut Ground,
    frames: &mut Vec<Frames>,
    gained: &mut Vec<ObjId>,
    reserved: &Reserved,
    callee: &Callee,
    info: &MaybeObject,
)
    requires reserved { IsReserved ground.old frames.old.items reserved.now }
    requires frames { AreFrames ground.old.script (state_of ground.old) frames.old.items }
    requires calls { IsCallOf reserved.now.found callee.now info.now }
    requires no_gained { gained.old.items ≡ [] }
    requires gained_room { 2 ≤ vec_capacity gained.old }
    ensures gone { HasGone reserved.now ground.old ground.new frames.new.items }
    ensures gained { gained.new.items ≡ gained_in ground.old reserved.now.thread }
    ensures gained_room { vec_capacity gained.new ≡ vec_capacity gained.old }
{
    let t = reserved.thread;
    let answer = answer_of_call(callee, frames[t.0 as usize].last());
    go_on(frames, ground, t, &reserved.found, &answer, &[]);
    put_all(gained, &[info.object(), callee.item()]);
    ground.enter_call(t, reserved.action, callee, answer);
}

/// What a call answers: the activity of the last phase to an observer, and `ok` to others.
fn answer_of_call(callee: &Callee, last: Option<Phase>) -> Answer
    ensures { result ≡ call_answer (callee_of callee.now).role (activity_of last) }
{
    match (callee, last) {
        (Callee::Observer(_), Some(Phase::Note(activity))) => Answer::Number(i64::from(activity)),
        (Callee::Observer(_), _) => Answer::Number(0),
        _ => Answer::Ok,
    }
}
