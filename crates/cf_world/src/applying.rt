//! A world goes on by an entry of a thread.
ghost use Rattle.std.specs.List.{All};
ghost use Rattle.std.specs.Prelude.{◌≡◌, ◌+◌, ◌<◌, ◌≤◌, ◌^◌, ℕ, List, [], length, option_to_list, Some, None, IfSome, IsSomeAnd, vec_capacity, vec_len};
ghost use Rattle.cf_ids.specs.Ranges.{IsObjectNumber};
ghost use Rattle.cf_ids.specs.declared.answer.Answer.{Answer as AnswerValue};
ghost use Rattle.cf_syntax.specs.BlockLines.{says};
ghost use Rattle.cf_syntax.specs.Mentions.{first_of};
ghost use Rattle.cf_syntax.specs.declared.script.Script.{Script as ScriptValue};
ghost use Rattle.cf_next.specs.Actions.{cut_of};
ghost use Rattle.cf_next.specs.Advance.{advanced};
ghost use Rattle.cf_next.specs.Demands.{does};
ghost use Rattle.cf_next.specs.Facts.{Facts as Known};
ghost use Rattle.cf_next.specs.Next.{object_at, top_frame};
ghost use Rattle.cf_next.specs.Stands.{Stand};
ghost use Rattle.cf_next.specs.Standing.{HasRoom};
ghost use Rattle.cf_next.specs.Steps.{IsStep, SaysList, SaysRoom};
ghost use Rattle.cf_next.specs.Views.{objects_of};
ghost use Rattle.cf_model.specs.Known.{facts_of};
ghost use Rattle.cf_model.specs.State.{stand_at};
ghost use Rattle.cf_world.specs.Begun.{AreFrames, HasGone, HasMoved, MovesBy, IsFound, IsReadyFor, IsClaims, IsDrops, IsOwes, IsPacks, IsReserved, IsSays, HasLists, StandSo, finals_of_cut, standing_at};
ghost use Rattle.cf_world.specs.Entering.{HasEntered, IsLastAnswer, gained_in, listed_in};
ghost use Rattle.cf_world.specs.Grounds.{ends_in, state_of};
ghost use Rattle.cf_world.specs.Kept.{step_kept};
ghost use Rattle.cf_world.specs.declared.found.Found.TheVariants as kept;
ghost use Rattle.cf_world.specs.Worlds.{IsLegalWorld, IsThread, acting, applied, ended_in, entered, retained_by};

use crate::begun::Begun;
use crate::counts::answer_for;
use crate::found::{Found, Reserved};
use crate::ground::Ground;
use crate::looking::look;
use crate::loops::deal;
use crate::running::go_round;
use crate::statements::{item_made, put_all};
use cf_ids::{Answer, Ended, ObjId, ThreadId, VarId};
use cf_next::{Facts, Frames, Step, Used};
use cf_syntax::{Ownership, Statement};

impl Begun {
    /// Does the next action of a thread, which takes no reference away.
    pub fn apply(&mut self, t: ThreadId)
        requires room { self.old.room ≡ Some t }
        requires acts { IsSomeAnd (acting self.old t) (λ a. cut_of a ≡ None) }
        ensures entered { self.new ≡ applied t self.old }
        ensures legal { IsLegalWorld self.new }
    {
        self.has_room = false;
        self.gained.clear();
        self.list.clear();
        enter(
            &mut self.ground,
            &mut self.frames,
            &mut self.gained,
            &mut self.list,
            &self.reserved,
        );
        let _ = self.journal();
    }

    /// Does the next action of a thread, which is a retain that was made before.
    pub fn book(&mut self, t: ThreadId, o: ObjId)
        requires thread { IsThread self.old t }
        requires acts { IsSomeAnd (acting self.old t) (λ a. retained_by a ≡ Some o) }
        ensures entered { self.new ≡ entered t self.old }
        ensures legal { IsLegalWorld self.new }
    {
        match look(
            &self.ground,
            self.frames.as_slice(),
            self.limit,
            t,
            &mut self.looked,
        ) {
            Ok(()) => {
                self.has_room = false;
                retain(&mut self.ground, &mut self.frames, &self.looked, o);
            }
            Err(_) => return,
        }
        let _ = self.journal();
    }

    /// Does the next action of a thread, which takes a reference to an object away; `ended` is what that leaves.
    pub fn release(&mut self, t: ThreadId, o: ObjId, ended: Ended)
        requires room { self.old.room ≡ Some t }
        requires acts { IsSomeAnd (acting self.old t) (λ a. cut_of a ≡ Some o) }
        requires ended { ended ≡ ended_in self.old o }
        ensures entered { self.new ≡ entered t self.old }
        ensures legal { IsLegalWorld self.new }
    {
        self.has_room = false;
        cut(&mut self.ground, &mut self.frames, &self.reserved, o, ended);
        let _ = self.journal();
    }
}

// ---- what takes no reference away

/// What was found is entered, which takes no reference away.
fn enter(
    ground: &mut Ground,
    frames: &mut Vec<Frames>,
    gained: &mut Vec<ObjId>,
    list: &mut Vec<u32>,
    reserved: &Reserved,
)
    requires reserved { IsReserved ground.old frames.old.items reserved.now }
    requires frames { AreFrames ground.old.script (state_of ground.old) frames.old.items }
    requires keeps { cut_of reserved.now.action ≡ None }
    requires no_gained { gained.old.items ≡ [] }
    requires gained_room { 2 ≤ vec_capacity gained.old }
    requires no_list { list.old.items ≡ [] }
    requires list_room { 2 ≤ vec_capacity list.old }
    requires lists { HasLists ground.old frames.old.items (vec_capacity gained.old) (vec_capacity list.old) reserved.now }
    ensures gone { HasGone reserved.now ground.old ground.new frames.new.items }
    ensures gained { gained.new.items ≡ gained_in ground.old reserved.now.thread }
    ensures gained_room { vec_capacity gained.new ≡ vec_capacity gained.old }
    ensures list_room { vec_capacity list.new ≡ vec_capacity list.old }
{
    match reserved.found {
        Found::Says { .. } => say(ground, frames, gained, list, reserved),
        Found::Deals { .. } => deal(ground, frames, gained, list, reserved),
        Found::Claims { place, .. } => claim(ground, frames, reserved, place),
        Found::Packs { .. } => pack(ground, frames, reserved),
        Found::Ends => end(ground, frames, reserved),
        Found::Owes { .. } | Found::Drops { .. } => {}
        _ => go_round(ground, frames, gained, list, reserved),
    }
}

/// A thread says a statement that takes no reference away.
fn say(
    ground: &mut Ground,
    frames: &mut Vec<Frames>,
    gained: &mut Vec<ObjId>,
    list: &mut Vec<u32>,
    reserved: &Reserved,
)
    requires reserved { IsReserved ground.old frames.old.items reserved.now }
    requires frames { AreFrames ground.old.script (state_of ground.old) frames.old.items }
    requires says { IsSays reserved.now.found }
    requires keeps { cut_of reserved.now.action ≡ None }
    requires no_gained { gained.old.items ≡ [] }
    requires gained_room { 2 ≤ vec_capacity gained.old }
    requires no_list { list.old.items ≡ [] }
    requires list_room { 2 ≤ vec_capacity list.old }
    ensures gone { HasGone reserved.now ground.old ground.new frames.new.items }
    ensures gained { gained.new.items ≡ gained_in ground.old reserved.now.thread }
    ensures gained_room { vec_capacity gained.new ≡ vec_capacity gained.old }
    ensures list_room { vec_capacity list.new ≡ vec_capacity list.old }
{
    let Found::Says { block, number, .. } = reserved.found else {
        return;
    };
    enter_statement(ground, gained, list, reserved);
    if let Some(statement) = ground.statement(block, number) {
        say_on(
            frames,
            ground,
            reserved.thread,
            statement,
            None,
            list.as_slice(),
        );
    }
}

/// A statement that acts on no run loop and takes no reference away is entered.
fn enter_statement(
    ground: &mut Ground,
    gained: &mut Vec<ObjId>,
    list: &mut Vec<u32>,
    reserved: &Reserved,
)
    requires found { IsFound ground.old reserved.now }
    requires ready { IsReadyFor ground.old reserved.now.thread reserved.now.found }
    requires says { IsSays reserved.now.found }
    requires keeps { cut_of reserved.now.action ≡ None }
    requires no_gained { gained.old.items ≡ [] }
    requires gained_room { 2 ≤ vec_capacity gained.old }
    requires no_list { list.old.items ≡ [] }
    requires list_room { 2 ≤ vec_capacity list.old }
    ensures entered { HasEntered reserved.now.thread reserved.now.action ground.old ground.new }
    ensures gained { gained.new.items ≡ gained_in ground.old reserved.now.thread }
    ensures gained_room { vec_capacity gained.new ≡ vec_capacity gained.old }
    ensures list { list.new.items ≡ listed_in ground.old reserved.now.thread }
    ensures list_room { vec_capacity list.new ≡ vec_capacity list.old }
    ensures few_listed { vec_len list.new ≤ 2 }
    ensures numbers { All IsObjectNumber list.new.items }
{
    let Found::Says {
        block,
        number,
        used,
    } = reserved.found
    else {
        return;
    };
    let Some(statement) = ground.statement(block, number) else {
        return;
    };
    let t = reserved.thread;
    let action = reserved.action;
    match statement.ownership() {
        Ownership::Keeps => ground.enter_deed(t, action, gained, list),
        Ownership::Binds(_) => match item_made(statement, first(&used)) {
            Some(item) => ground.enter_item(t, action, item, gained),
            None => ground.enter_binding(t, action, gained),
        },
        Ownership::Retains(_) => {
            put_all(gained, &[first(&used), None]);
            ground.enter_retain(t, action, first(&used));
        }
        Ownership::Releases(_) => ground.enter_skip(t, action),
    }
}

/// The first object that a statement uses.
pub(crate) fn first(used: &Used) -> Option<ObjId>
    ensures { result ≡ first_of (objects_of used.now) }
{
    let [object, _, _] = used.objects();
    object
}

/// A thread claims what a place of its parcel has.
fn claim(ground: &mut Ground, frames: &mut Vec<Frames>, reserved: &Reserved, place: usize)
    requires reserved { IsReserved ground.old frames.old.items reserved.now }
    requires frames { AreFrames ground.old.script (state_of ground.old) frames.old.items }
    requires claims { IsClaims reserved.now.found place }
    ensures gone { HasGone reserved.now ground.old ground.new frames.new.items }
    ensures gained { gained_in ground.old reserved.now.thread ≡ [] }
{
    let t = reserved.thread;
    let answer = answer_for(ground.parcel(t, place));
    go_on(frames, ground, t, &reserved.found, &answer, &[]);
    ground.enter_claim(t, reserved.action, place);
}

/// Setup packs the object of a variable for a place of a thread's parcel.
fn pack(ground: &mut Ground, frames: &mut Vec<Frames>, reserved: &Reserved)
    requires reserved { IsReserved ground.old frames.old.items reserved.now }
    requires frames { AreFrames ground.old.script (state_of ground.old) frames.old.items }
    requires packs { IsPacks reserved.now.found }
    ensures gone { HasGone reserved.now ground.old ground.new frames.new.items }
    ensures gained { gained_in ground.old reserved.now.thread ≡ [] }
{
    let Found::Packs {
        thread,
        place,
        variable,
    } = &reserved.found
    else {
        return;
    };
    let t = reserved.thread;
    let object = object_of(frames.as_slice(), t, variable);
    let answer = answer_for(object_of(frames.as_slice(), t, variable));
    go_on(frames, ground, t, &reserved.found, &answer, &[]);
    ground.enter_pack(t, reserved.action, *thread, *place, object);
}

/// The block of a thread is at its end.
fn end(ground: &mut Ground, frames: &mut Vec<Frames>, reserved: &Reserved)
    requires reserved { IsReserved ground.old frames.old.items reserved.now }
    requires frames { AreFrames ground.old.script (state_of ground.old) frames.old.items }
    requires ends { reserved.now.found ≡ kept.Ends }
    ensures gone { HasGone reserved.now ground.old ground.new frames.new.items }
    ensures gained { gained_in ground.old reserved.now.thread ≡ [] }
{
    let t = reserved.thread;
    go_on(frames, ground, t, &reserved.found, &Answer::Ok, &[]);
    ground.enter_end(t, reserved.action);
}

/// A retain that was made before is entered.
fn retain(ground: &mut Ground, frames: &mut Vec<Frames>, reserved: &Reserved, object: ObjId)
    requires found { IsFound ground.old reserved.now }
    requires frames { AreFrames ground.old.script (state_of ground.old) frames.old.items }
    requires retains { retained_by reserved.now.action ≡ Some object }
    ensures gone { HasGone reserved.now ground.old ground.new frames.new.items }
{
    let Found::Says { block, number, .. } = reserved.found else {
        return;
    };
    ground.enter_retain(reserved.thread, reserved.action, Some(object));
    if let Some(statement) = ground.statement(block, number) {
        say_on(frames, ground, reserved.thread, statement, None, &[]);
    }
}

// ---- what takes a reference away

/// What was found is entered, which takes a reference to an object away; `ended` is what that leaves.
fn cut(
    ground: &mut Ground,
    frames: &mut Vec<Frames>,
    reserved: &Reserved,
    object: ObjId,
    ended: Ended,
)
    requires reserved { IsReserved ground.old frames.old.items reserved.now }
    requires frames { AreFrames ground.old.script (state_of ground.old) frames.old.items }
    requires cuts { cut_of reserved.now.action ≡ Some object }
    requires ended { ends_in ground.old object ended }
    ensures gone { HasGone reserved.now ground.old ground.new frames.new.items }
{
    match reserved.found {
        Found::Says { .. } => let_go(ground, frames, reserved, object, ended),
        Found::Owes { .. } => pay(ground, frames, reserved, object, ended),
        Found::Drops { .. } => give_up(ground, frames, reserved, ended),
        _ => {}
    }
}

/// A statement releases the object of its variable.
fn let_go(
    ground: &mut Ground,
    frames: &mut Vec<Frames>,
    reserved: &Reserved,
    object: ObjId,
    ended: Ended,
)
    requires reserved { IsReserved ground.old frames.old.items reserved.now }
    requires frames { AreFrames ground.old.script (state_of ground.old) frames.old.items }
    requires says { IsSays reserved.now.found }
    requires cuts { cut_of reserved.now.action ≡ Some object }
    requires ended { ends_in ground.old object ended }
    ensures gone { HasGone reserved.now ground.old ground.new frames.new.items }
{
    let Found::Says { block, number, .. } = reserved.found else {
        return;
    };
    ground.enter_cut(reserved.thread, reserved.action, object, ended);
    if let Some(statement) = ground.statement(block, number) {
        say_on(
            frames,
            ground,
            reserved.thread,
            statement,
            finalised(object, ended),
            &[],
        );
    }
}

/// What a release has finalised.
fn finalised(object: ObjId, ended: Ended) -> Option<ObjId>
    ensures { option_to_list result ≡ finals_of_cut ended object }
{
    match ended {
        Ended::Last => Some(object),
        Ended::More => None,
    }
}

/// A thread releases an object that it was given out.
fn pay(
    ground: &mut Ground,
    frames: &mut Vec<Frames>,
    reserved: &Reserved,
    object: ObjId,
    ended: Ended,
)
    requires reserved { IsReserved ground.old frames.old.items reserved.now }
    requires frames { AreFrames ground.old.script (state_of ground.old) frames.old.items }
    requires owes { IsOwes reserved.now.found object }
    requires ended { ends_in ground.old object ended }
    ensures gone { HasGone reserved.now ground.old ground.new frames.new.items }
{
    let t = reserved.thread;
    let answer = ground.answer_of_cut(object, ended);
    go_on(frames, ground, t, &reserved.found, &answer, &[]);
    ground.enter_cut(t, reserved.action, object, ended);
}

/// A finalised body gives up a slot.
fn give_up(ground: &mut Ground, frames: &mut Vec<Frames>, reserved: &Reserved, ended: Ended)
    requires reserved { IsReserved ground.old frames.old.items reserved.now }
    requires frames { AreFrames ground.old.script (state_of ground.old) frames.old.items }
    requires drops { IsDrops reserved.now.found }
    requires ended { (o : ℕ) → cut_of reserved.now.action ≡ Some o → ends_in ground.old o ended }
    ensures gone { HasGone reserved.now ground.old ground.new frames.new.items }
{
    let Found::Drops { body, object, .. } = reserved.found else {
        return;
    };
    let t = reserved.thread;
    let answer = ground.answer_of_cut(object, ended);
    go_on(frames, ground, t, &reserved.found, &answer, &[]);
    ground.enter_drop(t, reserved.action, body, object, ended);
}

// ---- frames

/// The object of a variable of a thread's innermost frame, if there is a variable.
fn object_of(frames: &[Frames], t: ThreadId, variable: &Option<VarId>) -> Option<ObjId>
    requires { t < length frames.now }
    ensures { result ≡ object_at (top_frame (standing_at frames.now t).stand.frames).bindings variable.now }
{
    match variable {
        Some(variable) => frames[t.0 as usize].object(*variable),
        None => None,
    }
}

/// What was kept, as the step that it was; a statement is looked up.
#[inline(always)]
fn step_of<'g>(ground: &'g Ground, found: &Found) -> Option<Step<'g>>
    ensures { IfSome (step_kept found.now) (λ x. result ≡ Some x) }
{
    match found {
        Found::Begins => Some(Step::Begins),
        Found::Claims { place, variable } => Some(Step::Claims {
            place: *place,
            variable: *variable,
        }),
        Found::Says {
            block,
            number,
            used,
        } => match ground.statement(*block, *number) {
            Some(statement) => Some(Step::Says {
                statement,
                used: *used,
                number: *number,
            }),
            None => None,
        },
        Found::Deals { .. } => None,
        Found::Packs {
            thread,
            place,
            variable,
        } => Some(Step::Packs {
            thread: *thread,
            place: *place,
            variable: *variable,
        }),
        Found::Ends => Some(Step::Ends),
        Found::Returns => Some(Step::Returns),
        Found::Owes { object, left } => Some(Step::Owes {
            object: *object,
            left: *left,
        }),
        Found::Spends { item, left } => Some(Step::Spends {
            item: *item,
            left: *left,
        }),
        Found::Drops {
            body,
            place,
            object,
            left,
        } => Some(Step::Drops {
            body: *body,
            place: *place,
            object: *object,
            left: *left,
        }),
        Found::Calls {
            callee,
            handler,
            info,
            left,
        } => Some(Step::Calls {
            callee: *callee,
            handler: *handler,
            info: *info,
            left: *left,
        }),
        Found::Enters(phase) => Some(Step::Enters(*phase)),
        Found::Closes => Some(Step::Closes),
    }
}

/// A thread moves on by an entry that is no statement; `list` has the numbers of what it collects. The ground is as
/// before the entry.
#[inline(always)]
pub(crate) fn go_on(
    frames: &mut Vec<Frames>,
    ground: &Ground,
    t: ThreadId,
    found: &Found,
    answer: &Answer,
    list: &[u32],
)
    requires frames { AreFrames ground.now.script (state_of ground.now) frames.old.items }
    requires thread { t < ground.now.script.thread_count }
    requires step { IsSomeAnd (step_kept found.now) (IsStep ground.now.script (facts_of (state_of ground.now)) t
        (stand_at t (state_of ground.now).stands)) }
    requires room { HasRoom (length list.now) (standing_at frames.old.items t) }
    requires numbers { All IsObjectNumber list.now }
    ensures { IfSome (step_kept found.now) (MovesBy ground.now t answer.now list.now frames.new.items) }
{
    if let Some(step) = &step_of(ground, found) {
        frames[t.0 as usize].advance_by(ground.script(), ground, step, answer, list);
    }
}

/// A thread moves on by the entry of a statement, which is the last of the journal.
pub(crate) fn say_on(
    frames: &mut Vec<Frames>,
    ground: &Ground,
    t: ThreadId,
    statement: &Statement,
    finalised: Option<ObjId>,
    list: &[u32],
)
    requires thread { t < length frames.old.items }
    requires number { (top_frame (standing_at frames.old.items t).stand.frames).number + 1 < 2 ^ 32 }
    requires room { SaysRoom statement.now finalised (length list.now) (standing_at frames.old.items t) }
    requires list { SaysList statement.now list.now }
    ensures { (s : ScriptValue) (stands : List Stand) (facts : Known) (answer : AnswerValue)
        → StandSo s stands frames.old.items → facts.time ≡ (state_of ground.now).parts.time
        → IsLastAnswer ground.now.journal (Some answer)
        → HasMoved s stands t (advanced facts t (does (says statement.now)) answer (option_to_list finalised) list.now
        (stand_at t stands)) frames.new.items }
{
    if let Some(answer) = ground.last_answer() {
        frames[t.0 as usize].say(statement, ground.time(), answer, finalised, list);
    }
}
