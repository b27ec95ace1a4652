//! The entries of statements over run loops, and what they do to the ground of a world.
ghost use Rattle.std.specs.List.{All};
ghost use Rattle.std.specs.Prelude.{◌≡◌, ◌+◌, ◌<◌, ◌≤◌, ◌++◌, [], ℕ, List, IfSome, IsSomeAnd, length, replicate, true, vec_len, vec_capacity, OnOk, OnErr};
ghost use Rattle.cf_ids.specs.Ranges.{IsObjectNumber};
ghost use Rattle.cf_syntax.specs.Numbered.{NamesThread};
ghost use Rattle.cf_next.specs.Views.{objects_of};
ghost use Rattle.cf_scene.specs.Needs.{MovesAtMost, acts_on_loops};
ghost use Rattle.cf_syntax.specs.declared.script.Script.{Script as ScriptValue};
ghost use Rattle.cf_next.specs.Stands.{Stand};
ghost use Rattle.cf_model.specs.Steps.{stopped_at};
ghost use Rattle.cf_world.specs.Begun.{AreFrames, HasGone, HasLists, IsDeals, IsReserved, MovesIf, StandSo};
ghost use Rattle.cf_world.specs.Grounds.{PlaceIf, state_of, statement_at};
ghost use Rattle.cf_world.specs.Entering.{HasEntered, IsDealing, MayAct, gained_in, listed_in, stops_of, used_in};

use crate::applying::{first, say_on};
use crate::counts::write;
use crate::found::{Found, Reserved};
use crate::ground::{Ground, statement_in};
use crate::running::push_copies;
use cf_ids::{ObjId, ThreadId};
use cf_model::Action;
use cf_next::{Frames, Used};
use cf_scene::{Acting, Dealt, gain_common, most_moved, reserve_places, thread_of};
use cf_syntax::Statement;
use std::alloc::AllocError as NoMemory;

/// A statement over run loops, as it is entered: where it stands, its action, and who says it of what.
#[derive(Clone, Copy)]
pub(crate) struct Saying {
    /// The number of its block in the script.
    pub block: u16,
    /// Its number in the block.
    pub number: u32,
    /// Its action.
    pub action: Action,
    /// The thread that says it, the object of its variable, and whether the thread that it tells to stop has a run.
    pub acting: Acting,
}

impl Ground {
    /// Makes room in the loop that a statement of a thread names for what it adds. It is refused only for want of
    /// memory, and that changes nothing.
    pub fn reserve_place(&mut self, t: ThreadId, block: u16, number: u32) -> Result<(), NoMemory>
        requires thread { t < self.old.script.thread_count }
        requires named { IfSome (statement_at self.old.script block number) (NamesThread self.old.script.thread_count) }
        ensures script { self.new.script ≡ self.old.script }
        ensures journal { self.new.journal ≡ self.old.journal }
        ensures journal_room { self.new.journal_room ≡ self.old.journal_room }
        ensures ready_kept { self.new.ready ≡ self.old.ready }
        ensures body_room { self.new.body_room ≡ self.old.body_room }
        ensures place { OnOk result (PlaceIf self.new t (statement_at self.new.script block number)) }
        ensures refused { OnErr result (self.new.loops ≡ self.old.loops) }
    {
        match statement_in(self.script.script(), block, number) {
            Some(statement) => reserve_places(&mut self.loops, t, statement),
            None => Ok(()),
        }
    }

    /// How many references a statement over run loops moves at most, which a thread says of the objects that it uses.
    pub fn most_moved(&self, t: ThreadId, block: u16, number: u32, used: &Used) -> usize
        requires thread { t < self.now.script.thread_count }
        requires named { IfSome (statement_at self.now.script block number) (NamesThread self.now.script.thread_count) }
        requires acts { IfSome (statement_at self.now.script block number) (λ x. acts_on_loops x ≡ true) }
        ensures { MovesIf self.now t (objects_of used.now) result (statement_at self.now.script block number) }
    {
        let [object, _, _] = used.objects();
        match self.statement(block, number) {
            Some(statement) => most_moved(&self.loops, t, object, statement),
            None => 0,
        }
    }

    /// A statement over run loops: what comes into places of loops is gained, and what goes out of them is listed.
    pub fn enter_deal(&mut self, said: &Saying, gained: &mut Vec<ObjId>, list: &mut Vec<u32>)
        requires acts { MayAct self.old said.now.acting.thread said.now.action }
        requires deals { IsSomeAnd (statement_at self.old.script said.now.block said.now.number)
            (IsDealing self.old said.now.acting.thread said.now.acting.object said.now.acting.runs) }
        requires most { IfSome (statement_at self.old.script said.now.block said.now.number) (λ x.
            MovesAtMost self.old.script said.now.acting.thread (state_of self.old) x
            (used_in self.old said.now.acting.thread x) (vec_capacity gained.old)) }
        requires most_left { IfSome (statement_at self.old.script said.now.block said.now.number) (λ x.
            MovesAtMost self.old.script said.now.acting.thread (state_of self.old) x
            (used_in self.old said.now.acting.thread x) (vec_capacity list.old)) }
        requires no_gained { gained.old.items ≡ [] }
        requires no_list { list.old.items ≡ [] }
        ensures entered { HasEntered said.now.acting.thread said.now.action self.old self.new }
        ensures gained { gained.new.items ≡ gained_in self.old said.now.acting.thread }
        ensures gained_room { vec_capacity gained.new ≡ vec_capacity gained.old }
        ensures list { list.new.items ≡ listed_in self.old said.now.acting.thread }
        ensures list_room { vec_capacity list.new ≡ vec_capacity list.old }
        ensures numbers { All IsObjectNumber list.new.items }
    {
        let Some(statement) = statement_in(self.script.script(), said.block, said.number) else {
            return;
        };
        gain_common(&self.loops, said.acting.thread, statement, gained);
        let Dealt {
            answer,
            item,
            came,
            went,
        } = cf_scene::deal(
            &mut self.store,
            &mut self.loops,
            &mut self.flags,
            &said.acting,
            statement,
        );
        push_gains(gained, item, came);
        push_copies(list, item, went);
        write(&mut self.journal, said.acting.thread, said.action, answer);
    }
}

/// A list gets an object so often, after what it has.
fn push_gains(gained: &mut Vec<ObjId>, object: ObjId, times: usize)
    requires room { vec_len gained.old + times ≤ vec_capacity gained.old }
    ensures items { gained.new.items ≡ gained.old.items ++ replicate times object }
    ensures room { vec_capacity gained.new ≡ vec_capacity gained.old }
{
    for _ in 0..times {
        gained.push_reserved(object);
    }
}

// ---- a world goes on by it

/// A thread says a statement over run loops.
pub(crate) fn deal(
    ground: &mut Ground,
    frames: &mut Vec<Frames>,
    gained: &mut Vec<ObjId>,
    list: &mut Vec<u32>,
    reserved: &Reserved,
)
    requires reserved { IsReserved ground.old frames.old.items reserved.now }
    requires frames { AreFrames ground.old.script (state_of ground.old) frames.old.items }
    requires deals { IsDeals reserved.now.found }
    requires no_gained { gained.old.items ≡ [] }
    requires no_list { list.old.items ≡ [] }
    requires lists { HasLists ground.old frames.old.items (vec_capacity gained.old) (vec_capacity list.old) reserved.now }
    ensures gone { HasGone reserved.now ground.old ground.new frames.new.items }
    ensures gained { gained.new.items ≡ gained_in ground.old reserved.now.thread }
    ensures gained_room { vec_capacity gained.new ≡ vec_capacity gained.old }
    ensures list_room { vec_capacity list.new ≡ vec_capacity list.old }
{
    let Found::Deals {
        block,
        number,
        used,
    } = reserved.found
    else {
        return;
    };
    let t = reserved.thread;
    let stopped = stopped_by(ground, frames.as_slice(), t, block, number);
    let said = Saying {
        block,
        number,
        action: reserved.action,
        acting: Acting {
            thread: t,
            object: first(&used),
            runs: stopped.is_some(),
        },
    };
    ground.enter_deal(&said, gained, list);
    if let Some(statement) = ground.statement(block, number) {
        say_on(frames, ground, t, statement, None, list.as_slice());
        stop_run(frames, stopped);
    }
}

/// The thread whose run a statement of a thread stops, if it stops one.
fn stopped_by(
    ground: &Ground,
    frames: &[Frames],
    t: ThreadId,
    block: u16,
    number: u32,
) -> Option<ThreadId>
    requires frames { AreFrames ground.now.script (state_of ground.now) frames.now }
    requires named { IfSome (statement_at ground.now.script block number) (NamesThread ground.now.script.thread_count) }
    requires thread { t < ground.now.script.thread_count }
    ensures { IfSome (statement_at ground.now.script block number) (λ x. result ≡ stops_of t (state_of ground.now).stands x) }
{
    let Some(Statement::Stop { thread }) = ground.statement(block, number) else {
        return None;
    };
    let named = thread_of(t, thread)?;
    if frames[named.0 as usize].mode().is_some() {
        Some(named)
    } else {
        None
    }
}

/// The innermost run of a thread is told to stop, if there is one.
fn stop_run(frames: &mut Vec<Frames>, stopped: Option<ThreadId>)
    requires { IfSome stopped (λ u. u < length frames.old.items) }
    ensures { (s : ScriptValue) (stands : List Stand) → StandSo s stands frames.old.items
        → StandSo s (stopped_at stopped stands) frames.new.items }
{
    if let Some(thread) = stopped {
        frames[thread.0 as usize].stop();
    }
}
