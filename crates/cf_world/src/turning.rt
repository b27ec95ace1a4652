//! The entries of callouts and of the phases of runs, and what they do to the ground of a world.
ghost use Rattle.std.specs.Prelude.{◌≡◌, [], length, map, replicate};
ghost use Rattle.cf_next.specs.Views.{callee_of};
ghost use Rattle.cf_scene.specs.Dealing.{spending};
ghost use Rattle.cf_next.specs.Stands.{item_of};
ghost use Rattle.cf_model.specs.State.{Parts};
ghost use Rattle.cf_model.specs.Steps.{fire_if};
ghost use Rattle.cf_world.specs.Entering.{HasEntered, IsCall, IsPass, IsSleep, IsSpend, IsValidCallee, MayAct, called_answer, gained_in};
ghost use Rattle.cf_world.specs.Grounds.{Mirrors, state_of};

use crate::counts::write;
use crate::ground::Ground;
use cf_ids::{Answer, ObjId, ThreadId};
use cf_model::Action;
use cf_next::Callee;
use cf_scene::{fire, sleep, spend};
use cf_store::Store;

impl Ground {
    /// An entry that leaves the ground as it is, with its answer and what it collects.
    pub fn enter_pass(&mut self, t: ThreadId, action: Action, answer: Answer, list: &[u32])
        requires acts { MayAct self.old t action }
        requires passes { IsPass self.old t answer list.now }
        ensures entered { HasEntered t action self.old self.new }
        ensures gained { gained_in self.old t ≡ [] }
    {
        let _ = list;
        write(&mut self.journal, t, action, answer);
    }

    /// The handler of what was collected is called: a source's signal is taken.
    pub fn enter_call(&mut self, t: ThreadId, action: Action, callee: &Callee, answer: Answer)
        requires acts { MayAct self.old t action }
        requires calls { IsCall self.old t (callee_of callee.now) }
        requires answers { answer ≡ called_answer self.old t (callee_of callee.now) }
        ensures entered { HasEntered t action self.old self.new }
    {
        fire_item(&mut self.store, callee);
        write(&mut self.journal, t, action, answer);
    }

    /// A run of a thread with this deadline sleeps, or finds that it need not. No item that is made has a date yet.
    pub fn enter_sleep(&mut self, t: ThreadId, action: Action, deadline: Option<u64>)
        requires acts { MayAct self.old t action }
        requires sleeps { IsSleep self.old t deadline }
        ensures entered { HasEntered t action self.old self.new }
        ensures gained { gained_in self.old t ≡ [] }
    {
        let answer = sleep(&mut self.flags, t, deadline, None, self.time);
        write(&mut self.journal, t, action, answer);
    }

    /// How many places an item leaves that is invalidated after its handler.
    pub fn places_of(&self, item: ObjId) -> usize
        ensures { map (λ r. r.object) (spending self.now.script (state_of self.now) item).leaves ≡ replicate result item }
    {
        match self.store.item(item) {
            Some(found) if found.valid => self.loops.everywhere(item),
            _ => 0,
        }
    }

    /// An item is invalidated after its handler, if it was not since, and leaves every place.
    pub fn enter_spend(&mut self, t: ThreadId, action: Action, item: ObjId)
        requires acts { MayAct self.old t action }
        requires spends { IsSpend self.old t item }
        ensures entered { HasEntered t action self.old self.new }
        ensures gained { gained_in self.old t ≡ [] }
    {
        let dealt = spend(&mut self.store, &mut self.loops, item);
        write(&mut self.journal, t, action, dealt.answer);
    }
}

/// The callout of what is called begins, which takes a source's signal.
fn fire_item(store: &mut Store, callee: &Callee)
    ensures { (p : Parts) → Mirrors p store.old.bodies → IsValidCallee p (callee_of callee.now)
        → Mirrors (fire_if p (item_of (callee_of callee.now))) store.new.bodies }
{
    if let Some(item) = callee.item() {
        fire(store, item);
    }
}
