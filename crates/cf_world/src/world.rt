//! The world.
ghost use Rattle.std.specs.Prelude.{◌≡◌, ◌-◌, ◌<◌, ◌≤◌, [], ◌∷◌, ◌++◌, Bool, length, slice_get, count_by, Some, None, IsSome, IsSomeAnd, IfOk, OnOk, OnErr};
ghost use Rattle.std.specs.Option.{option_map, option_copied};
ghost use Rattle.cf_ids.specs.declared.limits.TheConstants.{LARGEST_LIMIT};
ghost use Rattle.cf_graph.specs.declared.edge.Edge.{Edge};
ghost use Rattle.cf_graph.specs.Edges.{edges_of};
ghost use Rattle.cf_next.specs.Actions.{cut_of};
ghost use Rattle.cf_syntax.specs.Stage.{IsOfStage};
ghost use Rattle.cf_next.specs.declared.action.Action.TheVariants as actions;
ghost use Rattle.cf_world.specs.declared.next.LeadNext.TheVariants as leads;
ghost use Rattle.cf_world.specs.Worlds.{IsLegalWorld, IsThread, IsTick, acting, applied, edges_in, ended_in, entered, lead_in, led, made_in, next_in, nowhere, prepared, retained_by, retains_in};
ghost use Rattle.cf_world.specs.Ends.{given_back};

use crate::begun::Begun;
use crate::next::{LeadNext, Next};
use cf_graph::Edge;
use cf_ids::{Ended, ObjId, ThreadId};
use cf_model::Entry;
use cf_owncheck::Checked;
use std::alloc::{AllocError as NoMemory, Global};
use std::marker::Model;

/// The world of a run. Contracts see its script, its limit, its journal, what its last `apply` gained, and for whose
/// next action there is room; all else of it is the state after the journal.
#[derive(Drop)]
pub struct World {
    begun: Option<Begun>,
}

impl Model for World {
    ghost use Rattle.cf_world.specs.Worlds.{WorldView, world_of};

    ghost Value = { WorldView };

    ghost view = { λ w. world_of w.begun };
}

impl World {
    /// A world in which no script has begun. It takes no memory.
    pub fn empty() -> World
        ensures { result ≡ nowhere }
    {
        World { begun: None }
    }

    /// Begins a script, with the journal's room for `limit` entries, from 1 to 4,000,000, taken at once. `NoMemory`
    /// comes for want of memory alone, and leaves the world empty.
    pub fn begin(&mut self, alloc: Global, script: Checked, limit: u32) -> Result<(), NoMemory>
        requires empty { self.old ≡ nowhere }
        requires some { 1 ≤ limit }
        requires most { limit ≤ LARGEST_LIMIT }
        requires stage { IsOfStage script }
        ensures begun { OnOk result (self.new
            ≡ record { script = Some script; limit = limit; journal = []; gained = []; room = None }) }
        ensures refused { OnErr result (self.new ≡ nowhere) }
    {
        self.begun = Some(Begun::new(alloc, script, limit)?);
        Ok(())
    }

    /// The script, once one has begun.
    pub fn script(&self) -> Option<&Checked>
        ensures { option_copied result ≡ self.now.script }
    {
        match &self.begun {
            Some(begun) => Some(begun.checked()),
            None => None,
        }
    }

    /// The script and the journal. It takes no memory. `None` if no script has begun.
    pub fn end(self) -> Option<(Checked, Vec<Entry>)>
        ensures { option_map given_back result ≡ option_map (λ s. record { script = s; journal = self.journal }) self.script }
    {
        match self.begun {
            Some(begun) => Some(begun.end()),
            None => None,
        }
    }

    /// The entries so far.
    pub fn journal(&self) -> &[Entry]
        ensures entries { result.now ≡ self.now.journal }
        ensures legal { IsLegalWorld self.now }
    {
        match &self.begun {
            Some(begun) => begun.journal(),
            None => &[],
        }
    }

    /// The object of each reference that the last `apply` added, one for each.
    pub fn gained(&self) -> &[ObjId]
        ensures { result.now ≡ self.now.gained }
    {
        match &self.begun {
            Some(begun) => begun.gained(),
            None => &[],
        }
    }

    /// How many entries may still be made: none before a script begins.
    pub fn room(&self) -> u32
        ensures { result ≡ self.now.limit - length self.now.journal }
    {
        match &self.begun {
            Some(begun) => begun.room(),
            None => 0,
        }
    }

    /// How many objects were made.
    pub fn made(&self) -> usize
        ensures { result ≡ made_in self.now }
    {
        match &self.begun {
            Some(begun) => begun.made(),
            None => 0,
        }
    }

    /// Sorts the elements of each heap, after which `edges` finds each slot at once. It takes no memory.
    pub fn sort(&mut self)
        ensures { self.new ≡ self.old }
    {
        if let Some(begun) = &mut self.begun {
            begun.sort();
        }
    }

    /// The references, each as often as there are, in any order. After `sort` it takes time linear in the lines so
    /// far, the references and the objects. `NoMemory` comes for want of memory alone.
    pub fn edges(&self, alloc: Global) -> Result<Vec<Edge>, NoMemory>
        ensures { IfOk result (λ es. (p : Edge → Bool) → count_by p es.items ≡ count_by p (edges_of (edges_in self.now))) }
    {
        match &self.begun {
            Some(begun) => begun.edges(alloc),
            None => Ok(Vec::new(alloc)),
        }
    }

    /// What a thread does next.
    pub fn next(&self, t: ThreadId) -> Next
        requires { IsThread self.now t }
        ensures { result ≡ next_in self.now t }
    {
        match &self.begun {
            Some(begun) => begun.next(t),
            None => Next::Waiting,
        }
    }

    /// What a thread does next; if it acts, there is room for that after it, as by `reserve`. A refusal changes nothing.
    pub fn prepare(&mut self, alloc: Global, t: ThreadId) -> Result<Next, NoMemory>
        requires { IsThread self.old t }
        ensures next { IfOk result (λ n. n ≡ next_in self.old t) }
        ensures room { OnOk result (self.new ≡ prepared t self.old) }
        ensures refused { OnErr result (self.new ≡ self.old) }
    {
        match &mut self.begun {
            Some(begun) => begun.prepare(alloc, t),
            None => Ok(Next::Waiting),
        }
    }

    /// Makes room for the next action of a thread, after which `apply` and `release` take no memory. A refusal changes
    /// nothing.
    pub fn reserve(&mut self, alloc: Global, t: ThreadId) -> Result<(), NoMemory>
        requires thread { IsThread self.old t }
        requires acts { IsSome (acting self.old t) }
        ensures room { OnOk result (self.new ≡ record self.old { room = Some t }) }
        ensures refused { OnErr result (self.new ≡ self.old) }
    {
        match self.prepare(alloc, t) {
            Ok(_) => Ok(()),
            Err(error) => Err(error),
        }
    }

    /// The object of the (k+1)-th next action of a thread, where the next k+1 actions are all retains of objects. It
    /// takes no memory.
    pub fn ahead(&self, t: ThreadId, k: usize) -> Option<ObjId>
        requires { IsThread self.now t }
        ensures { result ≡ slice_get (retains_in self.now t) k }
    {
        match &self.begun {
            Some(begun) => begun.ahead(t, k),
            None => None,
        }
    }

    /// Does the next action of a thread, which takes no reference away.
    pub fn apply(&mut self, t: ThreadId)
        requires room { self.old.room ≡ Some t }
        requires acts { IsSomeAnd (acting self.old t) (λ a. cut_of a ≡ None) }
        ensures entered { self.new ≡ applied t self.old }
        ensures legal { IsLegalWorld self.new }
    {
        if let Some(begun) = &mut self.begun {
            begun.apply(t);
        }
    }

    /// Does the next action of a thread, which is a retain that was made before.
    pub fn book(&mut self, t: ThreadId, o: ObjId)
        requires thread { IsThread self.old t }
        requires acts { IsSomeAnd (acting self.old t) (λ a. retained_by a ≡ Some o) }
        ensures entered { self.new ≡ entered t self.old }
        ensures legal { IsLegalWorld self.new }
    {
        if let Some(begun) = &mut self.begun {
            begun.book(t, o);
        }
    }

    /// Does the next action of a thread, which is a release of a reference to an object, or gives up a slot that holds
    /// one. `ended` is what that leaves.
    pub fn release(&mut self, t: ThreadId, o: ObjId, ended: Ended)
        requires room { self.old.room ≡ Some t }
        requires acts { IsSomeAnd (acting self.old t) (λ a. cut_of a ≡ Some o) }
        requires ended { ended ≡ ended_in self.old o }
        ensures entered { self.new ≡ entered t self.old }
        ensures legal { IsLegalWorld self.new }
    {
        if let Some(begun) = &mut self.begun {
            begun.release(t, o, ended);
        }
    }

    /// What the lead does next.
    pub fn lead_next(&self) -> LeadNext
        ensures { result ≡ lead_in self.now }
    {
        match &self.begun {
            Some(begun) => begun.lead_next(),
            None => LeadNext::Over,
        }
    }

    /// Lets time move to this time, in ticks, which wakes exactly the sleepers whose date is at most that.
    pub fn tick(&mut self, time: u64)
        requires due { IsTick (lead_in self.old) time }
        requires below { length self.old.journal < self.old.limit }
        ensures entered { self.new ≡ led (actions.Tick time) self.old }
        ensures legal { IsLegalWorld self.new }
    {
        if let Some(begun) = &mut self.begun {
            begun.tick(time);
        }
    }

    /// Writes that all threads sleep and none has a date.
    pub fn stall(&mut self)
        requires due { lead_in self.old ≡ leads.Stall }
        requires below { length self.old.journal < self.old.limit }
        ensures entered { self.new ≡ led actions.Stall self.old }
        ensures legal { IsLegalWorld self.new }
    {
        if let Some(begun) = &mut self.begun {
            begun.stall();
        }
    }
}
