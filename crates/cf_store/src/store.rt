//! Bodies by number.
ghost use Rattle.std.specs.Prelude.{◌≡◌, ◌+◌, ◌-◌, ◌≤◌, ◌<◌, ◌++◌, ◌∷◌, [], true, false, None, Some, length, map, slice_get, vec_len, vec_capacity, IfOk, IfSome, IfNone, IsSome, OnOk, OnErr, OnSome};
ghost use Rattle.std.specs.Option.{option_map};
ghost use Rattle.cf_ids.specs.declared.limits.TheConstants.{OBJECTS};
ghost use Rattle.cf_contents.specs.Contents.{present};
ghost use Rattle.cf_contents.specs.Deeds.{object_of, coming_in, going_out, taken_in, given_out};
ghost use Rattle.cf_body.specs.Bodies.{held_of};
ghost use Rattle.cf_body.specs.Changes.{done_of};
ghost use Rattle.cf_store.specs.Applies.{IsReadyAt, IsDeed, body_at, ready_by};
ghost use Rattle.cf_store.specs.Sources.{IsNewBody};
ghost use Rattle.cf_contents.specs.Stores.{Held, MayGrow, objects_of, ready_deed, with_body, body_finalised, body_dropped, bodies_changed, is_live_in, given_up_in, left_in};

use crate::bodies::{change_body, make_room, plan_among, sort_bodies};
use crate::index::SourceIndex;
use crate::plan::{Origin, Plan, ReadyPlan, set_ready};
use cf_body::{Body, Moved};
use cf_ids::{Answer, ObjId, TypeId};
use cf_syntax::{ClassLine, Statement};
use std::alloc::{AllocError as NoMemory, Global};
use std::marker::Model;

/// What a deed has done.
#[derive(Drop)]
pub struct Edited {
    /// What the statement answers where nothing else decides its answer.
    pub answer: Answer,
    /// Where the object comes from that is bound.
    pub origin: Origin,
    /// The objects that came into the body, one for each slot more.
    pub took: [Option<ObjId>; 2],
    /// The objects that went out of it, in order.
    pub gave: [Option<ObjId>; 2],
}

/// The bodies of all objects that were made, by number, the deed for which room was made, and the table of the sources
/// among the bodies.
#[derive(Drop)]
pub struct Store {
    pub(crate) bodies: Vec<Body>,
    pub(crate) ready: Option<ReadyPlan>,
    pub(crate) sources: SourceIndex,
}

impl Model for Store {
    ghost use Rattle.std.specs.Prelude.{◌-◌, map, min, vec_len, vec_capacity};
    ghost use Rattle.std.specs.Option.{option_map};
    ghost use Rattle.cf_contents.specs.Stores.{StoreView};

    ghost Value = { StoreView };

    ghost use Rattle.cf_body.specs.Bodies.{held_of};
    ghost use Rattle.cf_store.specs.Applies.{ready_by};
    ghost use Rattle.cf_store.specs.Kept.{IsKept};

    ghost view = { λ s. record {
      bodies = map held_of s.bodies.items;
      ready = option_map ready_by s.ready;
      room = min (vec_capacity s.bodies - vec_len s.bodies) s.sources.room;
    } };

    ghost invariant = { λ s. IsKept s.bodies.items s.ready s.sources.sources };
}

impl Store {
    /// No bodies. It takes no memory.
    pub fn new(alloc: Global) -> Store
        ensures { result ≡ record { bodies = []; ready = None; room = 0 } }
    {
        Store {
            bodies: Vec::new(alloc),
            ready: None,
            sources: SourceIndex::new(alloc),
        }
    }

    /// How many objects were made.
    pub fn count(&self) -> usize
        ensures { result ≡ length self.now.bodies }
    {
        self.bodies.len()
    }

    /// The type of an object, or `None` if it was not made.
    pub fn class(&self, o: ObjId) -> Option<TypeId>
        ensures { result ≡ option_map (λ (h : Held). h.object.class) (slice_get self.now.bodies o) }
    {
        let body = self.bodies.get(o.0 as usize)?;
        Some(body.class())
    }

    /// Whether an object was made and is not finalised.
    pub fn is_live(&self, o: ObjId) -> bool
        ensures { result ≡ is_live_in self.now.bodies o }
    {
        match self.bodies.get(o.0 as usize) {
            Some(body) => !body.is_finalised(),
            None => false,
        }
    }

    /// How many of its slots a body has given up.
    pub fn given_up(&self, o: ObjId) -> u32
        ensures { result ≡ given_up_in self.now.bodies o }
    {
        match self.bodies.get(o.0 as usize) {
            Some(body) => body.given_up(),
            None => 0,
        }
    }

    /// The object in the slot at a place of those that a body had: none if the slot is given up, or was not
    /// there.
    pub fn slot(&self, o: ObjId, k: usize) -> Option<ObjId>
        ensures left { let given_up = given_up_in self.now.bodies o in
            given_up ≤ k → result ≡ slice_get (left_in self.now.bodies o) (k - given_up) }
        ensures given_up { k < given_up_in self.now.bodies o → result ≡ None }
        ensures few { OnSome result (k + 1 < 4294967296) }
    {
        let body = self.bodies.get(o.0 as usize)?;
        if k < body.given_up() as usize {
            return None;
        }
        body.slot(k)
    }

    /// Sorts the elements of each heap, so that each slot is found at once. It takes no memory.
    pub fn sort(&mut self)
        ensures { self.new ≡ self.old }
    {
        sort_bodies(&mut self.bodies);
    }

    /// Finalises an object: it gives up its slots from now on.
    pub fn retire(&mut self, o: ObjId)
        requires { is_live_in self.old.bodies o ≡ true }
        ensures bodies { self.new.bodies ≡ with_body body_finalised o self.old.bodies }
        ensures ready { self.new.ready ≡ self.old.ready }
        ensures room { self.new.room ≡ self.old.room }
    {
        self.bodies[o.0 as usize].retire();
    }

    /// Gives up the first slot that is left to a finalised object, and tells its place and the object in it.
    pub fn drop_slot(&mut self, o: ObjId) -> Option<(u32, ObjId)>
        requires { is_live_in self.old.bodies o ≡ false }
        ensures slot { let first = slice_get (left_in self.old.bodies o) 0 in
            result ≡ option_map (λ s. (given_up_in self.old.bodies o, s)) first }
        ensures given_up { OnSome result (self.new.bodies ≡ with_body body_dropped o self.old.bodies) }
        ensures ready { self.new.ready ≡ self.old.ready }
        ensures none { IfNone result (self.new ≡ self.old) }
        ensures room { self.new.room ≡ self.old.room }
    {
        let place = o.0 as usize;
        if self.bodies.len() <= place {
            return None;
        }
        self.bodies[place].drop_slot()
    }

    /// Makes the next object, of this new body. It takes no memory.
    pub fn make(&mut self, body: Body) -> ObjId
        requires room { 0 < self.old.room }
        requires few { length self.old.bodies < OBJECTS }
        requires new { IsNewBody body }
        ensures number { result ≡ length self.old.bodies }
        ensures bodies { self.new.bodies ≡ self.old.bodies ++ held_of body ∷ [] }
        ensures ready { self.new.ready ≡ None }
        ensures room { self.new.room + 1 ≡ self.old.room }
    {
        let number = ObjId(self.bodies.len() as u32);
        set_ready(&mut self.ready, None);
        self.sources.make(number, &body);
        self.bodies.push_reserved(body);
        number
    }

    /// Makes room for what a statement does: `used` are the objects of the variables that it uses, and `classes`
    /// those of its script. It is refused only for want of memory; that leaves the bodies and what was ready, and at
    /// most more room.
    pub fn reserve_for(
        &mut self,
        alloc: Global,
        classes: &[ClassLine],
        statement: &Statement,
        used: &[Option<ObjId>; 3],
    ) -> Result<(), NoMemory>
        requires { MayGrow self.old.bodies }
        ensures bodies { self.new.bodies ≡ self.old.bodies }
        ensures ready { OnOk result
            (self.new.ready ≡ Some (ready_deed classes.now self.old.bodies statement.now used.now)) }
        ensures room { OnOk result (0 < self.new.room) }
        ensures kept { self.old.room ≤ self.new.room }
        ensures refused { OnErr result (self.new.ready ≡ self.old.ready) }
    {
        self.bodies.reserve(1)?;
        self.sources.reserve()?;
        let ready = plan_among(alloc, classes, &self.bodies, statement, used)?;
        make_room(&mut self.bodies, ready.object, &ready.deed.change)?;
        set_ready(&mut self.ready, Some(ready));
        Ok(())
    }

    /// Does the deed for which room was made, and tells what it did. It takes no memory.
    pub fn apply(&mut self) -> Edited
        requires { IsSome self.old.ready }
        ensures deed { IfSome self.old.ready (λ r. IsDeed r.deed result) }
        ensures took { IfSome self.old.ready (λ r.
            present result.took ≡ taken_in (object_of (objects_of self.old.bodies) r.object) r.deed.change) }
        ensures gave { IfSome self.old.ready (λ r.
            present result.gave ≡ given_out (object_of (objects_of self.old.bodies) r.object) r.deed.change) }
        ensures bodies { IfSome self.old.ready
            (λ r. self.new.bodies ≡ bodies_changed r.object r.deed.change self.old.bodies) }
        ensures ready { self.new.ready ≡ None }
        ensures room { self.new.room ≡ self.old.room }
    {
        let Some(ReadyPlan { object, deed }) = self.ready.take() else {
            unreachable!()
        };
        let Plan {
            answer,
            origin,
            change,
        } = deed;
        let Moved { took, gave } = change_body(&mut self.bodies, object, change);
        Edited {
            answer,
            origin,
            took,
            gave,
        }
    }
}
