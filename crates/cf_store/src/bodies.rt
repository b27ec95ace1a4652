//! The bodies among which a statement acts.
ghost use Rattle.std.specs.Prelude.{◌≡◌, ◌<◌, map, length, Some, None, vec_len, vec_capacity, IfOk, IfSome, IfNone, OnOk, OnErr};
ghost use Rattle.cf_contents.specs.Contents.{present};
ghost use Rattle.cf_contents.specs.Deeds.{object_of, taken_in, given_out};
ghost use Rattle.cf_body.specs.Bodies.{held_of};
ghost use Rattle.cf_body.specs.Changes.{done_of, CanBe};
ghost use Rattle.cf_store.specs.Applies.{IsNew, IsReadyAt, body_at, ready_by};
ghost use Rattle.cf_contents.specs.Stores.{MayGrow, objects_of, ready_deed, bodies_changed};

use crate::plan::ReadyPlan;
use crate::plans::plan_of;
use crate::seen::{Found, see};
use cf_body::{Body, BodyChange, Moved};
use cf_ids::ObjId;
use cf_syntax::{ClassLine, Statement};
use std::alloc::{AllocError as NoMemory, Global};

/// What a statement does among bodies, where it uses these objects.
pub(crate) fn plan_among(
    alloc: Global,
    classes: &[ClassLine],
    bodies: &[Body],
    statement: &Statement,
    used: &[Option<ObjId>; 3],
) -> Result<ReadyPlan, NoMemory>
    ensures ready { IfOk result
        (λ r. ready_by r ≡ ready_deed classes.now (map held_of bodies.now) statement.now used.now) }
    ensures new { IfOk result (λ r. IsNew r.deed.origin) }
    ensures can { IfOk result (λ r. IfSome (body_at bodies.now r.object) (λ b. CanBe r.deed.change b.content)) }
{
    let found = Found {
        first: see(bodies, used[0]),
        second: see(bodies, used[1]),
        third: see(bodies, used[2]),
    };
    let deed = plan_of(alloc, classes, statement, &found)?;
    Ok(ReadyPlan {
        object: used[0],
        deed,
    })
}

/// Where the body of an object stands, if it was made.
fn place_of(bodies: &[Body], object: Option<ObjId>) -> Option<usize>
    ensures made { IfSome result (λ place. (object ≡ Some place) × (place < length bodies.now)) }
    ensures none { IfNone result (body_at bodies.now object ≡ None) }
{
    let place = object?.0 as usize;
    if place < bodies.len() {
        Some(place)
    } else {
        None
    }
}

/// Makes room for a change of the body of an object.
pub(crate) fn make_room(
    bodies: &mut Vec<Body>,
    object: Option<ObjId>,
    change: &BodyChange,
) -> Result<(), NoMemory>
    requires can { IfSome (body_at bodies.old.items object) (λ b. CanBe change.now b.content) }
    requires few { MayGrow (map held_of bodies.old.items) }
    ensures held { map held_of bodies.new.items ≡ map held_of bodies.old.items }
    ensures ready { OnOk result (IsReadyAt change.now (body_at bodies.new.items object)) }
    ensures refused { OnErr result (bodies.new.items ≡ bodies.old.items) }
    ensures len { vec_len bodies.new ≡ vec_len bodies.old }
    ensures capacity { vec_capacity bodies.new ≡ vec_capacity bodies.old }
{
    match place_of(bodies, object) {
        Some(place) => bodies[place].reserve(change),
        None => Ok(()),
    }
}

/// Changes the body of an object, where it was made.
pub(crate) fn change_body(
    bodies: &mut Vec<Body>,
    object: Option<ObjId>,
    change: BodyChange,
) -> Moved
    requires { IsReadyAt change (body_at bodies.old.items object) }
    ensures bodies { map held_of bodies.new.items
        ≡ bodies_changed object (done_of change) (map held_of bodies.old.items) }
    ensures took { let old = objects_of (map held_of bodies.old.items) in
        present result.took ≡ taken_in (object_of old object) (done_of change) }
    ensures gave { let old = objects_of (map held_of bodies.old.items) in
        present result.gave ≡ given_out (object_of old object) (done_of change) }
    ensures len { vec_len bodies.new ≡ vec_len bodies.old }
    ensures capacity { vec_capacity bodies.new ≡ vec_capacity bodies.old }
{
    match place_of(bodies, object) {
        Some(place) => bodies[place].change(change),
        None => Moved::nothing(),
    }
}

/// Sorts the elements of each heap.
pub(crate) fn sort_bodies(bodies: &mut Vec<Body>)
    ensures items { bodies.new.items ≡ bodies.old.items }
    ensures len { vec_len bodies.new ≡ vec_len bodies.old }
    ensures capacity { vec_capacity bodies.new ≡ vec_capacity bodies.old }
{
    for place in 0..bodies.len() {
        bodies[place].sort();
    }
}
