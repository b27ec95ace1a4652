//! Whether an entry may use what it uses.
ghost use Rattle.std.specs.Prelude.{◌≡◌, ◌↔◌, ◌||◌, ◌&&◌, ℕ, List, [], ◌∷◌, Some, ◌==◌, nat_lt, true};
ghost use Rattle.cf_next.specs.Actions.{site_of};
ghost use Rattle.std.specs.List.{list_any};
ghost use Rattle.cf_graph.specs.declared.edge.Owner.{Owner};
ghost use Rattle.cf_graph.specs.Edges.{from_thread, weigh};
ghost use Rattle.cf_graph.specs.Holders.{owner_of};
ghost use Rattle.cf_graph.specs.Owners.{is_at_hand, is_thread};
ghost use Rattle.cf_next.specs.declared.action.Action.TheVariants as actions;
ghost use Rattle.cf_model.specs.Journals.{MayUseAll, action_uses, is_same_slot, knows, owners_of, reaches, reaches_all, reaching, site_uses, takes, uses_if, uses_of};
ghost use Rattle.cf_references.specs.Views.{holder_of};
ghost use Rattle.cf_state.specs.States.{state_of};
ghost use Rattle.cf_machine.specs.Uses.{owners_by};

use cf_deals::first_of;
use cf_ids::{Answer, ObjId};
use cf_next::Action;
use cf_references::{Holder, Reference};
use cf_same::used_of;
use cf_state::State;

/// Whether a holder is at hand to a thread, or is a slot of a body.
fn is_reaching(thread: usize, body: &Option<ObjId>, holder: &Holder) -> bool
    ensures { let owner = owner_of (holder_of holder.now) in
        result ≡ (is_at_hand thread owner || list_any (is_same_slot owner) (owners_by body.now)) }
{
    match holder {
        Holder::Variable { thread: own, .. }
        | Holder::Callout { thread: own, .. }
        | Holder::Owed { thread: own }
        | Holder::Parcel { thread: own, .. }
        | Holder::InMode { thread: own, .. }
        | Holder::InCommon { thread: own } => thread == *own,
        Holder::Slot { body: own } => match *body {
            Some(body) => body.0 as usize == *own,
            None => false,
        },
    }
}

/// Whether a reference leads to an object, and a thread holds it itself.
fn is_own(thread: usize, object: ObjId, edge: &Reference) -> bool
    ensures { result ≡ ((edge.now.object == object) && is_thread thread (owner_of edge.now.holder)) }
{
    edge.object() == object && edge.is_of_thread(thread)
}

/// Whether a reference leads to an object, and is at hand to a thread or held by a body.
fn is_at_hand(thread: usize, body: &Option<ObjId>, object: ObjId, edge: &Reference) -> bool
    ensures { let owner = owner_of edge.now.holder in result ≡ ((edge.now.object == object)
        && (is_at_hand thread owner || list_any (is_same_slot owner) (owners_by body.now))) }
{
    edge.object() == object && is_reaching(thread, body, edge.holder())
}

/// Whether a thread itself has a reference to an object.
fn has_own(edges: &[Reference], thread: usize, object: ObjId) -> bool
    ensures { result ≡ nat_lt 0 (weigh (from_thread thread object) edges.now) }
{
    let mut rest = edges;
    while let Some((edge, others)) = rest.split_first() {
        if is_own(thread, object, edge) {
            return true;
        }
        rest = others;
    }
    false
}

/// Whether a thread has an object at hand, by its own references or those of a body.
fn has_at_hand(edges: &[Reference], thread: usize, body: &Option<ObjId>, object: ObjId) -> bool
    ensures { result ≡ nat_lt 0 (weigh (reaching thread (owners_by body.now) object) edges.now) }
{
    let mut rest = edges;
    while let Some((edge, others)) = rest.split_first() {
        if is_at_hand(thread, body, object, edge) {
            return true;
        }
        rest = others;
    }
    false
}

/// Whether both of two tests are true.
fn both(first: bool, second: bool) -> bool
    ensures { result ≡ (first && second) }
{
    first && second
}

/// Whether a thread itself has a reference to an object, in a state.
fn holds_own(state: &State, thread: usize, object: ObjId) -> bool
    ensures { result ≡ nat_lt 0 (weigh (from_thread thread object) state.now.edges.items) }
{
    has_own(state.edges.as_slice(), thread, object)
}

/// Whether a thread has an object at hand, by its own references or those of a body, in a state.
fn holds_at_hand(state: &State, thread: usize, body: &Option<ObjId>, object: ObjId) -> bool
    ensures { result ≡ nat_lt 0 (weigh (reaching thread (owners_by body.now) object) state.now.edges.items) }
{
    has_at_hand(state.edges.as_slice(), thread, body, object)
}

/// Whether a thread itself has a reference to an object that is live.
fn takes_live(state: &State, thread: usize, object: ObjId) -> bool
    ensures { (owners : List Owner) → (result ≡ true)
        ↔ MayUseAll (state_of state.now) thread owners (takes object ∷ []) }
{
    both(
        state.parts.is_live(object),
        holds_own(state, thread, object),
    )
}

/// Whether an object is live and at hand.
fn reaches_live(state: &State, thread: usize, body: &Option<ObjId>, object: ObjId) -> bool
    ensures { (result ≡ true)
        ↔ MayUseAll (state_of state.now) thread (owners_by body.now) (reaches object ∷ []) }
{
    let held = holds_at_hand(state, thread, body, object);
    both(state.parts.is_live(object), held)
}

/// Whether an object is live.
fn knows_live(state: &State, thread: usize, object: ObjId) -> bool
    ensures { (owners : List Owner) → (result ≡ true)
        ↔ MayUseAll (state_of state.now) thread owners (knows object ∷ []) }
{
    let _ = thread;
    state.parts.is_live(object)
}

/// Whether a thread itself has a reference to an object that is live, if there is one.
fn may_take(state: &State, thread: usize, object: &Option<ObjId>) -> bool
    ensures { (owners : List Owner) → (result ≡ true)
        ↔ MayUseAll (state_of state.now) thread owners (uses_if takes object.now) }
{
    match *object {
        Some(object) => takes_live(state, thread, object),
        None => true,
    }
}

/// Whether an object is live and at hand, if there is one.
fn may_reach(state: &State, thread: usize, body: &Option<ObjId>, object: &Option<ObjId>) -> bool
    ensures { (result ≡ true)
        ↔ MayUseAll (state_of state.now) thread (owners_by body.now) (uses_if reaches object.now) }
{
    match *object {
        Some(object) => reaches_live(state, thread, body, object),
        None => true,
    }
}

/// Whether an object is live, if there is one.
fn may_know(state: &State, thread: usize, object: &Option<ObjId>) -> bool
    ensures { (owners : List Owner) → (result ≡ true)
        ↔ MayUseAll (state_of state.now) thread owners (uses_if knows object.now) }
{
    match *object {
        Some(object) => knows_live(state, thread, object),
        None => true,
    }
}

/// Whether three objects are live and at hand, each if there is one.
fn may_reach_all(state: &State, thread: usize, used: &[Option<ObjId>; 3]) -> bool
    ensures { (result ≡ true) ↔ MayUseAll (state_of state.now) thread [] (reaches_all used.now) }
{
    let none = None;
    let first = may_reach(state, thread, &none, &used[0]);
    let second = may_reach(state, thread, &none, &used[1]);
    let third = may_reach(state, thread, &none, &used[2]);
    both(first, both(second, third))
}

/// Whether an item is live and at hand, and what it has as its info.
fn may_call_item(state: &State, thread: usize, item: ObjId, info: &Option<ObjId>) -> bool
    ensures { (result ≡ true) ↔ MayUseAll (state_of state.now) thread (owners_by (Some item))
        (reaches item ∷ uses_if reaches info.now) }
{
    let body = Some(item);
    let first = reaches_live(state, thread, &body, item);
    let second = may_reach(state, thread, &body, info);
    both(first, second)
}

/// Whether the item of a call is live and at hand, and what it has as its info; a notice's call has no item.
fn may_call(state: &State, thread: usize, item: &Option<ObjId>, info: &Option<ObjId>) -> bool
    ensures { (handler : ℕ) → let call = actions.Call handler item.now info.now in (result ≡ true)
        ↔ MayUseAll (state_of state.now) thread (owners_of call) (action_uses call) }
{
    match *item {
        Some(item) => may_call_item(state, thread, item, info),
        None => may_know(state, thread, info),
    }
}

/// Whether an action may use each of the objects of its statement, if one writes it.
fn may_say(state: &State, thread: usize, action: &Action) -> bool
    ensures { (result ≡ true) ↔ MayUseAll (state_of state.now) thread [] (site_uses (site_of action.now)) }
{
    match used_of(action) {
        Some(used) => may_reach_all(state, thread, used),
        None => true,
    }
}

/// Whether an action may use each of its objects.
fn may_act(state: &State, thread: usize, action: &Action) -> bool
    ensures { (result ≡ true)
        ↔ MayUseAll (state_of state.now) thread (owners_of action.now) (action_uses action.now) }
{
    match action {
        Action::Release { used, .. } => may_take(state, thread, &first_of(used)),
        Action::Pack(_, object) => may_take(state, thread, object),
        Action::Claim(object) => may_reach(state, thread, &None, object),
        Action::Owed(object) => takes_live(state, thread, *object),
        Action::DropSlot { body, object, .. } => {
            reaches_live(state, thread, &Some(*body), *object)
        }
        Action::Call { item, info, .. } => may_call(state, thread, item, info),
        Action::Spend(item) => reaches_live(state, thread, &None, *item),
        _ => may_say(state, thread, action),
    }
}

/// Whether an entry may use each of its objects; one that is skipped uses nothing.
pub(crate) fn may_use_all(state: &State, thread: usize, action: &Action, answer: &Answer) -> bool
    ensures { (result ≡ true)
        ↔ MayUseAll (state_of state.now) thread (owners_of action.now) (uses_of action.now answer.now) }
{
    match answer {
        Answer::Skip => true,
        _ => may_act(state, thread, action),
    }
}
