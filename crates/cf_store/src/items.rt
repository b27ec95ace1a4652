//! The items of run loops among the bodies.
ghost use Rattle.std.specs.Prelude.{◌≡◌, ◌+◌, ◌≤◌, ◌<◌, ◌++◌, Some, true, false, map, length, vec_len, vec_capacity, Option};
ghost use Rattle.std.specs.Option.{option_map};
ghost use Rattle.rl_base.specs.Signals.{ready_sources};
ghost use Rattle.cf_contents.specs.Deeds.{in_item};
ghost use Rattle.cf_contents.specs.Stores.{bodies_changed};
ghost use Rattle.cf_body.specs.Bodies.{held_of};
ghost use Rattle.cf_body.specs.Items.{item_of, seen_of};
ghost use Rattle.cf_store.specs.Applies.{IsReadyIn};
ghost use Rattle.cf_store.specs.Sources.{item_at, is_valid_source, is_signalled_source, with_signal, signalling, calling_out, invalidating, sources_in};
ghost use Rattle.cf_store.specs.declared.plan.ReadyPlan.{ReadyPlan};

use crate::store::Store;
use cf_body::{Body, ItemState, LoopItem};
use cf_ids::{HandlerId, Item, ObjId};

impl Store {
    /// The item of a number; `None` exactly if that is no item that was made.
    pub fn item(&self, o: ObjId) -> Option<LoopItem>
        ensures { option_map seen_of result ≡ item_at self.now.bodies o }
    {
        item_among(&self.bodies, o)
    }

    /// The handler of an item; `None` exactly if the number is that of no item that was made.
    pub fn handler(&self, o: ObjId) -> Option<HandlerId>
        ensures { result ≡ option_map (λ x. x.handler) (item_at self.now.bodies o) }
    {
        match self.item(o) {
            Some(item) => Some(item.handler),
            None => None,
        }
    }

    /// Signals a valid source. It takes no memory, and wakes no loop.
    pub fn signal(&mut self, o: ObjId)
        requires { is_valid_source (item_at self.old.bodies o) ≡ true }
        ensures bodies { let change = signalling (item_at self.old.bodies o) in
            self.new.bodies ≡ bodies_changed (Some o) change self.old.bodies }
        ensures ready { self.new.ready ≡ self.old.ready }
        ensures room { self.new.room ≡ self.old.room }
    {
        let item = source_among(&self.bodies, o);
        change_item(&mut self.bodies, o, item.valid, signalled(item.state, true));
        self.sources.signal(o);
    }

    /// Takes the signal of a valid source whose callout begins. It takes no memory.
    pub fn begin_callout(&mut self, o: ObjId)
        requires valid { is_valid_source (item_at self.old.bodies o) ≡ true }
        requires signalled { is_signalled_source (item_at self.old.bodies o) ≡ true }
        ensures bodies { let change = calling_out (item_at self.old.bodies o) in
            self.new.bodies ≡ bodies_changed (Some o) change self.old.bodies }
        ensures ready { self.new.ready ≡ self.old.ready }
        ensures room { self.new.room ≡ self.old.room }
    {
        let item = source_among(&self.bodies, o);
        change_item(
            &mut self.bodies,
            o,
            item.valid,
            signalled(item.state, false),
        );
        self.sources.begin_callout(o);
    }

    /// Invalidates a valid source, for good. It takes no memory, and does not take the signal away.
    pub fn invalidate(&mut self, o: ObjId)
        requires { is_valid_source (item_at self.old.bodies o) ≡ true }
        ensures bodies { let change = invalidating (item_at self.old.bodies o) in
            self.new.bodies ≡ bodies_changed (Some o) change self.old.bodies }
        ensures ready { self.new.ready ≡ self.old.ready }
        ensures room { self.new.room ≡ self.old.room }
    {
        let item = source_among(&self.bodies, o);
        change_item(&mut self.bodies, o, false, item.state);
        self.sources.invalidate(o);
    }

    /// Appends the valid signalled sources among the items, by rising order and then by number. An item is taken for a
    /// source by its number alone. It takes no memory.
    pub fn collect_sources(&self, items: &[Item], out: &mut Vec<ObjId>)
        requires { vec_len out.old + length items.now ≤ vec_capacity out.old }
        ensures collected { let numbers = map (λ item. item.id) items.now in
            out.new.items ≡ out.old.items ++ ready_sources (sources_in self.now.bodies) numbers }
        ensures capacity { vec_capacity out.new ≡ vec_capacity out.old }
    {
        self.sources.collect(items, out);
    }
}

/// The item of a number among bodies, if it is one.
fn item_among(bodies: &[Body], o: ObjId) -> Option<LoopItem>
    ensures { option_map seen_of result ≡ item_at (map held_of bodies.now) o }
{
    let place = o.0 as usize;
    if bodies.len() <= place {
        return None;
    }
    bodies[place].item()
}

/// The source of a number among bodies.
fn source_among(bodies: &[Body], o: ObjId) -> LoopItem
    requires { is_valid_source (item_at (map held_of bodies.now) o) ≡ true }
    ensures item { item_at (map held_of bodies.now) o ≡ Some (seen_of result) }
    ensures within { o < length bodies.now }
{
    bodies[o.0 as usize].item().unwrap()
}

/// A source as it is, but for the signal.
fn signalled(state: ItemState, signal: bool) -> ItemState
    ensures { item_of result ≡ with_signal signal (item_of state) }
{
    match state {
        ItemState::Source { order, .. } => ItemState::Source {
            order,
            signalled: signal,
        },
    }
}

/// Lets the item of a number be valid or not, and stand so.
fn change_item(bodies: &mut Vec<Body>, o: ObjId, valid: bool, state: ItemState)
    requires { o < length bodies.old.items }
    ensures bodies { map held_of bodies.new.items
        ≡ bodies_changed (Some o) (in_item valid (item_of state)) (map held_of bodies.old.items) }
    ensures ready { (ready : Option ReadyPlan) → IsReadyIn bodies.old.items ready → IsReadyIn bodies.new.items ready }
    ensures len { vec_len bodies.new ≡ vec_len bodies.old }
    ensures capacity { vec_capacity bodies.new ≡ vec_capacity bodies.old }
{
    bodies[o.0 as usize].set_item(valid, state);
}
