//! The sources among bodies, in a table of their own.
ghost use Rattle.std.specs.Prelude.{◌≡◌, ◌+◌, ◌≤◌, ◌<◌, ◌++◌, [], length, map, vec_len, vec_capacity, IsTrue, OnOk, OnErr};
ghost use Rattle.std.specs.Option.{option_map};
ghost use Rattle.rl_base.specs.Signals.{signalled, called_out, invalidated, valid_bit, signal_bit, sources_with, ready_sources};
ghost use Rattle.cf_body.specs.Items.{item_in};
ghost use Rattle.cf_store.specs.Sources.{AllBelow, IsNewItem, before, bits_of};

use cf_body::{Body, ItemState, LoopItem};
use cf_ids::{Item, ObjId};
use rl_sources::Sources;
use std::alloc::{AllocError as NoMemory, Global};
use std::marker::Model;

/// The sources among bodies. Contracts see them by rising number, and for how many more bodies there is room, of
/// which each may be a source.
#[derive(Drop)]
pub(crate) struct SourceIndex {
    sources: Sources,
    places: usize,
}

impl Model for SourceIndex {
    ghost use Rattle.std.specs.Prelude.{◌≤◌};
    ghost use Rattle.rl_sources.specs.Tables.{SourceTable};

    ghost Value = { SourceTable };

    ghost view = { λ i. record { sources = i.sources.sources; room = i.places } };

    ghost invariant = { λ i. i.places ≤ i.sources.room };
}

impl SourceIndex {
    /// No sources. It takes no memory.
    pub(crate) fn new(alloc: Global) -> SourceIndex
        ensures { result ≡ record { sources = []; room = 0 } }
    {
        SourceIndex {
            sources: Sources::new(alloc),
            places: 0,
        }
    }

    /// Makes room for a body more, where there is none.
    pub(crate) fn reserve(&mut self) -> Result<(), NoMemory>
        ensures sources { self.new.sources ≡ self.old.sources }
        ensures room { OnOk result (0 < self.new.room) }
        ensures kept { self.old.room ≤ self.new.room }
        ensures refused { OnErr result (self.new ≡ self.old) }
    {
        if self.places == 0 {
            self.sources.reserve(1)?;
            self.places = 1;
        }
        Ok(())
    }

    /// A body is made of this number: if it is a source, it stands after those that are there.
    pub(crate) fn make(&mut self, o: ObjId, body: &Body)
        requires room { 0 < self.old.room }
        requires new { IsNewItem (item_in body.now.content) }
        requires last { AllBelow o self.old.sources }
        ensures sources { self.new.sources ≡ self.old.sources ++ before o (bits_of (item_in body.now.content)) [] }
        ensures room { self.new.room + 1 ≡ self.old.room }
    {
        self.places -= 1;
        if let Some(order) = order_of(body) {
            self.sources.make(o, order);
        }
    }

    /// Signals a source.
    pub(crate) fn signal(&mut self, s: ObjId)
        requires { IsTrue (valid_bit self.old.sources s) }
        ensures sources { self.new.sources ≡ sources_with self.old.sources (signalled s) }
        ensures room { self.new.room ≡ self.old.room }
    {
        self.sources.signal(s).unwrap();
    }

    /// Takes the signal of a source whose callout begins.
    pub(crate) fn begin_callout(&mut self, s: ObjId)
        requires valid { IsTrue (valid_bit self.old.sources s) }
        requires signalled { IsTrue (signal_bit self.old.sources s) }
        ensures sources { self.new.sources ≡ sources_with self.old.sources (called_out s) }
        ensures room { self.new.room ≡ self.old.room }
    {
        self.sources.begin_callout(s);
    }

    /// Invalidates a source.
    pub(crate) fn invalidate(&mut self, s: ObjId)
        requires { IsTrue (valid_bit self.old.sources s) }
        ensures sources { self.new.sources ≡ sources_with self.old.sources (invalidated s) }
        ensures room { self.new.room ≡ self.old.room }
    {
        self.sources.invalidate(s).unwrap();
    }

    /// Appends the valid signalled sources among the items, by rising order and then by number.
    pub(crate) fn collect(&self, items: &[Item], out: &mut Vec<ObjId>)
        requires { vec_len out.old + length items.now ≤ vec_capacity out.old }
        ensures collected { out.new.items
            ≡ out.old.items ++ ready_sources self.now.sources (map (λ item. item.id) items.now) }
        ensures capacity { vec_capacity out.new ≡ vec_capacity out.old }
    {
        self.sources.collect(items, out);
    }
}

/// The order of a body that is a source.
fn order_of(body: &Body) -> Option<i64>
    ensures { result ≡ option_map (λ b. b.order) (bits_of (item_in body.now.content)) }
{
    match body.item() {
        Some(
            LoopItem {
                state: ItemState::Source { order, .. },
                ..
            },
        ) => Some(order),
        None => None,
    }
}
