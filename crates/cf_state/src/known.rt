//! The facts that parts and references tell the frames of threads.
ghost use Rattle.std.specs.Prelude.{◌≡◌, ◌&&◌, filter, IfOk, OnOk, [], ◌∷◌, ◌++◌, if◌then◌else◌};
ghost use Rattle.cf_graph.specs.Edges.{has};
ghost use Rattle.cf_graph.specs.Holders.{in_mode};
ghost use Rattle.cf_model.specs.State.{objects_of};
ghost use Rattle.cf_references.specs.Views.{holder_of};
ghost use Rattle.cf_model.specs.Things.{is_empty_mode, opens_thing, thing_at};
ghost use Rattle.cf_state.specs.Known.{bare};

use crate::parts::Parts;
use cf_ids::{HandlerId, ModeId, ObjId, ThreadId};
use cf_next::Facts;
use cf_references::{Holder, Reference, first_held, has};
use std::alloc::{AllocError as NoMemory, Global};

/// Parts and references, lent.
#[derive(Clone, Copy)]
pub struct Known<'a> {
    pub parts: &'a Parts,
    pub edges: &'a [Reference],
}

/// Whether a mode of a thread's loop holds an item.
pub fn holds(edges: &[Reference], thread: usize, mode: usize, item: ObjId) -> bool
    ensures { result ≡ has (in_mode thread mode) item edges.now }
{
    has(&Holder::InMode { thread, mode }, item, edges)
}

/// The items that a holder has, by number.
pub fn items_held(
    alloc: Global,
    parts: &Parts,
    edges: &[Reference],
    holder: &Holder,
) -> Result<Vec<ObjId>, NoMemory>
    ensures { IfOk result (λ v. v.items
        ≡ filter (λ i. has (holder_of holder.now) i edges.now) (objects_of parts.now)) }
{
    let all = parts.objects.len();
    let mut items = Vec::new(alloc);
    let mut number = 0;
    while number < all {
        let item = ObjId(number as u32);
        put_if(&mut items, item, has(holder, item, edges))?;
        number += 1;
    }
    Ok(items)
}

/// A number more, if a test says so.
fn put_if(items: &mut Vec<ObjId>, item: ObjId, passes: bool) -> Result<(), NoMemory>
    ensures { OnOk result (items.new.items ≡ items.old.items ++ (if passes then item ∷ [] else [])) }
{
    if passes {
        items.push(item)?;
    }
    Ok(())
}

/// Whether a mode of a thread's loop holds an item that keeps it from being empty.
fn keeps_open(parts: &Parts, edges: &[Reference], thread: usize, mode: usize, item: ObjId) -> bool
    ensures { result ≡ (has (in_mode thread mode) item edges.now && opens_thing (thing_at parts.now item)) }
{
    holds(edges, thread, mode, item) && parts.opens(item)
}

/// Whether a mode of a thread's loop has neither a source nor a timer.
pub fn is_empty_mode(parts: &Parts, edges: &[Reference], thread: usize, mode: usize) -> bool
    ensures { result ≡ is_empty_mode (bare parts.now edges.now) thread mode }
{
    let all = parts.objects.len();
    let mut number = 0;
    while number < all {
        let item = ObjId(number as u32);
        if keeps_open(parts, edges, thread, mode, item) {
            return false;
        }
        number += 1;
    }
    true
}

impl Facts for Known<'_> {
    ghost use Rattle.cf_state.specs.Known.{facts_in};

    ghost known = { λ k. facts_in k.parts.now k.edges.now };

    fn time(&self) -> u64 {
        let parts = self.parts;
        parts.time
    }

    fn holds(&self, t: ThreadId, m: ModeId, i: ObjId) -> bool {
        holds(self.edges, usize::from(t.0), usize::from(m.0), i)
    }

    fn is_empty(&self, t: ThreadId, m: ModeId) -> bool {
        is_empty_mode(self.parts, self.edges, usize::from(t.0), usize::from(m.0))
    }

    fn is_valid(&self, i: ObjId) -> bool {
        self.parts.is_valid(i)
    }

    fn is_signalled(&self, s: ObjId) -> bool {
        self.parts.is_signalled(s)
    }

    fn next_date(&self, t: ObjId) -> Option<u64> {
        self.parts.date(t)
    }

    fn repeats(&self, o: ObjId) -> bool {
        self.parts.repeats(o)
    }

    fn callout(&self, i: ObjId) -> Option<(HandlerId, Option<ObjId>)> {
        self.parts.callout(i)
    }

    fn receiver(&self, r: u32) -> Option<(HandlerId, ObjId)> {
        self.parts.receiver(r as usize)
    }

    fn parcel(&self, t: ThreadId, k: usize) -> Option<ObjId> {
        let holder = Holder::Parcel {
            thread: usize::from(t.0),
            place: k,
        };
        first_held(&holder, self.edges)
    }

    fn slot(&self, b: ObjId, k: usize) -> Option<ObjId> {
        self.parts.has_few();
        self.parts.slot_left(b, k)
    }
}
