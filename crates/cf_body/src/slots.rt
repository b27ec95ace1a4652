//! The slots of bodies, by their places.
ghost use Rattle.std.specs.Prelude.{◌≡◌, ◌+◌, ◌<◌, Some, slice_get, IfNone, OnSome};
ghost use Rattle.std.specs.Option.{option_map};
ghost use Rattle.cf_contents.specs.Contents.{present, flat, ids_of, row_ids, order_of, unless_plain, slots_in};
ghost use Rattle.cf_callbacks.specs.Ranking.{by_rank};
ghost use Rattle.cf_body.specs.Bodies.{content_of, room_of, held_of};
ghost use Rattle.cf_contents.specs.Stores.{body_finalised, body_dropped, left_to};

use crate::body::{Body, Kind};
use crate::item::info_slot;
use crate::pairs::Pairs;
use cf_ids::ObjId;
use cf_members::{ElementHeap, MemberBag, MemberSet};

impl Body {
    /// The object in the slot at a place.
    #[inline(always)]
    pub fn slot(&self, k: usize) -> Option<ObjId>
        ensures slot { result ≡ slice_get (slots_in self.now.content) k }
        ensures few { OnSome result (k + 1 < 4294967296) }
    {
        slot_in(&self.kind, k)
    }

    /// Sorts the elements of a heap, so that each slot is found at once. It takes no memory.
    pub fn sort(&mut self)
        ensures { self.new ≡ self.old }
    {
        sort(&mut self.kind);
    }

    /// Finalises the object. A heap is sorted, so that it gives up each slot at once.
    pub fn retire(&mut self)
        ensures held { held_of self.new ≡ body_finalised (held_of self.old) }
        ensures room { self.new.room ≡ self.old.room }
    {
        sort(&mut self.kind);
        self.is_finalised = true;
    }

    /// Gives up the first slot that is left, and tells its place and the object in it.
    pub fn drop_slot(&mut self) -> Option<(u32, ObjId)>
        ensures slot { let first = slice_get (left_to (Some (held_of self.old))) 0 in
            result ≡ option_map (λ s. (self.old.given_up, s)) first }
        ensures held { OnSome result (held_of self.new ≡ body_dropped (held_of self.old)) }
        ensures none { IfNone result (self.new ≡ self.old) }
        ensures content { self.new.content ≡ self.old.content }
        ensures room { self.new.room ≡ self.old.room }
    {
        let place = self.given_up;
        match self.slot(place as usize) {
            Some(slot) => {
                self.given_up = place + 1;
                Some((place, slot))
            }
            None => None,
        }
    }
}

/// The object in the slot at a place.
fn slot_in(kind: &Kind, k: usize) -> Option<ObjId>
    ensures { result ≡ slice_get (slots_in (content_of kind.now)) k }
{
    match kind {
        Kind::Instance(instance) => field_slot(instance.fields.as_slice(), k),
        Kind::Array {
            plain: false,
            elements,
        } => elements.get(k).copied(),
        Kind::Dictionary(pairs) => pair_slot(pairs, k),
        Kind::Set(set) => set_slot(set, k),
        Kind::Bag(bag) => bag_slot(bag, k),
        Kind::Heap(heap) => heap_slot(heap, k),
        Kind::Item(item) => info_slot(item, k),
        _ => None,
    }
}

/// Sorts the elements of a heap.
fn sort(kind: &mut Kind)
    ensures content { content_of kind.new ≡ content_of kind.old }
    ensures room { room_of kind.new ≡ room_of kind.old }
{
    if let Kind::Heap(heap) = kind {
        heap.sort();
    }
}

/// The k-th member of a set, unless it is plain.
fn set_slot(set: &MemberSet, k: usize) -> Option<ObjId>
    ensures { result ≡ slice_get (unless_plain set.now.plain (ids_of set.now.members)) k }
{
    if set.plain() {
        return None;
    }
    set.at(k)
}

/// The member of the k-th row of a bag, unless it is plain.
fn bag_slot(bag: &MemberBag, k: usize) -> Option<ObjId>
    ensures { result ≡ slice_get (unless_plain bag.now.plain (row_ids bag.now.rows)) k }
{
    if bag.plain() {
        return None;
    }
    match bag.row(k) {
        Some(row) => Some(row.0),
        None => None,
    }
}

/// The element of a heap that goes out after k others, unless the heap is plain.
fn heap_slot(heap: &ElementHeap, k: usize) -> Option<ObjId>
    ensures { let sorted = by_rank (order_of heap.now.plain) heap.now.rows in
        result ≡ slice_get (unless_plain heap.now.plain (row_ids sorted)) k }
{
    if heap.plain() {
        return None;
    }
    heap.at_turn(k)
}

/// The object in the k-th field that is filled.
fn field_slot(fields: &[Option<ObjId>], k: usize) -> Option<ObjId>
    ensures { result ≡ slice_get (present fields.now) k }
{
    let mut left = k;
    for field in fields {
        if let Some(object) = *field {
            if left == 0 {
                return Some(object);
            }
            left -= 1;
        }
    }
    None
}

/// The k-th object of a dictionary's pairs, each of which has two, unless it is plain.
fn pair_slot(pairs: &Pairs, k: usize) -> Option<ObjId>
    ensures { result ≡ slice_get (unless_plain pairs.now.plain (flat pairs.now.items)) k }
{
    if pairs.plain() {
        return None;
    }
    match pairs.row(k / 2) {
        Some(row) => { if k % 2 == 0 { Some(row.0) } else { Some(row.1) } }
        None => None,
    }
}
