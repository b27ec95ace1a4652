//! How dictionaries, sets, bags and heaps are changed, without memory where there is room.
ghost use Rattle.std.specs.Prelude.{◌≡◌, ◌+◌, ◌≤◌, ◌<◌, [], ◌∷◌, None, if◌then◌else◌};
ghost use Rattle.cf_contents.specs.Contents.{dictionary_content, set_content, bag_content, heap_content, present, size_of, member_limit};
ghost use Rattle.cf_body.specs.Changes.{room_for, members_for, CanBe, DoneTo};
ghost use Rattle.cf_body.specs.declared.change.BodyChange.TheVariants.{PutPair, RemovePair, AddMember, PutMember, RemoveMember, RemoveLeast};

use crate::change::{BodyChange, Moved};
use crate::pairs::Pairs;
use cf_ids::ObjId;
use cf_members::{ElementHeap, MemberBag, MemberSet};
use cf_types::Cell;

/// Changes the pairs of a dictionary.
pub(crate) fn change_pairs(pairs: &mut Pairs, change: BodyChange) -> Moved
    requires can { CanBe change (dictionary_content pairs.old.plain pairs.old.items) }
    requires room { room_for change ≤ pairs.old.room }
    ensures { DoneTo change (dictionary_content pairs.old.plain pairs.old.items)
        (dictionary_content pairs.new.plain pairs.new.items) result }
{
    match change {
        BodyChange::PutPair { key, value } => put_pair(pairs, key, value),
        BodyChange::RemovePair { key } => remove_pair(pairs, &key),
        _ => Moved::nothing(),
    }
}

/// Puts a pair in.
fn put_pair(pairs: &mut Pairs, key: Cell, value: ObjId) -> Moved
    requires { 0 < pairs.old.room }
    ensures { DoneTo (PutPair key value) (dictionary_content pairs.old.plain pairs.old.items)
        (dictionary_content pairs.new.plain pairs.new.items) result }
{
    let id = key.id;
    match pairs.put(key, value) {
        Some(old) => Moved::unless_plain(pairs.plain(), [Some(value), None], [Some(old), None]),
        None => Moved::unless_plain(pairs.plain(), [Some(id), Some(value)], [None, None]),
    }
}

/// Removes a pair.
fn remove_pair(pairs: &mut Pairs, key: &Cell) -> Moved
    ensures { DoneTo (RemovePair key.now) (dictionary_content pairs.old.plain pairs.old.items)
        (dictionary_content pairs.new.plain pairs.new.items) result }
{
    match pairs.remove(key) {
        Some((key, value)) => {
            Moved::unless_plain(pairs.plain(), [None, None], [Some(key), Some(value)])
        }
        None => Moved::nothing(),
    }
}

/// An object that was taken in, or none.
fn id_if(taken: bool, id: ObjId) -> Option<ObjId>
    ensures { present (result ∷ None ∷ []) ≡ (if taken then id ∷ [] else []) }
{
    if taken { Some(id) } else { None }
}

/// Changes the members of a set.
pub(crate) fn change_set(set: &mut MemberSet, change: BodyChange) -> Moved
    requires can { CanBe change (set_content set.old.plain set.old.members) }
    requires room { room_for change ≤ set.old.room }
    ensures { DoneTo change (set_content set.old.plain set.old.members)
        (set_content set.new.plain set.new.members) result }
{
    match change {
        BodyChange::AddMember { element } => add_member(set, element),
        BodyChange::PutMember { element } => put_member(set, element),
        BodyChange::RemoveMember { element } => remove_member(set, &element),
        _ => Moved::nothing(),
    }
}

/// Adds an element to a set, if none is equal to it.
fn add_member(set: &mut MemberSet, element: Cell) -> Moved
    requires { 0 < set.old.room }
    ensures { let before = set_content set.old.plain set.old.members in
        DoneTo (AddMember element) before (set_content set.new.plain set.new.members) result }
{
    let id = element.id;
    let took = id_if(set.add(element), id);
    Moved::unless_plain(set.plain(), [took, None], [None, None])
}

/// Puts an element in place of the member that is equal to it, or adds it.
fn put_member(set: &mut MemberSet, element: Cell) -> Moved
    requires { 0 < set.old.room }
    ensures { let before = set_content set.old.plain set.old.members in
        DoneTo (PutMember element) before (set_content set.new.plain set.new.members) result }
{
    let id = element.id;
    let old = set.set(element);
    Moved::unless_plain(set.plain(), [Some(id), None], [old, None])
}

/// Removes the member that is equal to an element.
fn remove_member(set: &mut MemberSet, element: &Cell) -> Moved
    ensures { let before = set_content set.old.plain set.old.members in
        DoneTo (RemoveMember element.now) before (set_content set.new.plain set.new.members) result }
{
    let old = set.remove(element);
    Moved::unless_plain(set.plain(), [None, None], [old, None])
}

/// Changes the rows of a bag.
pub(crate) fn change_bag(bag: &mut MemberBag, change: BodyChange) -> Moved
    requires can { CanBe change (bag_content bag.old.plain bag.old.rows) }
    requires room { room_for change ≤ bag.old.room }
    requires few { size_of (bag_content bag.old.plain bag.old.rows) + members_for change < member_limit }
    ensures { DoneTo change (bag_content bag.old.plain bag.old.rows) (bag_content bag.new.plain bag.new.rows) result }
{
    match change {
        BodyChange::AddMember { element } => add_one(bag, element),
        BodyChange::PutMember { element } => put_one(bag, element),
        BodyChange::RemoveMember { element } => remove_one(bag, &element),
        _ => Moved::nothing(),
    }
}

/// Adds an element to a bag: the first of equal ones is taken in.
fn add_one(bag: &mut MemberBag, element: Cell) -> Moved
    requires room { 0 < bag.old.room }
    requires few { size_of (bag_content bag.old.plain bag.old.rows) + 1 < member_limit }
    ensures { let before = bag_content bag.old.plain bag.old.rows in
        DoneTo (AddMember element) before (bag_content bag.new.plain bag.new.rows) result }
{
    let id = element.id;
    let took = id_if(bag.add(element), id);
    Moved::unless_plain(bag.plain(), [took, None], [None, None])
}

/// Puts an element in place of the member that is equal to it, or adds it.
fn put_one(bag: &mut MemberBag, element: Cell) -> Moved
    requires { 0 < bag.old.room }
    ensures { let before = bag_content bag.old.plain bag.old.rows in
        DoneTo (PutMember element) before (bag_content bag.new.plain bag.new.rows) result }
{
    let id = element.id;
    let old = bag.set(element);
    Moved::unless_plain(bag.plain(), [Some(id), None], [old, None])
}

/// Counts one less of the member that is equal to an element: it is given out if none is left.
fn remove_one(bag: &mut MemberBag, element: &Cell) -> Moved
    ensures { let before = bag_content bag.old.plain bag.old.rows in
        DoneTo (RemoveMember element.now) before (bag_content bag.new.plain bag.new.rows) result }
{
    let old = bag.remove(element);
    Moved::unless_plain(bag.plain(), [None, None], [old, None])
}

/// Changes the elements of a heap.
pub(crate) fn change_heap(heap: &mut ElementHeap, change: BodyChange) -> Moved
    requires can { CanBe change (heap_content heap.old.plain heap.old.adds heap.old.rows) }
    requires room { room_for change ≤ heap.old.room }
    requires few { size_of
        (heap_content heap.old.plain heap.old.adds heap.old.rows) + members_for change < member_limit }
    ensures { let before = heap_content heap.old.plain heap.old.adds heap.old.rows in
        DoneTo change before (heap_content heap.new.plain heap.new.adds heap.new.rows) result }
{
    match change {
        BodyChange::AddMember { element } => add_element(heap, element),
        BodyChange::RemoveLeast => remove_least(heap),
        _ => Moved::nothing(),
    }
}

/// Adds an element to a heap.
fn add_element(heap: &mut ElementHeap, element: Cell) -> Moved
    requires room { 0 < heap.old.room }
    requires few { size_of (heap_content heap.old.plain heap.old.adds heap.old.rows) + 1 < member_limit }
    ensures { let before = heap_content heap.old.plain heap.old.adds heap.old.rows in
        DoneTo (AddMember element) before (heap_content heap.new.plain heap.new.adds heap.new.rows) result }
{
    let id = element.id;
    heap.add(element);
    Moved::unless_plain(heap.plain(), [Some(id), None], [None, None])
}

/// Removes the least element of a heap.
fn remove_least(heap: &mut ElementHeap) -> Moved
    ensures { let before = heap_content heap.old.plain heap.old.adds heap.old.rows in
        DoneTo RemoveLeast before (heap_content heap.new.plain heap.new.adds heap.new.rows) result }
{
    let old = heap.remove_least();
    Moved::unless_plain(heap.plain(), [None, None], [old, None])
}
