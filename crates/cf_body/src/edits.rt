//! How bodies are changed, without memory where there is room.
ghost use Rattle.std.specs.Prelude.{◌≡◌, ◌+◌, ◌≤◌, ◌<◌, length, IsOk, OnOk, OnErr};
ghost use Rattle.cf_contents.specs.Contents.{text_content, data_content, instance_content, array_content, present, size_of, member_limit};
ghost use Rattle.cf_contents.specs.Deeds.{coming_in, going_out};
ghost use Rattle.cf_body.specs.Bodies.{content_of, most_in, room_of, held_of};
ghost use Rattle.cf_body.specs.Changes.{done_of, room_for, members_for, CanBe, HasRoom, DoneTo};
ghost use Rattle.cf_contents.specs.Stores.{body_changed};
ghost use Rattle.cf_body.specs.declared.change.BodyChange.TheVariants.{Insert, Replace, Remove, Fill, Clear};

use crate::body::{Body, Instance, Kind};
use crate::change::{BodyChange, Moved};
use crate::collection_edits::{change_bag, change_heap, change_pairs, change_set};
use cf_array::Array;
use cf_data::Bytes;
use cf_ids::ObjId;
use cf_string::Str;
use std::alloc::AllocError as NoMemory;
use std::mem;

impl Body {
    /// Makes room for a change. It is refused only for want of memory, and that changes nothing.
    pub fn reserve(&mut self, change: &BodyChange) -> Result<(), NoMemory>
        requires can { CanBe change.now self.old.content }
        requires few { size_of self.old.content + members_for change.now < member_limit }
        ensures held { held_of self.new ≡ held_of self.old }
        ensures room { OnOk result (HasRoom change.now self.new) }
        ensures kept { self.old.room ≤ self.new.room }

        // It can be refused only if the room was missing.
        ensures enough { room_for change.now ≤ self.old.room → IsOk result }
        ensures refused { OnErr result (self.new ≡ self.old) }
    {
        reserve(&mut self.kind, change)
    }

    /// Does a change for which there is room, and tells what came in and went out.
    pub fn change(&mut self, change: BodyChange) -> Moved
        requires can { CanBe change self.old.content }
        requires room { HasRoom change self.old }
        ensures held { held_of self.new ≡ body_changed (done_of change) (held_of self.old) }
        ensures took { present result.took ≡ coming_in (done_of change) self.old.content }
        ensures gave { present result.gave ≡ going_out (done_of change) self.old.content }
    {
        change_kind(&mut self.kind, change)
    }
}

/// Makes room for a change.
fn reserve(kind: &mut Kind, change: &BodyChange) -> Result<(), NoMemory>
    requires { CanBe change.now (content_of kind.old) }
    ensures content { content_of kind.new ≡ content_of kind.old }
    ensures room { OnOk result (room_for change.now ≤ room_of kind.new) }
    ensures kept { room_of kind.old ≤ room_of kind.new }
    ensures enough { room_for change.now ≤ room_of kind.old → IsOk result }
    ensures refused { OnErr result (kind.new ≡ kind.old) }
{
    let more = change.room();
    match kind {
        Kind::Text { text, .. } => text.reserve(more),
        Kind::Data { bytes, .. } => bytes.reserve(more),
        Kind::Array { elements, .. } => elements.reserve(more),
        Kind::Dictionary(pairs) => pairs.reserve(more),
        Kind::Set(set) => set.reserve(more),
        Kind::Bag(bag) => bag.reserve(more),
        Kind::Heap(heap) => heap.reserve(more),
        Kind::Number(_) | Kind::Instance(_) | Kind::Item(_) => Ok(()),
    }
}

/// Changes what an object contains.
fn change_kind(kind: &mut Kind, change: BodyChange) -> Moved
    requires can { CanBe change (content_of kind.old) }
    requires room { room_for change ≤ room_of kind.old }
    requires few { most_in (content_of kind.old) + members_for change < member_limit }
    ensures { DoneTo change (content_of kind.old) (content_of kind.new) result }
{
    match kind {
        Kind::Text { mutable, text } => change_text(*mutable, text, change),
        Kind::Data { mutable, bytes } => change_bytes(*mutable, bytes, change),
        Kind::Number(_) => Moved::nothing(),
        Kind::Instance(instance) => change_fields(instance, &change),
        Kind::Array { plain, elements } => change_elements(*plain, elements, &change),
        Kind::Dictionary(pairs) => change_pairs(pairs, change),
        Kind::Set(set) => change_set(set, change),
        Kind::Bag(bag) => change_bag(bag, change),
        Kind::Heap(heap) => change_heap(heap, change),
        Kind::Item(_) => Moved::nothing(),
    }
}

/// Changes a text.
fn change_text(mutable: bool, text: &mut Str, change: BodyChange) -> Moved
    requires can { CanBe change (text_content mutable text.old.units) }
    requires room { room_for change ≤ text.old.room }
    ensures { DoneTo change (text_content mutable text.old.units) (text_content mutable text.new.units) result }
{
    match change {
        BodyChange::Text {
            at,
            len,
            text: other,
        } => {
            text.replace(at, len, &other).unwrap();
            Moved::nothing()
        }
        _ => Moved::nothing(),
    }
}

/// Changes data.
fn change_bytes(mutable: bool, bytes: &mut Bytes, change: BodyChange) -> Moved
    requires can { CanBe change (data_content mutable bytes.old.items) }
    requires room { room_for change ≤ bytes.old.room }
    ensures { DoneTo change (data_content mutable bytes.old.items) (data_content mutable bytes.new.items) result }
{
    match change {
        BodyChange::Data {
            at,
            len,
            bytes: other,
        } => {
            bytes.replace(at, len, other.get()).unwrap();
            Moved::nothing()
        }
        _ => Moved::nothing(),
    }
}

/// Changes the fields of an instance.
fn change_fields(instance: &mut Instance, change: &BodyChange) -> Moved
    requires { CanBe change.now (instance_content instance.old.key instance.old.fields.items) }
    ensures { DoneTo change.now (instance_content instance.old.key instance.old.fields.items)
        (instance_content instance.new.key instance.new.fields.items) result }
{
    match change {
        BodyChange::Fill { at, element } => fill_field(instance, *at, *element),
        BodyChange::Clear { at } => clear_field(instance, *at),
        _ => Moved::nothing(),
    }
}

/// Puts an object in a field.
fn fill_field(instance: &mut Instance, at: usize, element: ObjId) -> Moved
    requires { at < length instance.old.fields.items }
    ensures { DoneTo (Fill at element) (instance_content instance.old.key instance.old.fields.items)
        (instance_content instance.new.key instance.new.fields.items) result }
{
    let old = mem::replace(&mut instance.fields[at], Some(element));
    Moved {
        took: [Some(element), None],
        gave: [old, None],
    }
}

/// Empties a field.
fn clear_field(instance: &mut Instance, at: usize) -> Moved
    requires { at < length instance.old.fields.items }
    ensures { DoneTo (Clear at) (instance_content instance.old.key instance.old.fields.items)
        (instance_content instance.new.key instance.new.fields.items) result }
{
    let old = mem::replace(&mut instance.fields[at], None);
    Moved {
        took: [None, None],
        gave: [old, None],
    }
}

/// Changes the elements of an array.
fn change_elements(plain: bool, elements: &mut Array<ObjId>, change: &BodyChange) -> Moved
    requires can { CanBe change.now (array_content plain elements.old.items) }
    requires room { room_for change.now ≤ elements.old.room }
    ensures { let before = array_content plain elements.old.items in
        DoneTo change.now before (array_content plain elements.new.items) result }
{
    match change {
        BodyChange::Insert { at, element } => insert_element(plain, elements, *at, *element),
        BodyChange::Replace { at, element } => replace_element(plain, elements, *at, *element),
        BodyChange::Remove { at } => remove_element(plain, elements, *at),
        _ => Moved::nothing(),
    }
}

/// Puts an element in before the one at a place, or after the last one.
fn insert_element(plain: bool, elements: &mut Array<ObjId>, at: usize, element: ObjId) -> Moved
    requires within { at ≤ length elements.old.items }
    requires room { 0 < elements.old.room }
    ensures { let before = array_content plain elements.old.items in
        DoneTo (Insert at element) before (array_content plain elements.new.items) result }
{
    elements.insert(at, element).unwrap();
    Moved::unless_plain(plain, [Some(element), None], [None, None])
}

/// Puts an element in place of the one at a place, or after the last one.
fn replace_element(plain: bool, elements: &mut Array<ObjId>, at: usize, element: ObjId) -> Moved
    requires within { at ≤ length elements.old.items }
    requires room { 0 < elements.old.room }
    ensures { let before = array_content plain elements.old.items in
        DoneTo (Replace at element) before (array_content plain elements.new.items) result }
{
    let old = elements.set(at, element).unwrap();
    Moved::unless_plain(plain, [Some(element), None], [old, None])
}

/// Removes the element at a place.
fn remove_element(plain: bool, elements: &mut Array<ObjId>, at: usize) -> Moved
    requires { at < length elements.old.items }
    ensures { let before = array_content plain elements.old.items in
        DoneTo (Remove at) before (array_content plain elements.new.items) result }
{
    let old = elements.remove(at).unwrap();
    Moved::unless_plain(plain, [None, None], [Some(old), None])
}
