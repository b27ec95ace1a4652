//! What becomes of the content of an object.
ghost use Rattle.std.specs.Prelude.{◌≡◌, ℕ, ℤ, Option, OnOk};
ghost use Rattle.std.specs.Map.{lookup, remove_entry};
ghost use Rattle.cf_basichash.specs.Members.{members_set, members_with, members_without, rows_set, rows_without};
ghost use Rattle.cf_basichash.specs.Tables.{pairs_with};
ghost use Rattle.cf_contents.specs.Contents.{text_content, data_content, instance_content, array_content, dictionary_content, set_content, bag_content, heap_content, item_content};
ghost use Rattle.cf_contents.specs.Deeds.{content_after, object_after, rows_with_one_more};
ghost use Rattle.cf_contents.specs.Keys.{equal_to};
ghost use Rattle.cf_plain.specs.Views.{change_of, content_of, item_of};

use crate::content::{Content, Object};
use crate::element::Element;
use crate::heap::Heap;
use crate::item::Item;
use crate::list::{contains, place_in, row_place, spliced};
use cf_ids::ObjId;
use std::alloc::{AllocError as NoMemory, Global};
use std::mem;

/// What comes into a field or an array: nothing, an empty field, or an object.
#[derive(Clone, Copy)]
pub enum Entered {
    Nothing,
    Nil,
    Object(ObjId),
}

/// What becomes of the first object that a statement uses.
#[derive(Drop)]
pub enum Change {
    /// Nothing becomes of it.
    Nothing,
    /// Units in place of so many from a place on.
    Text {
        at: usize,
        out: usize,
        enter: Vec<u16>,
    },
    /// Bytes in place of so many from a place on.
    Data {
        at: usize,
        out: usize,
        enter: Vec<u8>,
    },
    /// A field or an element in place of the one at a place, or before it.
    Places {
        at: usize,
        out: bool,
        enter: Entered,
    },
    /// A pair is put in, its value alone if its key is there.
    PutPair {
        key: Element,
        value: ObjId,
    },
    /// A pair is removed by its key.
    RemovePair {
        key: Element,
    },
    /// An element is added to a set, a bag or a heap.
    AddMember {
        element: Element,
    },
    /// A member is put in place of its equal, or added.
    PutMember {
        element: Element,
    },
    /// One of the members that are equal to an element is removed.
    RemoveMember {
        element: Element,
    },
    /// The least element of a heap is removed.
    RemoveLeast,
    /// An item is valid or not from now on, and is as this one.
    Item {
        valid: bool,
        item: Item,
    },
}

impl Object {
    /// Does a change. `NoMemory` comes for want of memory, or past 2^32 - 1 of one member of a bag or 2^64 - 1 adds to
    /// a heap, which no journal reaches.
    pub fn change(&mut self, alloc: Global, change: Change) -> Result<(), NoMemory>
        ensures { OnOk result (self.new ≡ object_after (change_of change) self.old) }
    {
        change_content(alloc, &mut self.content, change)
    }
}

/// Changes a content.
fn change_content(alloc: Global, content: &mut Content, change: Change) -> Result<(), NoMemory>
    ensures { OnOk result (content_of content.new ≡ content_after (change_of change) (content_of content.old)) }
{
    match content {
        Content::Text { mutable, units } => change_text(alloc, *mutable, units, &change),
        Content::Data { mutable, bytes } => change_data(alloc, *mutable, bytes, &change),
        Content::Number(_) => Ok(()),
        Content::Instance { fields, .. } => change_fields(alloc, fields, &change),
        Content::Array { plain, elements } => change_elements(alloc, *plain, elements, &change),
        Content::Dictionary { plain, pairs } => change_pairs(*plain, pairs, change),
        Content::Set { plain, members } => change_set(*plain, members, change),
        Content::Bag { plain, rows } => change_bag(*plain, rows, change),
        Content::Heap(heap) => change_heap(alloc, heap, change),
        Content::Item { valid, item, .. } => {
            change_item(valid, item, &change);
            Ok(())
        }
    }
}

/// Changes a text: only a mutable one is edited.
fn change_text(
    alloc: Global,
    mutable: bool,
    units: &mut Vec<u16>,
    change: &Change,
) -> Result<(), NoMemory>
    ensures { OnOk result (text_content mutable units.new.items
        ≡ content_after (change_of change.now) (text_content mutable units.old.items)) }
{
    match change {
        Change::Text { at, out, enter } if mutable => {
            *units = spliced(alloc, units.as_slice(), *at, *out, enter.as_slice())?;
            Ok(())
        }
        _ => Ok(()),
    }
}

/// Changes data: only mutable data is edited.
fn change_data(
    alloc: Global,
    mutable: bool,
    bytes: &mut Vec<u8>,
    change: &Change,
) -> Result<(), NoMemory>
    ensures { OnOk result (data_content mutable bytes.new.items
        ≡ content_after (change_of change.now) (data_content mutable bytes.old.items)) }
{
    match change {
        Change::Data { at, out, enter } if mutable => {
            *bytes = spliced(alloc, bytes.as_slice(), *at, *out, enter.as_slice())?;
            Ok(())
        }
        _ => Ok(()),
    }
}

/// Changes the fields of an instance.
fn change_fields(
    alloc: Global,
    fields: &mut Vec<Option<ObjId>>,
    change: &Change,
) -> Result<(), NoMemory>
    ensures { (key : ℤ) → OnOk result (instance_content key fields.new.items
        ≡ content_after (change_of change.now) (instance_content key fields.old.items)) }
{
    if let Change::Places { at, out, enter } = change {
        let out = usize::from(*out);
        *fields = match enter {
            Entered::Nothing => spliced(alloc, fields.as_slice(), *at, out, &[])?,
            Entered::Nil => spliced(alloc, fields.as_slice(), *at, out, &[None])?,
            Entered::Object(object) => {
                spliced(alloc, fields.as_slice(), *at, out, &[Some(*object)])?
            }
        };
    }
    Ok(())
}

/// Changes the elements of an array.
fn change_elements(
    alloc: Global,
    plain: bool,
    elements: &mut Vec<ObjId>,
    change: &Change,
) -> Result<(), NoMemory>
    ensures { OnOk result (array_content plain elements.new.items
        ≡ content_after (change_of change.now) (array_content plain elements.old.items)) }
{
    if let Change::Places { at, out, enter } = change {
        let out = usize::from(*out);
        *elements = match enter {
            Entered::Object(object) => spliced(alloc, elements.as_slice(), *at, out, &[*object])?,
            _ => spliced(alloc, elements.as_slice(), *at, out, &[])?,
        };
    }
    Ok(())
}

/// Changes the pairs of a dictionary.
fn change_pairs(
    plain: bool,
    pairs: &mut Vec<(Element, ObjId)>,
    change: Change,
) -> Result<(), NoMemory>
    ensures { OnOk result (dictionary_content plain pairs.new.items
        ≡ content_after (change_of change) (dictionary_content plain pairs.old.items)) }
{
    match change {
        Change::PutPair { key, value } => put_pair(plain, pairs, key, value),
        Change::RemovePair { key } => {
            remove_pair(plain, pairs, &key);
            Ok(())
        }
        _ => Ok(()),
    }
}

/// Puts a pair in.
fn put_pair(
    plain: bool,
    pairs: &mut Vec<(Element, ObjId)>,
    key: Element,
    value: ObjId,
) -> Result<(), NoMemory>
    ensures { OnOk result (pairs.new.items ≡ pairs_with (equal_to plain key) pairs.old.items key value) }
{
    match row_place(plain, pairs.as_slice(), &key) {
        Some(place) => {
            let row = &mut pairs[place];
            row.1 = value;
        }
        None => pairs.push((key, value))?,
    }
    Ok(())
}

/// Removes a pair.
fn remove_pair(plain: bool, pairs: &mut Vec<(Element, ObjId)>, key: &Element)
    ensures { pairs.new.items ≡ remove_entry (equal_to plain key.now) pairs.old.items }
{
    if let Some(place) = row_place(plain, pairs.as_slice(), key) {
        pairs.remove(place);
    }
}

/// Changes the members of a set.
fn change_set(plain: bool, members: &mut Vec<Element>, change: Change) -> Result<(), NoMemory>
    ensures { OnOk result (set_content plain members.new.items
        ≡ content_after (change_of change) (set_content plain members.old.items)) }
{
    match change {
        Change::AddMember { element } => add_member(plain, members, element),
        Change::PutMember { element } => put_member(plain, members, element),
        Change::RemoveMember { element } => {
            remove_member(plain, members, &element);
            Ok(())
        }
        _ => Ok(()),
    }
}

/// Adds an element, if none is equal to it.
fn add_member(plain: bool, members: &mut Vec<Element>, element: Element) -> Result<(), NoMemory>
    ensures { OnOk result (members.new.items ≡ members_with (equal_to plain element) members.old.items element) }
{
    if !contains(plain, members.as_slice(), &element) {
        members.push(element)?;
    }
    Ok(())
}

/// Puts an element in place of the member that is equal to it, or adds it.
fn put_member(plain: bool, members: &mut Vec<Element>, element: Element) -> Result<(), NoMemory>
    ensures { OnOk result (members.new.items ≡ members_set (equal_to plain element) members.old.items element) }
{
    match place_in(plain, members.as_slice(), &element) {
        Some(place) => members[place] = element,
        None => members.push(element)?,
    }
    Ok(())
}

/// Removes the member that is equal to an element.
fn remove_member(plain: bool, members: &mut Vec<Element>, element: &Element)
    ensures { members.new.items ≡ members_without (equal_to plain element.now) members.old.items }
{
    if let Some(place) = place_in(plain, members.as_slice(), element) {
        members.remove(place);
    }
}

/// Changes the rows of a bag.
fn change_bag(plain: bool, rows: &mut Vec<(Element, u32)>, change: Change) -> Result<(), NoMemory>
    ensures { OnOk result (bag_content plain rows.new.items
        ≡ content_after (change_of change) (bag_content plain rows.old.items)) }
{
    match change {
        Change::AddMember { element } => add_one(plain, rows, element),
        Change::PutMember { element } => put_one(plain, rows, element),
        Change::RemoveMember { element } => {
            remove_one(plain, rows, &element);
            Ok(())
        }
        _ => Ok(()),
    }
}

/// Counts one more of an element.
fn add_one(plain: bool, rows: &mut Vec<(Element, u32)>, element: Element) -> Result<(), NoMemory>
    ensures { let test = equal_to plain element in
        OnOk result (rows.new.items ≡ rows_with_one_more test rows.old.items element (lookup test rows.old.items)) }
{
    match row_place(plain, rows.as_slice(), &element) {
        Some(place) => {
            let row = &mut rows[place];
            let Some(more) = row.1.checked_add(1) else {
                return Err(NoMemory);
            };
            row.1 = more;
        }
        None => rows.push((element, 1))?,
    }
    Ok(())
}

/// Puts an element in place of the member that is equal to it, or adds it.
fn put_one(plain: bool, rows: &mut Vec<(Element, u32)>, element: Element) -> Result<(), NoMemory>
    ensures { OnOk result (rows.new.items ≡ rows_set (equal_to plain element) rows.old.items element) }
{
    match row_place(plain, rows.as_slice(), &element) {
        Some(place) => rows[place].0 = element,
        None => rows.push((element, 1))?,
    }
    Ok(())
}

/// Counts one less of the member that is equal to an element.
fn remove_one(plain: bool, rows: &mut Vec<(Element, u32)>, element: &Element)
    ensures { rows.new.items ≡ rows_without (equal_to plain element.now) rows.old.items }
{
    if let Some(place) = row_place(plain, rows.as_slice(), element) {
        let count = rows[place].1;
        if count == 1 {
            rows.remove(place);
        } else {
            let row = &mut rows[place];
            row.1 = count.saturating_sub(1);
        }
    }
}

/// Changes the elements of a heap.
fn change_heap(alloc: Global, heap: &mut Heap, change: Change) -> Result<(), NoMemory>
    ensures { let before = heap_content heap.old.plain heap.old.adds heap.old.rows in
        OnOk result (heap_content heap.new.plain heap.new.adds heap.new.rows
        ≡ content_after (change_of change) before) }
{
    match change {
        Change::AddMember { element } => {
            let before = mem::replace(heap, Heap::new(alloc, false));
            *heap = before.with(alloc, element)?;
            Ok(())
        }
        Change::RemoveLeast => {
            let before = mem::replace(heap, Heap::new(alloc, false));
            *heap = before.without_least(alloc)?;
            Ok(())
        }
        _ => Ok(()),
    }
}

/// Changes an item.
fn change_item(valid: &mut bool, item: &mut Item, change: &Change)
    ensures { (handler : ℕ) (info : Option ℕ)
        → item_content handler info valid.new (item_of item.new)
        ≡ content_after (change_of change.now) (item_content handler info valid.old (item_of item.old)) }
{
    if let Change::Item {
        valid: now,
        item: next,
    } = change
    {
        *valid = *now;
        *item = *next;
    }
}
