//! The objects that a statement uses.
ghost use Rattle.std.specs.Prelude.{◌≡◌, ℕ, IfOk};
ghost use Rattle.std.specs.Option.{option_map};
ghost use Rattle.cf_contents.specs.Keys.{numbered, number_of};
ghost use Rattle.cf_contents.specs.Seen.{elements_in, fields_in, mutable_bytes_in, mutable_units_in, number_in, read_in, units_in};
ghost use Rattle.cf_plain.specs.Deeds.{FoundKey, FoundMember, IsKey, IsMember, heap_in};

use crate::content::{Content, Object};
use crate::element::Element;
use crate::heap::Heap;
use crate::key::element_of;
use crate::moved::{member_at, row_at, value_at};
use cf_ids::ObjId;
use cf_number::Num;
use cf_syntax::ClassLine;
use std::alloc::{AllocError as NoMemory, Global};
use std::marker::Model;

/// An object that was made, with its number.
#[derive(Drop)]
pub struct Seen<'a> {
    pub(crate) number: ObjId,
    pub(crate) object: &'a Object,
}

impl<'a> Model for Seen<'a> {
    ghost use Rattle.cf_contents.specs.Keys.{Numbered};

    ghost Value = { Numbered };

    ghost view = { λ s. record { number = s.number; object = s.object.now } };
}

/// The objects of the variables that a statement uses, each if it was made.
#[derive(Drop)]
pub struct Found<'a> {
    pub first: Option<Seen<'a>>,
    pub second: Option<Seen<'a>>,
    pub third: Option<Seen<'a>>,
}

/// The object of a number, if it was made.
pub fn see<'a>(objects: &'a [Object], number: Option<ObjId>) -> Option<Seen<'a>>
    ensures { result ≡ numbered objects.now number }
{
    let Some(number) = number else {
        return None;
    };
    match objects.get(number.0 as usize) {
        Some(object) => Some(Seen { number, object }),
        None => None,
    }
}

/// The number of an object.
pub(crate) fn number_of(seen: &Option<Seen>) -> Option<ObjId>
    ensures { result ≡ number_of seen.now }
{
    match seen {
        Some(seen) => Some(seen.number),
        None => None,
    }
}

/// The units of a text.
pub(crate) fn units_in<'a>(seen: &Option<Seen<'a>>) -> Option<&'a [u16]>
    ensures { option_map (λ units. units.now) result ≡ read_in units_in seen.now }
{
    let Some(seen) = seen else {
        return None;
    };
    let object = seen.object;
    match &object.content {
        Content::Text { units, .. } => Some(units.as_slice()),
        _ => None,
    }
}

/// The units of a mutable text.
pub(crate) fn mutable_units_in<'a>(seen: &Option<Seen<'a>>) -> Option<&'a [u16]>
    ensures { option_map (λ units. units.now) result ≡ read_in mutable_units_in seen.now }
{
    let Some(seen) = seen else {
        return None;
    };
    let object = seen.object;
    match &object.content {
        Content::Text {
            mutable: true,
            units,
        } => Some(units.as_slice()),
        _ => None,
    }
}

/// The bytes of mutable data.
pub(crate) fn mutable_bytes_in<'a>(seen: &Option<Seen<'a>>) -> Option<&'a [u8]>
    ensures { option_map (λ bytes. bytes.now) result ≡ read_in mutable_bytes_in seen.now }
{
    let Some(seen) = seen else {
        return None;
    };
    let object = seen.object;
    match &object.content {
        Content::Data {
            mutable: true,
            bytes,
        } => Some(bytes.as_slice()),
        _ => None,
    }
}

/// A number.
pub(crate) fn number_in(seen: &Option<Seen>) -> Option<Num>
    ensures { result ≡ read_in number_in seen.now }
{
    let Some(seen) = seen else {
        return None;
    };
    let object = seen.object;
    match &object.content {
        Content::Number(number) => Some(*number),
        _ => None,
    }
}

/// The fields of an instance.
pub(crate) fn fields_in<'a>(seen: &Option<Seen<'a>>) -> Option<&'a [Option<ObjId>]>
    ensures { option_map (λ fields. fields.now) result ≡ read_in fields_in seen.now }
{
    let Some(seen) = seen else {
        return None;
    };
    let object = seen.object;
    match &object.content {
        Content::Instance { fields, .. } => Some(fields.as_slice()),
        _ => None,
    }
}

/// The elements of an array.
pub(crate) fn elements_in<'a>(seen: &Option<Seen<'a>>) -> Option<&'a [ObjId]>
    ensures { option_map (λ elements. elements.now) result ≡ read_in elements_in seen.now }
{
    let Some(seen) = seen else {
        return None;
    };
    let object = seen.object;
    match &object.content {
        Content::Array { elements, .. } => Some(elements.as_slice()),
        _ => None,
    }
}

/// A heap.
pub(crate) fn heap_in<'a>(seen: &Option<Seen<'a>>) -> Option<&'a Heap>
    ensures { option_map (λ heap. heap.now) result ≡ read_in heap_in seen.now }
{
    let Some(seen) = seen else {
        return None;
    };
    let object = seen.object;
    match &object.content {
        Content::Heap(heap) => Some(heap),
        _ => None,
    }
}

/// A key, and the value of the key in a dictionary that is equal to it, if there is one.
#[derive(Drop)]
pub(crate) struct Key {
    pub(crate) key: Element,
    pub(crate) value: Option<ObjId>,
}

impl Model for Key {
    ghost use Rattle.cf_plain.specs.Deeds.{FoundKey};

    ghost Value = { FoundKey };

    ghost view = { λ k. record { key = k.key; value = k.value } };
}

/// The second object that is used as a key of the first one, if that is a dictionary.
pub(crate) fn find_key(
    alloc: Global,
    classes: &[ClassLine],
    used: &Found,
) -> Result<Option<Key>, NoMemory>
    ensures { IfOk result (λ found. IsKey classes.now used.now.first used.now.second found) }
{
    let Some(dictionary) = &used.first else {
        return Ok(None);
    };
    let Some(key) = &used.second else {
        return Ok(None);
    };
    let object = dictionary.object;
    let Content::Dictionary { plain, pairs } = &object.content else {
        return Ok(None);
    };
    let key = element_of(alloc, classes, key.number, key.object)?;
    let value = value_at(*plain, pairs.as_slice(), &key);
    Ok(Some(Key { key, value }))
}

/// An element, and the row that it has in a set or a bag, if there is one.
#[derive(Drop)]
pub(crate) struct Member {
    pub(crate) counts: bool,
    pub(crate) element: Element,
    pub(crate) row: Option<(ObjId, u32)>,
}

impl Model for Member {
    ghost use Rattle.cf_plain.specs.Deeds.{FoundMember};

    ghost Value = { FoundMember };

    ghost view = { λ m. record { counts = m.counts; element = m.element; row = m.row } };
}

/// The second object that is used as an element of the first one, if that is a set or a bag.
pub(crate) fn find_member(
    alloc: Global,
    classes: &[ClassLine],
    used: &Found,
) -> Result<Option<Member>, NoMemory>
    ensures { IfOk result (λ found. IsMember classes.now used.now.first used.now.second found) }
{
    let Some(collection) = &used.first else {
        return Ok(None);
    };
    let Some(element) = &used.second else {
        return Ok(None);
    };
    let object = collection.object;
    match &object.content {
        Content::Set { plain, members } => {
            let element = element_of(alloc, classes, element.number, element.object)?;
            let row = once(member_at(*plain, members.as_slice(), &element));
            Ok(Some(Member {
                counts: false,
                element,
                row,
            }))
        }
        Content::Bag { plain, rows } => {
            let element = element_of(alloc, classes, element.number, element.object)?;
            let row = row_at(*plain, rows.as_slice(), &element);
            Ok(Some(Member {
                counts: true,
                element,
                row,
            }))
        }
        _ => Ok(None),
    }
}

/// A member of a set as a row: it is there once.
fn once(member: Option<ObjId>) -> Option<(ObjId, u32)>
    ensures { result ≡ option_map (λ (o : ℕ). (o, 1)) member }
{
    match member {
        Some(member) => Some((member, 1)),
        None => None,
    }
}
