//! The objects that a statement uses.
ghost use Rattle.std.specs.Prelude.{◌≡◌, map, None};
ghost use Rattle.std.specs.Option.{option_map};
ghost use Rattle.cf_contents.specs.Keys.{numbered, number_of};
ghost use Rattle.cf_body.specs.Bodies.{held_of};
ghost use Rattle.cf_contents.specs.Seen.{read_in, units_in, mutable_units_in, mutable_bytes_in, number_in, fields_in, elements_in, heap_in};
ghost use Rattle.cf_contents.specs.Stores.{objects_of};

use cf_array::Array;
use cf_body::{Body, Kind};
use cf_data::Bytes;
use cf_ids::ObjId;
use cf_members::ElementHeap;
use cf_number::Num;
use cf_string::Str;
use std::marker::Model;

/// An object that was made, with its number. Contracts see that, its type and what it contains.
#[derive(Drop)]
pub(crate) struct Seen<'a> {
    pub(crate) number: ObjId,
    pub(crate) body: &'a Body,
}

impl<'a> Model for Seen<'a> {
    ghost use Rattle.cf_contents.specs.Keys.{Numbered};

    ghost Value = { Numbered };

    ghost use Rattle.cf_body.specs.Bodies.{object_in};

    ghost view = { λ s. record { number = s.number; object = object_in s.body.now } };
}

/// The objects of the variables that a statement uses, each where it was made.
#[derive(Drop)]
pub(crate) struct Found<'a> {
    pub(crate) first: Option<Seen<'a>>,
    pub(crate) second: Option<Seen<'a>>,
    pub(crate) third: Option<Seen<'a>>,
}

/// The object of a number, where it was made.
pub(crate) fn see<'a>(bodies: &'a [Body], o: Option<ObjId>) -> Option<Seen<'a>>
    ensures { result ≡ numbered (objects_of (map held_of bodies.now)) o }
{
    let Some(number) = o else {
        return None;
    };
    let place = number.0 as usize;
    if bodies.len() <= place {
        return None;
    }
    let body = &bodies[place];
    Some(Seen { number, body })
}

/// The number of an object.
pub(crate) fn number_of(seen: &Option<Seen>) -> Option<ObjId>
    ensures { result ≡ number_of seen.now }
{
    match seen {
        Some(seen) => Some(seen.number),
        None => None,
    }
}

/// The text of a string, mutable or not.
pub(crate) fn text_in<'a>(seen: &Option<Seen<'a>>) -> Option<&'a Str>
    ensures { option_map (λ text. text.now.units) result ≡ read_in units_in seen.now }
{
    let Some(seen) = seen else {
        return None;
    };
    let body = seen.body;
    match body.kind() {
        Kind::Text { text, .. } => Some(text),
        _ => None,
    }
}

/// The text of a mutable string.
pub(crate) fn mutable_text_in<'a>(seen: &Option<Seen<'a>>) -> Option<&'a Str>
    ensures { option_map (λ text. text.now.units) result ≡ read_in mutable_units_in seen.now }
{
    let Some(seen) = seen else {
        return None;
    };
    let body = seen.body;
    match body.kind() {
        Kind::Text {
            mutable: true,
            text,
        } => Some(text),
        _ => None,
    }
}

/// The bytes of mutable data.
pub(crate) fn mutable_bytes_in<'a>(seen: &Option<Seen<'a>>) -> Option<&'a Bytes>
    ensures { option_map (λ bytes. bytes.now.items) result ≡ read_in mutable_bytes_in seen.now }
{
    let Some(seen) = seen else {
        return None;
    };
    let body = seen.body;
    match body.kind() {
        Kind::Data {
            mutable: true,
            bytes,
        } => Some(bytes),
        _ => None,
    }
}

/// The number that an object is.
pub(crate) fn number_in(seen: &Option<Seen>) -> Option<Num>
    ensures { result ≡ read_in number_in seen.now }
{
    let Some(seen) = seen else {
        return None;
    };
    let body = seen.body;
    match body.kind() {
        Kind::Number(number) => Some(*number),
        _ => None,
    }
}

/// The fields of an instance.
pub(crate) fn fields_in<'a>(seen: &Option<Seen<'a>>) -> Option<&'a [Option<ObjId>]>
    ensures { option_map (λ fields. fields.now) result ≡ read_in fields_in seen.now }
{
    let Some(seen) = seen else {
        return None;
    };
    let body = seen.body;
    match body.kind() {
        Kind::Instance(instance) => Some(instance.fields.as_slice()),
        _ => None,
    }
}

/// The elements of an array.
pub(crate) fn elements_in<'a>(seen: &Option<Seen<'a>>) -> Option<&'a Array<ObjId>>
    ensures { option_map (λ elements. elements.now.items) result ≡ read_in elements_in seen.now }
{
    let Some(seen) = seen else {
        return None;
    };
    let body = seen.body;
    match body.kind() {
        Kind::Array { elements, .. } => Some(elements),
        _ => None,
    }
}

/// The elements of a heap.
pub(crate) fn heap_in<'a>(seen: &Option<Seen<'a>>) -> Option<&'a ElementHeap>
    ensures { option_map (λ heap. record { plain = heap.now.plain; adds = heap.now.adds; rows = heap.now.rows }) result
        ≡ read_in heap_in seen.now }
{
    let Some(seen) = seen else {
        return None;
    };
    let body = seen.body;
    match body.kind() {
        Kind::Heap(heap) => Some(heap),
        _ => None,
    }
}
