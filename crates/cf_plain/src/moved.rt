//! What a change of a content takes in and gives out.
ghost use Rattle.std.specs.Prelude.{◌≡◌, ℕ, ◌∷◌, [], None, drop, find, take, IfOk};
ghost use Rattle.std.specs.Map.{lookup, lookup_entry, lookup_key};
ghost use Rattle.std.specs.Option.{option_map, option_to_list};
ghost use Rattle.cf_types.specs.declared.cells.Cell.{Cell};
ghost use Rattle.cf_contents.specs.Keys.{equal_to};
ghost use Rattle.cf_contents.specs.Contents.{flat, numbered_row, present, unless_plain};
ghost use Rattle.cf_contents.specs.Deeds.{coming_in, going_out, entering, leaving, put_entering, put_leaving, removed_leaving, added_entering, put_member_entering, put_member_leaving, removed_member_leaving, least_leaving};
ghost use Rattle.cf_plain.specs.Views.{change_of, content_of, edit_of, entered_of, last_one, out_of};

use crate::change::{Change, Entered};
use crate::content::Content;
use crate::element::Element;
use crate::list::{contains, has_row, place_in, row_place};
use cf_ids::ObjId;
use std::alloc::{AllocError as NoMemory, Global};

/// Up to two objects as a list.
fn listed(
    alloc: Global,
    first: Option<ObjId>,
    second: Option<ObjId>,
) -> Result<Vec<ObjId>, NoMemory>
    ensures { IfOk result (λ v. v.items ≡ present (first ∷ second ∷ [])) }
{
    let mut objects = Vec::new(alloc);
    if let Some(object) = first {
        objects.push(object)?;
    }
    if let Some(object) = second {
        objects.push(object)?;
    }
    Ok(objects)
}

/// The same of a collection: a plain one holds nothing.
fn held(
    alloc: Global,
    plain: bool,
    first: Option<ObjId>,
    second: Option<ObjId>,
) -> Result<Vec<ObjId>, NoMemory>
    ensures { IfOk result (λ v. v.items ≡ unless_plain plain (present (first ∷ second ∷ []))) }
{
    if plain {
        Ok(Vec::new(alloc))
    } else {
        listed(alloc, first, second)
    }
}

/// The objects that a change of a content takes in, in order.
pub fn coming_in(alloc: Global, change: &Change, content: &Content) -> Result<Vec<ObjId>, NoMemory>
    ensures { IfOk result (λ v. v.items ≡ coming_in (change_of change.now) (content_of content.now)) }
{
    match change {
        Change::Places { at, out, enter } => entering(alloc, *at, *out, enter, content),
        Change::PutPair { key, value } => put_entering(alloc, key, *value, content),
        Change::AddMember { element } => added_entering(alloc, element, content),
        Change::PutMember { element } => put_member_entering(alloc, element, content),
        _ => Ok(Vec::new(alloc)),
    }
}

/// The objects that a change of a content gives out, in order.
pub fn going_out(alloc: Global, change: &Change, content: &Content) -> Result<Vec<ObjId>, NoMemory>
    ensures { IfOk result (λ v. v.items ≡ going_out (change_of change.now) (content_of content.now)) }
{
    match change {
        Change::Places { at, out, enter } => leaving(alloc, *at, *out, enter, content),
        Change::PutPair { key, .. } => put_leaving(alloc, key, content),
        Change::RemovePair { key } => removed_leaving(alloc, key, content),
        Change::PutMember { element } => put_member_leaving(alloc, element, content),
        Change::RemoveMember { element } => removed_member_leaving(alloc, element, content),
        Change::RemoveLeast => least_leaving(alloc, content),
        _ => Ok(Vec::new(alloc)),
    }
}

/// The object that comes into a field or an array.
fn object_entered(enter: &Entered) -> Option<ObjId>
    ensures { present (result ∷ None ∷ []) ≡ present (entered_of enter.now) }
{
    match enter {
        Entered::Object(object) => Some(*object),
        _ => None,
    }
}

/// The objects that an edit of places takes in.
fn entering(
    alloc: Global,
    at: usize,
    out: bool,
    enter: &Entered,
    content: &Content,
) -> Result<Vec<ObjId>, NoMemory>
    ensures { IfOk result (λ v. v.items ≡ entering (edit_of at out enter.now) (content_of content.now)) }
{
    match content {
        Content::Instance { .. } => listed(alloc, object_entered(enter), None),
        Content::Array { plain, .. } => held(alloc, *plain, object_entered(enter), None),
        _ => Ok(Vec::new(alloc)),
    }
}

/// The objects that an edit of places gives out.
fn leaving(
    alloc: Global,
    at: usize,
    out: bool,
    enter: &Entered,
    content: &Content,
) -> Result<Vec<ObjId>, NoMemory>
    ensures { IfOk result (λ v. v.items ≡ leaving (edit_of at out enter.now) (content_of content.now)) }
{
    match content {
        Content::Instance { fields, .. } => {
            listed(alloc, field_out(fields.as_slice(), at, out), None)
        }
        Content::Array { plain, elements } => {
            held(
                alloc,
                *plain,
                element_out(elements.as_slice(), at, out),
                None,
            )
        }
        _ => Ok(Vec::new(alloc)),
    }
}

/// The object in a field that goes out.
fn field_out(fields: &[Option<ObjId>], at: usize, out: bool) -> Option<ObjId>
    ensures { present (result ∷ None ∷ []) ≡ present (take (out_of out) (drop at fields.now)) }
{
    if !out {
        return None;
    }
    match fields.get(at) {
        Some(field) => *field,
        None => None,
    }
}

/// The element that goes out.
fn element_out(elements: &[ObjId], at: usize, out: bool) -> Option<ObjId>
    ensures { present (result ∷ None ∷ []) ≡ take (out_of out) (drop at elements.now) }
{
    if out { elements.get(at).copied() } else { None }
}

/// The objects that a pair which is put in takes in.
fn put_entering(
    alloc: Global,
    key: &Element,
    value: ObjId,
    content: &Content,
) -> Result<Vec<ObjId>, NoMemory>
    ensures { IfOk result (λ v. v.items ≡ put_entering key.now value (content_of content.now)) }
{
    match content {
        Content::Dictionary { plain, pairs } => {
            if has_row(*plain, pairs.as_slice(), key) {
                held(alloc, *plain, Some(value), None)
            } else {
                held(alloc, *plain, Some(key.id()), Some(value))
            }
        }
        _ => Ok(Vec::new(alloc)),
    }
}

/// The value of the first pair whose key is equal to a key.
pub(crate) fn value_at(plain: bool, pairs: &[(Element, ObjId)], key: &Element) -> Option<ObjId>
    ensures { result ≡ lookup (equal_to plain key.now) pairs.now }
{
    match row_place(plain, pairs, key) {
        Some(place) => {
            let row = &pairs[place];
            Some(row.1)
        }
        None => None,
    }
}

/// The key of the first pair whose key is equal to a key.
fn key_at(plain: bool, pairs: &[(Element, ObjId)], key: &Element) -> Option<ObjId>
    ensures { result ≡ option_map (λ (p : Cell × ℕ). p.0.id) (lookup_entry (equal_to plain key.now) pairs.now) }
{
    match row_place(plain, pairs, key) {
        Some(place) => {
            let row = &pairs[place];
            Some(row.0.id())
        }
        None => None,
    }
}

/// The objects that a pair which is put in gives out.
fn put_leaving(alloc: Global, key: &Element, content: &Content) -> Result<Vec<ObjId>, NoMemory>
    ensures { IfOk result (λ v. v.items ≡ put_leaving key.now (content_of content.now)) }
{
    match content {
        Content::Dictionary { plain, pairs } => {
            held(alloc, *plain, value_at(*plain, pairs.as_slice(), key), None)
        }
        _ => Ok(Vec::new(alloc)),
    }
}

/// The objects that a pair which is removed gives out.
fn removed_leaving(alloc: Global, key: &Element, content: &Content) -> Result<Vec<ObjId>, NoMemory>
    ensures { IfOk result (λ v. v.items ≡ removed_leaving key.now (content_of content.now)) }
{
    match content {
        Content::Dictionary { plain, pairs } => { pair_out(alloc, *plain, pairs.as_slice(), key) }
        _ => Ok(Vec::new(alloc)),
    }
}

/// The key and the value of the first pair whose key is equal to a key, unless a dictionary is plain.
fn pair_out(
    alloc: Global,
    plain: bool,
    pairs: &[(Element, ObjId)],
    key: &Element,
) -> Result<Vec<ObjId>, NoMemory>
    ensures { let found = lookup_entry (equal_to plain key.now) pairs.now in
        IfOk result (λ v. v.items ≡ unless_plain plain (flat (option_to_list found))) }
{
    let found = key_at(plain, pairs, key);
    let value = value_at(plain, pairs, key);
    held(alloc, plain, found, value)
}

/// The objects that an element which is added takes in.
fn added_entering(
    alloc: Global,
    element: &Element,
    content: &Content,
) -> Result<Vec<ObjId>, NoMemory>
    ensures { IfOk result (λ v. v.items ≡ added_entering element.now (content_of content.now)) }
{
    match content {
        Content::Set { plain, members } => {
            if contains(*plain, members.as_slice(), element) {
                Ok(Vec::new(alloc))
            } else {
                held(alloc, *plain, Some(element.id()), None)
            }
        }
        Content::Bag { plain, rows } => {
            if has_row(*plain, rows.as_slice(), element) {
                Ok(Vec::new(alloc))
            } else {
                held(alloc, *plain, Some(element.id()), None)
            }
        }
        Content::Heap(heap) => held(alloc, heap.plain(), Some(element.id()), None),
        _ => Ok(Vec::new(alloc)),
    }
}

/// The objects that a member which is put in takes in.
fn put_member_entering(
    alloc: Global,
    element: &Element,
    content: &Content,
) -> Result<Vec<ObjId>, NoMemory>
    ensures { IfOk result (λ v. v.items ≡ put_member_entering element.now (content_of content.now)) }
{
    match content {
        Content::Set { plain, .. } | Content::Bag { plain, .. } => {
            held(alloc, *plain, Some(element.id()), None)
        }
        _ => Ok(Vec::new(alloc)),
    }
}

/// The first member of a set that is equal to an element.
pub(crate) fn member_at(plain: bool, members: &[Element], element: &Element) -> Option<ObjId>
    ensures { result ≡ option_map (λ (m : Cell). m.id) (find (equal_to plain element.now) members.now) }
{
    match place_in(plain, members, element) {
        Some(place) => {
            let member = &members[place];
            Some(member.id())
        }
        None => None,
    }
}

/// The first row of a bag whose member is equal to an element.
pub(crate) fn row_at(
    plain: bool,
    rows: &[(Element, u32)],
    element: &Element,
) -> Option<(ObjId, u32)>
    ensures { result ≡ option_map numbered_row (lookup_entry (equal_to plain element.now) rows.now) }
{
    match row_place(plain, rows, element) {
        Some(place) => {
            let row = &rows[place];
            Some((row.0.id(), row.1))
        }
        None => None,
    }
}

/// The member of the first row whose member is equal to an element.
fn row_member(plain: bool, rows: &[(Element, u32)], element: &Element) -> Option<ObjId>
    ensures { result ≡ option_map (λ (m : Cell). m.id) (lookup_key (equal_to plain element.now) rows.now) }
{
    match row_place(plain, rows, element) {
        Some(place) => {
            let row = &rows[place];
            Some(row.0.id())
        }
        None => None,
    }
}

/// The objects that a member which is put in gives out: its equal, if there is one.
fn put_member_leaving(
    alloc: Global,
    element: &Element,
    content: &Content,
) -> Result<Vec<ObjId>, NoMemory>
    ensures { IfOk result (λ v. v.items ≡ put_member_leaving element.now (content_of content.now)) }
{
    match content {
        Content::Set { plain, members } => {
            held(
                alloc,
                *plain,
                member_at(*plain, members.as_slice(), element),
                None,
            )
        }
        Content::Bag { plain, rows } => {
            held(
                alloc,
                *plain,
                row_member(*plain, rows.as_slice(), element),
                None,
            )
        }
        _ => Ok(Vec::new(alloc)),
    }
}

/// The member of a row that has it once.
fn if_last(row: Option<(ObjId, u32)>) -> Option<ObjId>
    ensures { result ≡ last_one row }
{
    match row {
        Some((member, 1)) => Some(member),
        _ => None,
    }
}

/// The objects that a member which is removed gives out.
fn removed_member_leaving(
    alloc: Global,
    element: &Element,
    content: &Content,
) -> Result<Vec<ObjId>, NoMemory>
    ensures { IfOk result (λ v. v.items ≡ removed_member_leaving element.now (content_of content.now)) }
{
    match content {
        Content::Set { plain, members } => {
            held(
                alloc,
                *plain,
                member_at(*plain, members.as_slice(), element),
                None,
            )
        }
        Content::Bag { plain, rows } => {
            let row = row_at(*plain, rows.as_slice(), element);
            held(alloc, *plain, if_last(row), None)
        }
        _ => Ok(Vec::new(alloc)),
    }
}

/// The objects that the least element gives out as it is removed.
fn least_leaving(alloc: Global, content: &Content) -> Result<Vec<ObjId>, NoMemory>
    ensures { IfOk result (λ v. v.items ≡ least_leaving (content_of content.now)) }
{
    match content {
        Content::Heap(heap) => held(alloc, heap.plain(), heap.least(), None),
        _ => Ok(Vec::new(alloc)),
    }
}
