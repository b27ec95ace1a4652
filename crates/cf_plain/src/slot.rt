//! The slots of contents.
ghost use Rattle.std.specs.Prelude.{◌≡◌, ℕ, ◌∷◌, [], slice_get, IfOk};
ghost use Rattle.std.specs.Option.{option_map};
ghost use Rattle.cf_types.specs.declared.cells.Cell.{Cell};
ghost use Rattle.cf_contents.specs.Contents.{flat, id_in_row, ids_of, present, row_ids, slots_in};
ghost use Rattle.cf_plain.specs.Views.{content_of};

use crate::content::Content;
use crate::element::Element;
use cf_ids::ObjId;
use std::alloc::{AllocError as NoMemory, Global};

impl Content {
    /// The object in the slot at a place.
    pub fn slot(&self, place: usize) -> Option<ObjId>
        ensures { result ≡ slice_get (slots_in (content_of self.now)) place }
    {
        match self {
            Content::Instance { fields, .. } => field_slot(fields.as_slice(), place),
            Content::Array {
                plain: false,
                elements,
            } => elements.get(place).copied(),
            Content::Dictionary {
                plain: false,
                pairs,
            } => pair_slot(pairs.as_slice(), place),
            Content::Set {
                plain: false,
                members,
            } => set_slot(members.as_slice(), place),
            Content::Bag { plain: false, rows } => bag_slot(rows.as_slice(), place),
            Content::Heap(heap) => {
                if heap.plain() {
                    None
                } else {
                    heap.at_turn(place)
                }
            }
            Content::Item { info, .. } => info_slot(*info, place),
            _ => None,
        }
    }

    /// The objects in all slots, in order.
    pub fn slots(&self, alloc: Global) -> Result<Vec<ObjId>, NoMemory>
        ensures { IfOk result (λ slots. slots.items ≡ slots_in (content_of self.now)) }
    {
        let mut slots = Vec::new(alloc);
        while let Some(object) = self.slot(slots.len()) {
            slots.push(object)?;
        }
        Ok(slots)
    }
}

/// The object in a field that is filled, after so many others.
fn field_slot(fields: &[Option<ObjId>], place: usize) -> Option<ObjId>
    ensures { result ≡ slice_get (present fields.now) place }
{
    let mut rest = fields;
    let mut left = place;
    while let Some((field, others)) = rest.split_first() {
        if let Some(object) = *field {
            if left == 0 {
                return Some(object);
            }
            left -= 1;
        }
        rest = others;
    }
    None
}

/// An object of a dictionary's pairs, each of which has two.
fn pair_slot(pairs: &[(Element, ObjId)], place: usize) -> Option<ObjId>
    ensures { result ≡ slice_get (flat pairs.now) place }
{
    if place % 2 == 0 {
        key_in(pairs, place / 2)
    } else {
        value_in(pairs, place / 2)
    }
}

/// The key of a pair.
fn key_in(pairs: &[(Element, ObjId)], place: usize) -> Option<ObjId>
    ensures { result ≡ option_map id_in_row (slice_get pairs.now place) }
{
    match pairs.get(place) {
        Some(pair) => Some(pair.0.id()),
        None => None,
    }
}

/// The value of a pair.
fn value_in(pairs: &[(Element, ObjId)], place: usize) -> Option<ObjId>
    ensures { result ≡ option_map (λ (pair : Cell × ℕ). pair.1) (slice_get pairs.now place) }
{
    match pairs.get(place) {
        Some(pair) => Some(pair.1),
        None => None,
    }
}

/// A member of a set.
fn member_slot(members: &[Element], place: usize) -> Option<ObjId>
    ensures { result ≡ option_map (λ (cell : Cell). cell.id) (slice_get members.now place) }
{
    match members.get(place) {
        Some(member) => Some(member.id()),
        None => None,
    }
}

/// The member of a row of a bag.
fn row_slot(rows: &[(Element, u32)], place: usize) -> Option<ObjId>
    ensures { result ≡ option_map id_in_row (slice_get rows.now place) }
{
    match rows.get(place) {
        Some(row) => Some(row.0.id()),
        None => None,
    }
}

/// The info of an item.
fn info_slot(info: Option<ObjId>, place: usize) -> Option<ObjId>
    ensures { result ≡ slice_get (present (info ∷ [])) place }
{
    if place == 0 { info } else { None }
}

/// A slot of a set.
fn set_slot(members: &[Element], place: usize) -> Option<ObjId>
    ensures { result ≡ slice_get (ids_of members.now) place }
{
    member_slot(members, place)
}

/// A slot of a bag.
fn bag_slot(rows: &[(Element, u32)], place: usize) -> Option<ObjId>
    ensures { result ≡ slice_get (row_ids rows.now) place }
{
    row_slot(rows, place)
}
