//! What statements do to arrays and to fields.
ghost use Rattle.std.specs.Prelude.{◌≡◌, [], ◌∷◌, Some, None, true, length, slice_get, nat_lt, nat_le};
ghost use Rattle.cf_contents.specs.Deeds.{with_object, with_elements, with_fields, within, places_edit, binding, in_field, deed_of as deed_in};
ghost use Rattle.cf_plain.specs.Deeds.{deed_of};
ghost use Rattle.cf_contents.specs.Groups.{acts_on_places};
ghost use Rattle.cf_plain.specs.Views.{entered_of, out_of};

use crate::change::{Change, Entered};
use crate::deed::Deed;
use crate::seen::{Found, elements_in, fields_in, number_of};
use cf_ids::Answer;
use cf_syntax::Statement;

/// What a statement does to an array or to fields.
pub(crate) fn place_deed(statement: &Statement, used: &Found) -> Deed
    requires { acts_on_places statement.now ≡ true }
    ensures { deed_of result ≡ deed_in [] statement.now used.now.first used.now.second used.now.third }
{
    match statement {
        Statement::ArrAppend { .. } => append_element(used),
        Statement::ArrInsert { at, .. } => put_element(used, *at as usize, false),
        Statement::ArrSet { at, .. } => put_element(used, *at as usize, true),
        Statement::ArrRemove { at, .. } => remove_element(used, *at as usize),
        Statement::ArrTake { at, .. } => take_element(used, *at as usize),
        Statement::FieldSet { at, .. } => fill_field(used, *at as usize),
        Statement::FieldClear { at, .. } => clear_field(used, *at as usize),
        Statement::FieldTake { at, .. } => take_field(used, *at as usize),
        _ => unreachable!(),
    }
}

/// An edit of places.
fn edit(at: usize, out: bool, enter: Entered) -> Deed
    ensures { deed_of result ≡ places_edit at (out_of out) (entered_of enter) }
{
    Deed::changing(Answer::Ok, Change::Places { at, out, enter })
}

/// Puts an element after the last one.
fn append_element(used: &Found) -> Deed
    ensures { deed_of result ≡ with_elements used.now.first
        (λ os. with_object used.now.second (λ u. places_edit (length os) 0 (Some u.number ∷ []))) }
{
    let Some(elements) = elements_in(&used.first) else {
        return Deed::skipping();
    };
    let Some(element) = number_of(&used.second) else {
        return Deed::skipping();
    };
    edit(elements.len(), false, Entered::Object(element))
}

/// Puts an element in before the one at a place, or in its place, or after the last one.
fn put_element(used: &Found, at: usize, out: bool) -> Deed
    ensures { deed_of result ≡ with_elements used.now.first
        (λ os. with_object used.now.second
        (λ u. within (nat_le at (length os)) (places_edit at (out_of out) (Some u.number ∷ [])))) }
{
    let Some(elements) = elements_in(&used.first) else {
        return Deed::skipping();
    };
    let Some(element) = number_of(&used.second) else {
        return Deed::skipping();
    };
    if elements.len() < at {
        return Deed::answering(Answer::Range);
    }
    edit(at, out, Entered::Object(element))
}

/// Removes the element at a place.
fn remove_element(used: &Found, at: usize) -> Deed
    ensures { deed_of result ≡ with_elements used.now.first
        (λ os. within (nat_lt at (length os)) (places_edit at 1 [])) }
{
    let Some(elements) = elements_in(&used.first) else {
        return Deed::skipping();
    };
    if elements.len() <= at {
        return Deed::answering(Answer::Range);
    }
    edit(at, true, Entered::Nothing)
}

/// Binds the element at a place, if there is one.
fn take_element(used: &Found, at: usize) -> Deed
    ensures { deed_of result ≡ with_elements used.now.first (λ os. binding (slice_get os at)) }
{
    let Some(elements) = elements_in(&used.first) else {
        return Deed::skipping();
    };
    Deed::binding(elements.get(at).copied())
}

/// Puts an object in a field.
fn fill_field(used: &Found, at: usize) -> Deed
    ensures { deed_of result ≡ with_fields used.now.first
        (λ fields. with_object used.now.second
        (λ u. within (nat_lt at (length fields)) (places_edit at 1 (Some u.number ∷ [])))) }
{
    let Some(fields) = fields_in(&used.first) else {
        return Deed::skipping();
    };
    let Some(element) = number_of(&used.second) else {
        return Deed::skipping();
    };
    if fields.len() <= at {
        return Deed::answering(Answer::Range);
    }
    edit(at, true, Entered::Object(element))
}

/// Empties a field.
fn clear_field(used: &Found, at: usize) -> Deed
    ensures { deed_of result ≡ with_fields used.now.first
        (λ fields. within (nat_lt at (length fields)) (places_edit at 1 (None ∷ []))) }
{
    let Some(fields) = fields_in(&used.first) else {
        return Deed::skipping();
    };
    if fields.len() <= at {
        return Deed::answering(Answer::Range);
    }
    edit(at, true, Entered::Nil)
}

/// Binds the object in a field, if there is one.
fn take_field(used: &Found, at: usize) -> Deed
    ensures { deed_of result ≡ with_fields used.now.first (λ fields. binding (in_field (slice_get fields at))) }
{
    let Some(fields) = fields_in(&used.first) else {
        return Deed::skipping();
    };
    match fields.get(at) {
        Some(field) => Deed::binding(*field),
        None => Deed::binding(None),
    }
}
