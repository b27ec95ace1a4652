//! What statements do to arrays and to fields.
ghost use Rattle.std.specs.Prelude.{◌≡◌, [], ◌∷◌, Some, None, true, length, slice_get, nat_lt, nat_le};
ghost use Rattle.cf_contents.specs.Deeds.{with_object, with_elements, with_fields, within, places_edit, binding, in_field, deed_of};
ghost use Rattle.cf_store.specs.Applies.{Does};
ghost use Rattle.cf_contents.specs.Groups.{acts_on_places};

use crate::plan::Plan;
use crate::seen::{Found, elements_in, fields_in, number_of};
use cf_body::BodyChange;
use cf_ids::Answer;
use cf_syntax::Statement;

/// What a statement does to an array or to fields.
pub(crate) fn place_plan(statement: &Statement, used: &Found) -> Plan
    requires { acts_on_places statement.now ≡ true }
    ensures { let deed = deed_of [] statement.now used.now.first used.now.second used.now.third in
        Does deed used.now.first result }
{
    match statement {
        Statement::ArrAppend { .. } => append_element(used),
        Statement::ArrInsert { at, .. } => insert_element(used, *at),
        Statement::ArrSet { at, .. } => replace_element(used, *at),
        Statement::ArrRemove { at, .. } => remove_element(used, *at),
        Statement::ArrTake { at, .. } => take_element(used, *at),
        Statement::FieldSet { at, .. } => fill_field(used, *at),
        Statement::FieldClear { at, .. } => clear_field(used, *at),
        Statement::FieldTake { at, .. } => take_field(used, *at),
        _ => unreachable!(),
    }
}

/// Puts an element after the last one.
fn append_element(used: &Found) -> Plan
    ensures { let deed = with_elements used.now.first
        (λ os. with_object used.now.second (λ u. places_edit (length os) 0 (Some u.number ∷ []))) in
        Does deed used.now.first result }
{
    let Some(elements) = elements_in(&used.first) else {
        return Plan::skipping();
    };
    let Some(element) = number_of(&used.second) else {
        return Plan::skipping();
    };
    let at = elements.length();
    Plan::changing(Answer::Ok, BodyChange::Insert { at, element })
}

/// Puts an element in before the one at a place.
fn insert_element(used: &Found, at: u32) -> Plan
    ensures { let deed = with_elements used.now.first
        (λ os. with_object used.now.second (λ u. within (nat_le at (length os)) (places_edit at 0 (Some u.number ∷ [])))) in
        Does deed used.now.first result }
{
    let at = at as usize;
    let Some(elements) = elements_in(&used.first) else {
        return Plan::skipping();
    };
    let Some(element) = number_of(&used.second) else {
        return Plan::skipping();
    };
    if elements.length() < at {
        return Plan::answering(Answer::Range);
    }
    Plan::changing(Answer::Ok, BodyChange::Insert { at, element })
}

/// Puts an element in place of the one at a place, or after the last one.
fn replace_element(used: &Found, at: u32) -> Plan
    ensures { let deed = with_elements used.now.first
        (λ os. with_object used.now.second (λ u. within (nat_le at (length os)) (places_edit at 1 (Some u.number ∷ [])))) in
        Does deed used.now.first result }
{
    let at = at as usize;
    let Some(elements) = elements_in(&used.first) else {
        return Plan::skipping();
    };
    let Some(element) = number_of(&used.second) else {
        return Plan::skipping();
    };
    if elements.length() < at {
        return Plan::answering(Answer::Range);
    }
    Plan::changing(Answer::Ok, BodyChange::Replace { at, element })
}

/// Removes the element at a place.
fn remove_element(used: &Found, at: u32) -> Plan
    ensures { let deed = with_elements used.now.first (λ os. within (nat_lt at (length os)) (places_edit at 1 [])) in
        Does deed used.now.first result }
{
    let at = at as usize;
    let Some(elements) = elements_in(&used.first) else {
        return Plan::skipping();
    };
    if elements.length() <= at {
        return Plan::answering(Answer::Range);
    }
    Plan::changing(Answer::Ok, BodyChange::Remove { at })
}

/// Binds the element at a place, where there is one.
fn take_element(used: &Found, at: u32) -> Plan
    ensures { let deed = with_elements used.now.first (λ os. binding (slice_get os at)) in
        Does deed used.now.first result }
{
    let Some(elements) = elements_in(&used.first) else {
        return Plan::skipping();
    };
    Plan::binding(elements.get(at as usize).copied())
}

/// Puts an object in a field.
fn fill_field(used: &Found, at: u32) -> Plan
    ensures { let deed = with_fields used.now.first
        (λ fields. with_object used.now.second (λ u. within (nat_lt at (length fields)) (places_edit at 1 (Some u.number ∷ [])))) in
        Does deed used.now.first result }
{
    let at = at as usize;
    let Some(fields) = fields_in(&used.first) else {
        return Plan::skipping();
    };
    let Some(element) = number_of(&used.second) else {
        return Plan::skipping();
    };
    if fields.len() <= at {
        return Plan::answering(Answer::Range);
    }
    Plan::changing(Answer::Ok, BodyChange::Fill { at, element })
}

/// Empties a field.
fn clear_field(used: &Found, at: u32) -> Plan
    ensures { let deed = with_fields used.now.first
        (λ fields. within (nat_lt at (length fields)) (places_edit at 1 (None ∷ []))) in
        Does deed used.now.first result }
{
    let at = at as usize;
    let Some(fields) = fields_in(&used.first) else {
        return Plan::skipping();
    };
    if fields.len() <= at {
        return Plan::answering(Answer::Range);
    }
    Plan::changing(Answer::Ok, BodyChange::Clear { at })
}

/// Binds the object in a field, where there is one.
fn take_field(used: &Found, at: u32) -> Plan
    ensures { let deed = with_fields used.now.first (λ fields. binding (in_field (slice_get fields at))) in
        Does deed used.now.first result }
{
    let Some(fields) = fields_in(&used.first) else {
        return Plan::skipping();
    };
    match fields.get(at as usize) {
        Some(field) => Plan::binding(*field),
        None => Plan::binding(None),
    }
}
