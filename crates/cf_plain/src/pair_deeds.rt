//! What statements do to dictionaries, sets, bags and heaps.
ghost use Rattle.std.specs.Prelude.{◌≡◌, true, IfOk};
ghost use Rattle.cf_ids.specs.declared.answer.Answer.TheVariants as answers;
ghost use Rattle.cf_contents.specs.Contents.{least_of};
ghost use Rattle.cf_contents.specs.Deeds.{with_object, with_heap, with_key, changing, add_member, binding, adding_pair, setting_pair, replacing_pair, removing_pair, adding_member, setting_member, replacing_member, removing_member, counting_member, object_in_row, removing_least, deed_of as deed_in};
ghost use Rattle.cf_plain.specs.Deeds.{deed_of};
ghost use Rattle.cf_contents.specs.Groups.{acts_on_heaps, acts_on_members, acts_on_pairs};

use crate::change::Change;
use crate::deed::Deed;
use crate::element::Element;
use crate::key::element_of;
use crate::seen::{Found, Key, Member, find_key, find_member, heap_in, number_of};
use cf_ids::{Answer, ObjId};
use cf_syntax::{ClassLine, Statement};
use std::alloc::{AllocError as NoMemory, Global};

/// What a statement does to a dictionary.
pub(crate) fn pair_deed(
    alloc: Global,
    classes: &[ClassLine],
    statement: &Statement,
    used: &Found,
) -> Result<Deed, NoMemory>
    requires { acts_on_pairs statement.now ≡ true }
    ensures { let deed = deed_in classes.now statement.now used.now.first used.now.second used.now.third in
        IfOk result (λ d. deed_of d ≡ deed) }
{
    let Some(found) = find_key(alloc, classes, used)? else {
        return Ok(Deed::skipping());
    };
    Ok(match statement {
        Statement::DictAdd { .. } => add_pair(used, found),
        Statement::DictSet { .. } => set_pair(used, found),
        Statement::DictReplace { .. } => replace_pair(used, found),
        Statement::DictRemove { .. } => remove_pair(found),
        Statement::DictTake { .. } => take_value(&found),
        _ => unreachable!(),
    })
}

/// Binds the value of a key, if it is there.
fn take_value(found: &Key) -> Deed
    ensures { deed_of result ≡ binding found.now.value }
{
    Deed::binding(found.value)
}

/// Adds a pair, unless its key is there.
fn add_pair(used: &Found, found: Key) -> Deed
    ensures { deed_of result ≡ with_object used.now.third (λ u. adding_pair found.key u.number found.value) }
{
    let Some(value) = number_of(&used.third) else {
        return Deed::skipping();
    };
    let Key { key, value: old } = found;
    match old {
        None => Deed::changing(Answer::Ok, Change::PutPair { key, value }),
        Some(_) => Deed::answering(Answer::Present),
    }
}

/// Puts a pair in, its value alone if its key is there.
fn set_pair(used: &Found, found: Key) -> Deed
    ensures { deed_of result ≡ with_object used.now.third (λ u. setting_pair found.key u.number found.value) }
{
    let Some(value) = number_of(&used.third) else {
        return Deed::skipping();
    };
    let Key { key, value: old } = found;
    match old {
        None => Deed::changing(Answer::Added, Change::PutPair { key, value }),
        Some(_) => Deed::changing(Answer::Changed, Change::PutPair { key, value }),
    }
}

/// Lets an object be the value of a key that is there.
fn replace_pair(used: &Found, found: Key) -> Deed
    ensures { deed_of result ≡ with_object used.now.third (λ u. replacing_pair found.key u.number found.value) }
{
    let Some(value) = number_of(&used.third) else {
        return Deed::skipping();
    };
    let Key { key, value: old } = found;
    match old {
        None => Deed::answering(Answer::Absent),
        Some(_) => Deed::changing(Answer::Ok, Change::PutPair { key, value }),
    }
}

/// Removes a pair, if its key is there.
fn remove_pair(found: Key) -> Deed
    ensures { deed_of result ≡ removing_pair found.key found.value }
{
    let Key { key, value: old } = found;
    match old {
        None => Deed::answering(Answer::Absent),
        Some(_) => Deed::changing(Answer::Ok, Change::RemovePair { key }),
    }
}

/// What a statement does to a set or a bag.
pub(crate) fn member_deed(
    alloc: Global,
    classes: &[ClassLine],
    statement: &Statement,
    used: &Found,
) -> Result<Deed, NoMemory>
    requires { acts_on_members statement.now ≡ true }
    ensures { let deed = deed_in classes.now statement.now used.now.first used.now.second used.now.third in
        IfOk result (λ d. deed_of d ≡ deed) }
{
    let Some(found) = find_member(alloc, classes, used)? else {
        return Ok(Deed::skipping());
    };
    Ok(match statement {
        Statement::SetAdd { .. } => add_element(found),
        Statement::SetSet { .. } => set_element(found),
        Statement::SetReplace { .. } => replace_element(found),
        Statement::SetRemove { .. } => remove_element(found),
        Statement::SetCount { .. } => count_element(&found),
        Statement::SetTake { .. } => take_element(&found),
        _ => unreachable!(),
    })
}

/// Binds a member that is equal to an element, if there is one.
fn take_element(found: &Member) -> Deed
    ensures { deed_of result ≡ binding (object_in_row found.now.row) }
{
    Deed::binding(object_in(found.row))
}

/// The member of a row.
fn object_in(row: Option<(ObjId, u32)>) -> Option<ObjId>
    ensures { result ≡ object_in_row row }
{
    match row {
        Some((member, _)) => Some(member),
        None => None,
    }
}

/// Adds an element, unless an equal one is in the set; a bag counts it.
fn add_element(found: Member) -> Deed
    ensures { deed_of result ≡ adding_member found.counts found.element found.row }
{
    let Member {
        counts,
        element,
        row,
    } = found;
    match row {
        None => Deed::changing(Answer::Ok, Change::AddMember { element }),
        Some(_) if counts => Deed::changing(Answer::Ok, Change::AddMember { element }),
        Some(_) => Deed::answering(Answer::Present),
    }
}

/// Puts an element in place of its equal, or adds it.
fn set_element(found: Member) -> Deed
    ensures { deed_of result ≡ setting_member found.element found.row }
{
    let Member { element, row, .. } = found;
    match row {
        None => Deed::changing(Answer::Added, Change::PutMember { element }),
        Some(_) => Deed::changing(Answer::Changed, Change::PutMember { element }),
    }
}

/// Puts an element in place of its equal, if there is one.
fn replace_element(found: Member) -> Deed
    ensures { deed_of result ≡ replacing_member found.element found.row }
{
    let Member { element, row, .. } = found;
    match row {
        None => Deed::answering(Answer::Absent),
        Some(_) => Deed::changing(Answer::Ok, Change::PutMember { element }),
    }
}

/// Removes one of the members that are equal to an element, if there is one.
fn remove_element(found: Member) -> Deed
    ensures { deed_of result ≡ removing_member found.element found.row }
{
    let Member { element, row, .. } = found;
    match row {
        None => Deed::answering(Answer::Absent),
        Some(_) => Deed::changing(Answer::Ok, Change::RemoveMember { element }),
    }
}

/// How many members are equal to an element.
fn count_element(found: &Member) -> Deed
    ensures { deed_of result ≡ counting_member found.now.row }
{
    match found.row {
        Some((_, number)) => Deed::answering(Answer::Number(i64::from(number))),
        None => Deed::answering(Answer::Number(0)),
    }
}

/// What a statement does to a heap.
pub(crate) fn heap_deed(
    alloc: Global,
    classes: &[ClassLine],
    statement: &Statement,
    used: &Found,
) -> Result<Deed, NoMemory>
    requires { acts_on_heaps statement.now ≡ true }
    ensures { let deed = deed_in classes.now statement.now used.now.first used.now.second used.now.third in
        IfOk result (λ d. deed_of d ≡ deed) }
{
    match statement {
        Statement::HeapAdd { .. } => add_to_heap(alloc, classes, used),
        Statement::HeapTake { .. } => Ok(take_least(used)),
        Statement::HeapRemove { .. } => Ok(remove_least(used)),
        _ => unreachable!(),
    }
}

/// Adds an element to a heap.
fn add_to_heap(alloc: Global, classes: &[ClassLine], used: &Found) -> Result<Deed, NoMemory>
    ensures { let deed = with_heap used.now.first
        (λ plain rows. with_key classes.now used.now.second (λ element. changing answers.Ok (add_member element))) in
        IfOk result (λ d. deed_of d ≡ deed) }
{
    let Some(_) = heap_in(&used.first) else {
        return Ok(Deed::skipping());
    };
    let Some(element) = &used.second else {
        return Ok(Deed::skipping());
    };
    let element = element_of(alloc, classes, element.number, element.object)?;
    Ok(Deed::changing(Answer::Ok, Change::AddMember { element }))
}

/// Binds the least element, if there is one.
fn take_least(used: &Found) -> Deed
    ensures { deed_of result ≡ with_heap used.now.first (λ plain rows. binding (least_of plain rows)) }
{
    match heap_in(&used.first) {
        Some(heap) => Deed::binding(heap.least()),
        None => Deed::skipping(),
    }
}

/// Removes the least element, if there is one.
fn remove_least(used: &Found) -> Deed
    ensures { deed_of result ≡ with_heap used.now.first (λ plain rows. removing_least (least_of plain rows)) }
{
    let Some(heap) = heap_in(&used.first) else {
        return Deed::skipping();
    };
    match heap.least() {
        None => Deed::answering(Answer::Empty),
        Some(_) => Deed::changing(Answer::Ok, Change::RemoveLeast),
    }
}
