//! What statements do to sets and bags.
ghost use Rattle.std.specs.Prelude.{◌≡◌, true, IfOk};
ghost use Rattle.cf_contents.specs.Deeds.{adding_member, setting_member, replacing_member, removing_member, counting_member, object_in_row, deed_of};
ghost use Rattle.cf_store.specs.Applies.{Does};
ghost use Rattle.cf_store.specs.Members.{IsMember, TakesMembers};
ghost use Rattle.cf_contents.specs.Groups.{acts_on_members};

use crate::plan::Plan;
use crate::seen::Found;
use cf_body::{BodyChange, Kind, key_of};
use cf_ids::{Answer, ObjId};
use cf_syntax::{ClassLine, Statement};
use cf_types::Cell;
use std::alloc::{AllocError as NoMemory, Global};

/// An element, and the member of a set or a bag that is equal to it with how often it is there, once in a set, if
/// there is one.
#[derive(Drop)]
pub(crate) struct Member {
    /// Whether it is a bag, which counts its members.
    pub(crate) counts: bool,
    pub(crate) element: Cell,
    pub(crate) row: Option<(ObjId, u32)>,
}

/// What a statement does to a set or a bag.
pub(crate) fn member_plan(
    alloc: Global,
    classes: &[ClassLine],
    statement: &Statement,
    used: &Found,
) -> Result<Plan, NoMemory>
    requires { acts_on_members statement.now ≡ true }
    ensures { let deed = deed_of classes.now statement.now used.now.first used.now.second used.now.third in
        IfOk result (λ d. Does deed used.now.first d) }
{
    let Some(member) = find(alloc, classes, used)? else {
        return Ok(Plan::skipping());
    };
    Ok(match statement {
        Statement::SetAdd { .. } => add_member(used, member),
        Statement::SetSet { .. } => set_member(used, member),
        Statement::SetReplace { .. } => replace_member(used, member),
        Statement::SetRemove { .. } => remove_member(used, member),
        Statement::SetCount { .. } => count_member(used, member.row),
        Statement::SetTake { .. } => Plan::binding(object_in(member.row)),
        _ => unreachable!(),
    })
}

/// The second object that is used as an element of the first one, if that is a set or a bag.
fn find(alloc: Global, classes: &[ClassLine], used: &Found) -> Result<Option<Member>, NoMemory>
    ensures { IfOk result (IsMember classes.now used.now.first used.now.second) }
{
    let Some(collection) = &used.first else {
        return Ok(None);
    };
    let Some(element) = &used.second else {
        return Ok(None);
    };
    let kind = collection.body.kind();
    match kind {
        Kind::Set(set) => {
            let element = key_of(alloc, classes, element.number, element.body)?;
            let row = set.find(&element);
            Ok(Some(Member {
                counts: false,
                element,
                row,
            }))
        }
        Kind::Bag(bag) => {
            let element = key_of(alloc, classes, element.number, element.body)?;
            let row = bag.find(&element);
            Ok(Some(Member {
                counts: true,
                element,
                row,
            }))
        }
        _ => Ok(None),
    }
}

/// The member of a row.
fn object_in(row: Option<(ObjId, u32)>) -> Option<ObjId>
    ensures { result ≡ object_in_row row }
{
    match row {
        Some((member, _)) => Some(member),
        None => None,
    }
}

/// Adds an element, unless an equal one is in the set; a bag counts it.
fn add_member(used: &Found, member: Member) -> Plan
    requires { TakesMembers used.now.first }
    ensures { Does (adding_member member.counts member.element member.row) used.now.first result }
{
    let Member {
        counts,
        element,
        row,
    } = member;
    match row {
        None => Plan::changing(Answer::Ok, BodyChange::AddMember { element }),
        Some(_) if counts => Plan::changing(Answer::Ok, BodyChange::AddMember { element }),
        Some(_) => Plan::answering(Answer::Present),
    }
}

/// Puts an element in place of its equal, or adds it.
fn set_member(used: &Found, member: Member) -> Plan
    requires { TakesMembers used.now.first }
    ensures { Does (setting_member member.element member.row) used.now.first result }
{
    let Member { element, row, .. } = member;
    match row {
        None => Plan::changing(Answer::Added, BodyChange::PutMember { element }),
        Some(_) => Plan::changing(Answer::Changed, BodyChange::PutMember { element }),
    }
}

/// Puts an element in place of its equal, if there is one.
fn replace_member(used: &Found, member: Member) -> Plan
    requires { TakesMembers used.now.first }
    ensures { Does (replacing_member member.element member.row) used.now.first result }
{
    let Member { element, row, .. } = member;
    match row {
        None => Plan::answering(Answer::Absent),
        Some(_) => Plan::changing(Answer::Ok, BodyChange::PutMember { element }),
    }
}

/// Removes one of the members that are equal to an element, if there is one.
fn remove_member(used: &Found, member: Member) -> Plan
    requires { TakesMembers used.now.first }
    ensures { Does (removing_member member.element member.row) used.now.first result }
{
    let Member { element, row, .. } = member;
    match row {
        None => Plan::answering(Answer::Absent),
        Some(_) => Plan::changing(Answer::Ok, BodyChange::RemoveMember { element }),
    }
}

/// How many members are equal to an element.
fn count_member(used: &Found, row: Option<(ObjId, u32)>) -> Plan
    ensures { Does (counting_member row) used.now.first result }
{
    match row {
        Some((_, number)) => Plan::answering(Answer::Number(i64::from(number))),
        None => Plan::answering(Answer::Number(0)),
    }
}
