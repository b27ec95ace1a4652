//! Notices.
ghost use Rattle.std.specs.Prelude.{◌≡◌, ◌≤◌, ◌&&◌, ◌++◌, [], ◌∷◌, length, slice_index_or, None, IfOk, OnOk, if◌then◌else◌};
ghost use Rattle.rl_base.specs.Receivers.{forgets, is_there_and, matches, numbers_of};
ghost use Rattle.cf_model.specs.Deals.{forget_deal, live_receivers};
ghost use Rattle.cf_model.specs.Known.{may_receive};
ghost use Rattle.cf_deals.specs.Deals.{deal_of};

use crate::deal::Deal;
use cf_ids::{Answer, NameId, ObjId};
use cf_state::{Parts, Update, is_forgotten, takes_name, takes_object};
use rl_base::Registration;
use std::alloc::{AllocError as NoMemory, Global};

/// Whether a registration receives a notice of a name and an object.
fn is_matched(name: NameId, object: &Option<ObjId>, registration: &Registration) -> bool
    ensures { result ≡ matches name object.now registration.now }
{
    takes_name(&registration.name, &Some(name)) && takes_object(&registration.filter, object)
}

/// Whether the registration of a number is there and forgotten.
fn is_gone(
    parts: &Parts,
    place: usize,
    observer: ObjId,
    name: &Option<NameId>,
    filter: &Option<ObjId>,
) -> bool
    ensures { result ≡ is_there_and (forgets observer name.now filter.now)
        (slice_index_or parts.now.registrations place None) }
{
    match parts.registration(place) {
        Some(registration) => is_forgotten(observer, name, filter, &registration),
        None => false,
    }
}

/// Whether the registration of a number is there and receives a notice of a name and an object.
fn is_receiver(parts: &Parts, place: usize, name: NameId, object: &Option<ObjId>) -> bool
    ensures { let there = slice_index_or parts.now.registrations place None in
        result ≡ (is_there_and (matches name object.now) there && is_there_and (may_receive parts.now) there) }
{
    match parts.registration(place) {
        Some(registration) => {
            is_matched(name, object, &registration) && parts.may_receive(&registration)
        }
        None => false,
    }
}

/// A number more, if a test says so.
fn put_if(numbers: &mut Vec<u32>, number: u32, passes: bool) -> Result<(), NoMemory>
    ensures { OnOk result (numbers.new.items ≡ numbers.old.items ++ (if passes then number ∷ [] else [])) }
{
    if passes {
        numbers.push(number)?;
    }
    Ok(())
}

/// How many registrations are forgotten.
fn forgotten(parts: &Parts, observer: ObjId, name: &Option<NameId>, filter: &Option<ObjId>) -> usize
    ensures count { result ≡ length (numbers_of (forgets observer name.now filter.now) parts.now.registrations) }
    ensures few { result ≤ 4294967294 }
{
    parts.has_few();
    let all = parts.registrations.len();
    let mut found = 0;
    let mut place = 0;
    while place < all {
        if is_gone(parts, place, observer, name, filter) {
            found += 1;
        }
        place += 1;
    }
    found
}

/// A registration that is forgotten leaves its number empty.
pub(crate) fn forget_deal(
    alloc: Global,
    parts: &Parts,
    name: &Option<NameId>,
    observer: ObjId,
    filter: &Option<ObjId>,
) -> Deal
    ensures { deal_of parts.now result ≡ forget_deal parts.now name.now observer filter.now }
{
    let found = forgotten(parts, observer, name, filter);
    let update = Update::Forget {
        observer,
        name: *name,
        filter: *filter,
    };
    Deal::updating(alloc, Answer::Number(found as i64), update)
}

/// The receivers of a notice: those that match, with a live observer and a live filter object.
pub(crate) fn live_receivers(
    alloc: Global,
    parts: &Parts,
    name: NameId,
    object: &Option<ObjId>,
) -> Result<Vec<u32>, NoMemory>
    ensures { IfOk result (λ v. v.items ≡ live_receivers parts.now name object.now) }
{
    parts.has_few();
    let all = parts.registrations.len();
    let mut receivers = Vec::new(alloc);
    let mut place = 0;
    while place < all {
        put_if(
            &mut receivers,
            place as u32,
            is_receiver(parts, place, name, object),
        )?;
        place += 1;
    }
    Ok(receivers)
}
