//! Items in run loops.
ghost use Rattle.std.specs.Prelude.{◌≡◌, filter, map, not, IfOk, if◌then◌else◌};
ghost use Rattle.rl_base.specs.Modes.{items_gained, places};
ghost use Rattle.cf_graph.specs.Edges.{has, held_by};
ghost use Rattle.cf_graph.specs.Holders.{in_mode};
ghost use Rattle.cf_model.specs.Deals.{add_deal, common_deal, common_items, drop_deal, held_at, holds_at, invalidate_deal, places_added, places_dropped, stays_in_one};
ghost use Rattle.cf_model.specs.State.{is_common, modes_of};
ghost use Rattle.cf_contents.specs.Items.{kind_of};
ghost use Rattle.cf_plain.specs.Views.{item_of};
ghost use Rattle.cf_deals.specs.Deals.{deal_of};
ghost use Rattle.cf_state.specs.Known.{bare, thing_view};

use crate::deal::{Deal, held_by_all};
use crate::places::{
    common_of, every_place, holder_at, holds_at, is_elsewhere, modes_of, places_that,
};
use cf_ids::{Answer, ModeId, ObjId};
use cf_plain::{Change, Item};
use cf_references::{Holder, Reference, has, present_of};
use cf_state::{Common, Parts, Thing, Update, is_common, items_held};
use cf_syntax::Script;
use rl_base::Place;
use std::alloc::{AllocError as NoMemory, Global};

/// Whether an item is in the loop of one thread alone.
fn stays_in_one(item: &Item) -> bool
    ensures { result ≡ stays_in_one (kind_of (item_of item.now)) }
{
    !matches!(item, Item::Source { .. })
}

/// The references to an item of a place of a loop, or, for its common items, those of these places that hold it, or
/// that do not: the common items and the common modes.
fn at_places(
    alloc: Global,
    script: &Script,
    commons: &[Common],
    edges: &[Reference],
    thread: usize,
    item: ObjId,
    holding: bool,
) -> Result<Vec<Reference>, NoMemory>
    ensures { let holds = holds_at thread item edges.now in
        IfOk result (λ v. v.items ≡ held_at thread item
        (filter (λ p. if holding then holds p else not (holds p))
        (places (filter (is_common thread commons.now) (modes_of script.now))))) }
{
    let modes = modes_of(alloc, script)?;
    let common = common_of(alloc, commons, thread, modes.as_slice())?;
    places_that(alloc, thread, item, edges, common.as_slice(), holding)
}

/// The references to an item that is added to a place.
fn added(
    alloc: Global,
    script: &Script,
    parts: &Parts,
    edges: &[Reference],
    thread: usize,
    item: ObjId,
    place: &Place,
) -> Result<Vec<Reference>, NoMemory>
    ensures { let st = bare parts.now edges.now in
        IfOk result (λ v. v.items ≡ held_at thread item (places_added script.now thread item st place.now)) }
{
    match place {
        Place::Common => {
            let commons = parts.commons.as_slice();
            at_places(alloc, script, commons, edges, thread, item, false)
        }
        Place::Mode(_) => Ok(vec![in alloc; Reference::new(holder_at(thread, place), item)]?),
    }
}

/// The references to an item that is dropped from a place.
fn dropped(
    alloc: Global,
    script: &Script,
    parts: &Parts,
    edges: &[Reference],
    thread: usize,
    item: ObjId,
    place: &Place,
) -> Result<Vec<Reference>, NoMemory>
    ensures { let st = bare parts.now edges.now in
        IfOk result (λ v. v.items ≡ held_at thread item (places_dropped script.now thread item st place.now)) }
{
    match place {
        Place::Common => {
            let commons = parts.commons.as_slice();
            at_places(alloc, script, commons, edges, thread, item, true)
        }
        Place::Mode(_) => Ok(vec![in alloc; Reference::new(holder_at(thread, place), item)]?),
    }
}

/// An item is added to a place, if it is valid, in no other loop that it may not share, and not there yet.
pub(crate) fn add_deal(
    alloc: Global,
    script: &Script,
    parts: &Parts,
    edges: &[Reference],
    thread: usize,
    place: &Place,
    item: ObjId,
    thing: &Thing,
) -> Result<Deal, NoMemory>
    ensures { IfOk result (λ d. deal_of parts.now d
        ≡ add_deal script.now (bare parts.now edges.now) thread place.now item (thing_view thing.now)) }
{
    if !thing.valid {
        return Ok(Deal::answering(alloc, Answer::Invalid));
    }
    let elsewhere = is_elsewhere(alloc, script, thread, item, edges)?;
    if stays_in_one(&thing.item) && elsewhere {
        return Ok(Deal::answering(alloc, Answer::Elsewhere));
    }
    if holds_at(thread, item, edges, place) {
        return Ok(Deal::answering(alloc, Answer::Present));
    }
    let enters = added(alloc, script, parts, edges, thread, item, place)?;
    Ok(Deal::entering(alloc, enters, Update::Nothing))
}

/// An item is dropped from a place, if it is there.
pub(crate) fn drop_deal(
    alloc: Global,
    script: &Script,
    parts: &Parts,
    edges: &[Reference],
    thread: usize,
    place: &Place,
    item: ObjId,
) -> Result<Deal, NoMemory>
    ensures { IfOk result (λ d. deal_of parts.now d
        ≡ drop_deal script.now (bare parts.now edges.now) thread place.now item) }
{
    if !holds_at(thread, item, edges, place) {
        return Ok(Deal::answering(alloc, Answer::Absent));
    }
    let wanted = dropped(alloc, script, parts, edges, thread, item, place)?;
    let leaves = present_of(alloc, wanted.as_slice(), edges)?;
    Ok(Deal::leaving(alloc, leaves, Update::Nothing))
}

/// The references of a mode to the common items that it does not hold yet.
fn items_gained(
    alloc: Global,
    parts: &Parts,
    edges: &[Reference],
    thread: usize,
    mode: ModeId,
) -> Result<Vec<Reference>, NoMemory>
    ensures { let st = bare parts.now edges.now in
        IfOk result (λ v. v.items ≡ map (held_by (in_mode thread mode))
        (items_gained (λ i. has (in_mode thread mode) i edges.now) (common_items st thread))) }
{
    let holder = Holder::InMode {
        thread,
        mode: usize::from(mode.0),
    };
    let items = items_held(alloc, parts, edges, &Holder::InCommon { thread })?;
    let gained: Vec<ObjId> = items
        .iter()
        .copied()
        .filter(|item| !has(&holder, *item, edges))
        .collect(alloc)?;
    held_by_all(alloc, &holder, gained.as_slice())
}

/// A mode becomes a common one, and gets the common items that it does not hold yet.
pub(crate) fn common_deal(
    alloc: Global,
    parts: &Parts,
    edges: &[Reference],
    thread: usize,
    mode: ModeId,
) -> Result<Deal, NoMemory>
    ensures { IfOk result (λ d. deal_of parts.now d ≡ common_deal (bare parts.now edges.now) thread mode) }
{
    if is_common(parts.commons.as_slice(), thread, usize::from(mode.0)) {
        return Ok(Deal::answering(alloc, Answer::Present));
    }
    let enters = items_gained(alloc, parts, edges, thread, mode)?;
    let update = Update::Common {
        thread,
        mode: usize::from(mode.0),
    };
    Ok(Deal::entering(alloc, enters, update))
}

/// An item that is valid is so no more, and leaves every place.
pub fn invalidate_deal(
    alloc: Global,
    script: &Script,
    parts: &Parts,
    edges: &[Reference],
    item: ObjId,
    thing: &Thing,
) -> Result<Deal, NoMemory>
    ensures { IfOk result (λ d. deal_of parts.now d
        ≡ invalidate_deal script.now (bare parts.now edges.now) item (thing_view thing.now)) }
{
    if !thing.valid {
        return Ok(Deal::answering(alloc, Answer::Invalid));
    }
    let places = every_place(alloc, script, item, edges)?;
    let leaves = present_of(alloc, places.as_slice(), edges)?;
    let update = Update::Change {
        object: item,
        change: Change::Item {
            valid: false,
            item: thing.item,
        },
    };
    Ok(Deal::leaving(alloc, leaves, update))
}
