//! What a statement binds.
ghost use Rattle.std.specs.Prelude.{◌≡◌, ◌++◌, length, IfOk};
ghost use Rattle.cf_graph.specs.Edges.{held_if};
ghost use Rattle.cf_model.specs.State.{Parts as Kept};
ghost use Rattle.std.specs.Option.{option_map};
ghost use Rattle.cf_contents.specs.Items.{class_of};
ghost use Rattle.cf_plain.specs.Deeds.{origin_of};
ghost use Rattle.cf_plain.specs.Views.{item_of};
ghost use Rattle.cf_model.specs.Steps.{bind_step, bound_of, found, item_bound, item_made, made_from, new_slots, object_answer};
ghost use Rattle.cf_references.specs.Views.{holder_of};
ghost use Rattle.cf_steps.specs.Binding.{bound_view, made_view};
ghost use Rattle.cf_steps.specs.Doing.{step_of};
ghost use Rattle.cf_state.specs.Updates.{updated};

use crate::done::Done;
use cf_deals::{deed_at, first_of, held_by_all, held_if};
use cf_ids::{Answer, HandlerId, ObjId, TypeId};
use cf_plain::{Content, Deed, Item, Object, Origin};
use cf_references::{Flow, Holder, Reference};
use cf_state::{Parts, Update};
use cf_syntax::{Script, Statement};
use std::alloc::{AllocError as NoMemory, Global};

/// An item that a statement makes, with its handler.
#[derive(Clone, Copy)]
pub(crate) struct Made {
    pub handler: HandlerId,
    pub item: Item,
}

/// What a statement answers if it finds nothing to bind, and where the object comes from.
#[derive(Drop)]
pub(crate) struct Bound {
    pub answer: Answer,
    pub origin: Origin,
}

/// The item that a statement makes, if it makes one.
fn item_made(statement: &Statement) -> Option<Made>
    ensures { option_map made_view result ≡ item_made statement.now }
{
    match statement {
        Statement::MakeSource { order, handler, .. } => Some(Made {
            handler: *handler,
            item: Item::Source {
                order: *order,
                signalled: false,
            },
        }),
        Statement::MakeTimer {
            first,
            interval,
            handler,
            ..
        } => Some(Made {
            handler: *handler,
            item: Item::Timer {
                first: *first,
                interval: *interval,
                date: Some(*first),
            },
        }),
        Statement::MakeObserver {
            mask,
            repeats,
            order,
            handler,
            ..
        } => Some(Made {
            handler: *handler,
            item: Item::Observer {
                mask: *mask,
                repeats: *repeats,
                order: *order,
            },
        }),
        _ => None,
    }
}

/// The type of an item.
fn class_of(item: &Item) -> TypeId
    ensures { result ≡ class_of (item_of item.now) }
{
    match item {
        Item::Source { .. } => TypeId(11),
        Item::Timer { .. } => TypeId(12),
        Item::Observer { .. } => TypeId(13),
    }
}

/// An item is made, with the object of its info.
fn item_bound(info: Option<ObjId>, made: &Made) -> Bound
    ensures { bound_view result ≡ item_bound info (made_view made.now) }
{
    let content = Content::Item {
        handler: made.handler,
        info,
        valid: true,
        item: made.item,
    };
    Bound {
        answer: Answer::Skip,
        origin: Origin::Fresh(Object::new(class_of(&made.item), content)),
    }
}

/// What a statement binds, by the objects that it uses.
pub(crate) fn bound_of(
    alloc: Global,
    script: &Script,
    parts: &Parts,
    statement: &Statement,
    used: &[Option<ObjId>; 3],
) -> Result<Bound, NoMemory>
    ensures { IfOk result (λ b. bound_view b ≡ bound_of script.now parts.now statement.now used.now) }
{
    match item_made(statement) {
        Some(made) => Ok(item_bound(first_of(used), &made)),
        None => {
            let Deed { answer, origin, .. } = deed_at(alloc, script, parts, statement, used)?;
            Ok(Bound { answer, origin })
        }
    }
}

/// The object that is found: the next one, or one that is there, if it is live.
fn found(parts: &Parts, origin: &Origin) -> Option<ObjId>
    ensures { result ≡ found parts.now (origin_of origin.now) }
{
    match origin {
        Origin::Nowhere => None,
        Origin::Fresh(_) => Some(ObjId(parts.objects.len() as u32)),
        Origin::There(object) => {
            if parts.is_live(*object) {
                Some(*object)
            } else {
                None
            }
        }
    }
}

/// What a new object holds from the start.
fn new_slots(alloc: Global, body: usize, origin: &Origin) -> Result<Vec<Reference>, NoMemory>
    ensures { IfOk result (λ v. v.items ≡ new_slots body (origin_of origin.now)) }
{
    match origin {
        Origin::Fresh(made) => {
            let slots = made.content().slots(alloc)?;
            held_by_all(alloc, &Holder::Slot { body }, slots.as_slice())
        }
        _ => Ok(Vec::new(alloc)),
    }
}

/// The references of what is bound: one of the variable, and those of a new object's slots.
fn references_of(
    alloc: Global,
    parts: &Parts,
    holder: &Holder,
    object: &Option<ObjId>,
    origin: &Origin,
) -> Result<Vec<Reference>, NoMemory>
    ensures { IfOk result (λ v. v.items
        ≡ held_if (holder_of holder.now) object.now ++ new_slots (length parts.now.objects) (origin_of origin.now)) }
{
    let mut references = held_if(alloc, holder, object)?;
    let mut slots = new_slots(alloc, parts.objects.len(), origin)?;
    references.append(&mut slots)?;
    Ok(references)
}

/// The answer of a statement that binds.
fn object_answer(object: &Option<ObjId>, other: Answer) -> Answer
    ensures { result ≡ object_answer object.now other }
{
    match *object {
        Some(object) => Answer::Object(object),
        None => other,
    }
}

/// What becomes of the parts as something is bound.
fn made_from(origin: Origin) -> Update
    ensures { (p : Kept) → updated result p ≡ record p { objects = p.objects ++ made_from (origin_of origin) } }
{
    match origin {
        Origin::Fresh(object) => Update::Make(object),
        _ => Update::Nothing,
    }
}

/// A variable gets a reference to what is bound, and a new object has its slots.
pub(crate) fn bind_step(
    alloc: Global,
    parts: &Parts,
    holder: Holder,
    bound: Bound,
) -> Result<Done, NoMemory>
    ensures { IfOk result (λ d. step_of parts.now d ≡ bind_step (holder_of holder) parts.now (bound_view bound)) }
{
    let Bound { answer, origin } = bound;
    let object = found(parts, &origin);
    let enters = references_of(alloc, parts, &holder, &object, &origin)?;
    Ok(Done {
        answer: object_answer(&object, answer),
        flow: Flow::Grows {
            enters,
            moves: Vec::new(alloc),
            to: holder,
        },
        update: made_from(origin),
        list: Vec::new(alloc),
        stops: None,
    })
}
