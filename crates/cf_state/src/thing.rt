//! What is known of objects by their numbers.
ghost use Rattle.std.specs.Prelude.{◌≡◌, ◌↔◌, true, slice_get, slice_index_or, None};
ghost use Rattle.std.specs.Option.{option_copied, option_map};
ghost use Rattle.cf_contents.specs.Contents.{slots_at, times};
ghost use Rattle.cf_contents.specs.Items.{date_in};
ghost use Rattle.cf_model.specs.Known.{is_live_filter, may_receive, receiver_in, slot_left};
ghost use Rattle.cf_model.specs.State.{is_live, is_made};
ghost use Rattle.cf_model.specs.Things.{is_valid_thing, is_signalled_thing, date_of_thing, repeats_thing, opens_thing, callout_of_thing, thing_at, thing_of};
ghost use Rattle.cf_model.specs.Steps.{type_in};
ghost use Rattle.cf_next.specs.Views.{callout_of_item, callout_of_receiver};
ghost use Rattle.cf_plain.specs.Views.{item_of};
ghost use Rattle.cf_state.specs.Known.{thing_view};

use crate::parts::Parts;
use cf_ids::{HandlerId, ObjId, TypeId};
use cf_plain::{Content, Item, Object};
use rl_base::Registration;

/// An item of a run loop, with its handler, its info, and whether it is valid.
#[derive(Clone, Copy)]
pub struct Thing {
    pub handler: HandlerId,
    pub info: Option<ObjId>,
    pub valid: bool,
    pub item: Item,
}

/// The item that an object is, if it is one.
fn thing_of(object: Option<&Object>) -> Option<Thing>
    ensures { option_map thing_view result ≡ thing_of (option_copied object.entry) }
{
    let object = object?;
    match object.content() {
        Content::Item {
            handler,
            info,
            valid,
            item,
        } => Some(Thing {
            handler: *handler,
            info: *info,
            valid: *valid,
            item: *item,
        }),
        _ => None,
    }
}

/// The object of a number, if it was made.
fn object_at(objects: &[Object], place: usize) -> Option<&Object>
    ensures { option_copied result ≡ slice_get objects.now place }
{
    objects.get(place)
}

/// How often a number stands in a list.
pub fn times(number: ObjId, numbers: &[ObjId]) -> usize
    ensures { result ≡ times number numbers.now }
{
    let mut rest = numbers;
    let mut found = 0;
    while let Some((other, others)) = rest.split_first() {
        if *other == number {
            found += 1;
        }
        rest = others;
    }
    found
}

impl Parts {
    /// The object of a number, if it was made.
    pub fn object(&self, number: ObjId) -> Option<&Object>
        ensures { option_copied result ≡ slice_get self.now.objects number }
    {
        object_at(self.objects.as_slice(), number.0 as usize)
    }

    /// The item of a number, if the object is one.
    pub fn thing(&self, number: ObjId) -> Option<Thing>
        ensures { option_map thing_view result ≡ thing_at self.now number }
    {
        thing_of(self.object(number))
    }

    /// Whether an object was made.
    pub fn is_made(&self, number: ObjId) -> bool
        ensures { result ≡ is_made self.now number }
    {
        (number.0 as usize) < self.objects.len()
    }

    /// Whether this is the type of an object.
    pub fn is_class(&self, number: ObjId, class: TypeId) -> bool
        ensures { (result ≡ true) ↔ (class ≡ type_in (slice_get self.now.objects number)) }
    {
        match self.object(number) {
            Some(object) => class == object.class(),
            None => false,
        }
    }

    /// Whether an object was made and is not finalised.
    pub fn is_live(&self, number: ObjId) -> bool
        ensures { result ≡ is_live self.now number }
    {
        self.is_made(number) && times(number, self.finalised.as_slice()) == 0
    }

    /// Whether an item is valid.
    pub fn is_valid(&self, number: ObjId) -> bool
        ensures { result ≡ is_valid_thing (thing_at self.now number) }
    {
        match self.thing(number) {
            Some(thing) => thing.valid,
            None => false,
        }
    }

    /// Whether a source is signalled.
    pub fn is_signalled(&self, number: ObjId) -> bool
        ensures { result ≡ is_signalled_thing (thing_at self.now number) }
    {
        match self.thing(number) {
            Some(thing) => matches!(
                thing.item,
                Item::Source {
                    signalled: true,
                    ..
                }
            ),
            None => false,
        }
    }

    /// The next date of a timer.
    pub fn date(&self, number: ObjId) -> Option<u64>
        ensures { result ≡ date_of_thing (thing_at self.now number) }
    {
        match self.thing(number) {
            Some(thing) => date_in(&thing.item),
            None => None,
        }
    }

    /// Whether an observer is called again and again.
    pub fn repeats(&self, number: ObjId) -> bool
        ensures { result ≡ repeats_thing (thing_at self.now number) }
    {
        match self.thing(number) {
            Some(thing) => matches!(thing.item, Item::Observer { repeats: true, .. }),
            None => false,
        }
    }

    /// Whether an item keeps a mode from being empty.
    pub fn opens(&self, number: ObjId) -> bool
        ensures { result ≡ opens_thing (thing_at self.now number) }
    {
        match self.thing(number) {
            Some(thing) => !matches!(thing.item, Item::Observer { .. }),
            None => false,
        }
    }

    /// An item's handler and info.
    pub fn callout(&self, number: ObjId) -> Option<(HandlerId, Option<ObjId>)>
        ensures { option_map callout_of_item result ≡ callout_of_thing (thing_at self.now number) }
    {
        match self.thing(number) {
            Some(thing) => Some((thing.handler, thing.info)),
            None => None,
        }
    }

    /// Whether a filter object is live, if there is one.
    fn is_live_filter(&self, filter: Option<ObjId>) -> bool
        ensures { result ≡ is_live_filter self.now filter }
    {
        match filter {
            Some(object) => self.is_live(object),
            None => true,
        }
    }

    /// Whether a registration still receives.
    pub fn may_receive(&self, registration: &Registration) -> bool
        ensures { result ≡ may_receive self.now registration.now }
    {
        self.is_live(registration.observer) && self.is_live_filter(registration.filter)
    }

    /// The registration of a number, if it is there.
    pub fn registration(&self, place: usize) -> Option<Registration>
        ensures { result ≡ slice_index_or self.now.registrations place None }
    {
        match self.registrations.get(place) {
            Some(registration) => *registration,
            None => None,
        }
    }

    /// The handler and the observer of a registration that still receives.
    pub fn receiver(&self, place: usize) -> Option<(HandlerId, ObjId)>
        ensures { option_map callout_of_receiver result
            ≡ receiver_in self.now (slice_index_or self.now.registrations place None) }
    {
        match self.registration(place) {
            Some(registration) if self.may_receive(&registration) => {
                Some((registration.handler, registration.observer))
            }
            _ => None,
        }
    }

    /// The slot of a body at a place.
    fn slot(&self, body: ObjId, place: usize) -> Option<ObjId>
        ensures { result ≡ slice_get (slots_at (slice_get self.now.objects body)) place }
    {
        let object = self.object(body)?;
        object.content().slot(place)
    }

    /// What a finalised body gives up next, if that is the slot at this place of those that it had.
    pub fn slot_left(&self, body: ObjId, place: usize) -> Option<ObjId>
        ensures { result ≡ slot_left self.now body place }
    {
        if 0 < times(body, self.finalised.as_slice())
            && place == times(body, self.dropped.as_slice())
        {
            self.slot(body, place)
        } else {
            None
        }
    }
}

/// The next date of a timer, if it has one.
pub fn date_in(item: &Item) -> Option<u64>
    ensures { result ≡ date_in (item_of item.now) }
{
    match item {
        Item::Timer { date, .. } => *date,
        _ => None,
    }
}
