//! Which item is in which place, in order by place and in order by item.
ghost use Rattle.std.specs.Prelude.{◌≡◌, ◌+◌, ◌<◌, ◌≤◌, ◌^◌, ℕ, [], ◌∷◌, cond, true, false, length, slice_get, slice_index, max, OnOk, OnErr, IsOk};
ghost use Rattle.cf_ids.specs.declared.limits.TheConstants.{MODES};
ghost use Rattle.std.specs.List.{AllPairs};
ghost use Rattle.rl_base.specs.Modes.{rank, all_modes, places_of, keeps_open, is_empty};
ghost use Rattle.rl_base.specs.declared.places.Place.TheVariants.{Mode};
ghost use Rattle.rl_modes.specs.Loops.{Holding, holds_at, items_at, stands_before, with_one, without};
ghost use Rattle.rl_modes.specs.Fields.{Held, IsCut, IsOrdered, paired, opens};

use crate::NoMemory;
use crate::searches::{first_item, is_seat, place_if, put_at, range_of, seat_at, seat_of};
use cf_ids::{Item, ItemKind, MODES, ModeId, ObjId};
use rl_base::Place;
use std::alloc::Global;
use std::marker::Model;

// An item, and one place that holds it.
#[derive(Clone, Copy)]
pub struct Seat {
    pub item: ObjId,
    pub place: Place,
}

// Whether an item of this kind keeps a mode from being empty.
fn keeps_open(kind: ItemKind) -> bool
    ensures { result ≡ keeps_open kind }
{
    match kind {
        ItemKind::Source | ItemKind::Timer => true,
        ItemKind::Observer => false,
    }
}

// Where a holding of this item in this place is, or would be.
fn spot_of(places: &[Place], items: &[Item], place: &Place, item: ObjId) -> usize
    requires long { length places.now ≡ length items.now }
    requires ordered { IsOrdered (paired places.now items.now) }
    ensures { IsCut (stands_before item place.now) (paired places.now items.now) result }
{
    let (start, end) = range_of(places, place);
    start + first_item(&items[start..end], item)
}

// Gives each mode a count, if none has one yet.
fn make_counts(running: &mut Vec<usize>) -> Result<(), NoMemory>
    requires { 0 < length running.old.items → length running.old.items ≡ MODES }
    ensures counts { (m : ℕ) → slice_index running.new.items m ≡ slice_index running.old.items m }
    ensures long { OnOk result (length running.new.items ≡ MODES) }
    ensures err { OnErr result (running.new.items ≡ running.old.items) }
{
    if running.is_empty() {
        running.resize(MODES, 0)?;
    }
    Ok(())
}

// The count of a mode.
fn count_of(running: &[usize], mode: ModeId) -> usize
    ensures { result ≡ slice_index running.now mode }
{
    running.get(mode.0 as usize).copied().unwrap_or(0)
}

// Counts an item that comes into a place.
fn count_up(running: &mut Vec<usize>, place: &Place, item: &Item)
    requires table { length running.old.items ≡ MODES }
    requires fits { (m : ℕ) → slice_index running.old.items m + 1 < 2 ^ 64 }
    ensures counts { (m : ℕ) → slice_index running.new.items m ≡
        slice_index running.old.items m + cond (opens m (record { place = place.now; item = item.now })) 1 0 }
    ensures long { length running.new.items ≡ MODES }
{
    if let Place::Mode(mode) = *place
        && keeps_open(item.kind)
    {
        running[mode.0 as usize] += 1;
    }
}

// Counts an item that goes out of a place.
fn count_down(running: &mut Vec<usize>, place: &Place, item: &Item)
    requires table { length running.old.items ≡ MODES }
    requires there { (m : ℕ) → cond (opens m (record { place = place.now; item = item.now })) 1 0 ≤
        slice_index running.old.items m }
    ensures counts { (m : ℕ) → slice_index running.new.items m +
        cond (opens m (record { place = place.now; item = item.now })) 1 0 ≡ slice_index running.old.items m }
    ensures long { length running.new.items ≡ MODES }
{
    if let Place::Mode(mode) = *place
        && keeps_open(item.kind)
    {
        running[mode.0 as usize] -= 1;
    }
}

// The items of each place, and the places of each item.
#[derive(Drop)]
pub struct Holdings {
    places: Vec<Place>,
    items: Vec<Item>,
    seats: Vec<Seat>,
    // How many sources and timers each mode holds.
    running: Vec<usize>,
    // For how many items in places there is memory.
    capacity: usize,
}

impl Model for Holdings {
    ghost use Rattle.rl_modes.specs.Fields.{Held, paired, IsKept, HasRoom};

    ghost Value = { Held };

    ghost view = { λ a. record { held = paired a.places.items a.items.items; capacity = a.capacity } };

    ghost invariant = { λ a. IsKept (paired a.places.items a.items.items) a.seats.items a.running.items ×
        HasRoom a.places a.items a.seats a.running a.capacity };
}

impl Holdings {
    // Nothing in no place. It takes no memory.
    pub fn new(alloc: Global) -> Holdings
        ensures { result ≡ record { held = []; capacity = 0 } }
    {
        Holdings {
            places: Vec::new(alloc),
            items: Vec::new(alloc),
            seats: Vec::new(alloc),
            running: Vec::new(alloc),
            capacity: 0,
        }
    }

    // Gets memory for at least so many items in places.
    pub fn hold(&mut self, capacity: usize) -> Result<(), NoMemory>
        ensures held { self.new.held ≡ self.old.held }
        ensures held_all { OnOk result (capacity ≤ self.new.capacity) }
        ensures kept { self.old.capacity ≤ self.new.capacity }
        ensures most { self.new.capacity ≤ max self.old.capacity capacity }
        ensures enough { capacity ≤ self.old.capacity → IsOk result }
        ensures err { OnErr result (self.new ≡ self.old) }
    {
        if capacity <= self.capacity {
            return Ok(());
        }
        let more = capacity - self.items.len();
        self.places.reserve(more)?;
        self.items.reserve(more)?;
        self.seats.reserve(more)?;
        make_counts(&mut self.running)?;
        self.capacity = capacity;
        Ok(())
    }

    // How many items in places there are.
    pub fn count(&self) -> usize
        ensures count { result ≡ length self.now.held }
        ensures within { result ≤ self.now.capacity }
    {
        self.items.len()
    }

    // For how many there is memory.
    pub fn capacity(&self) -> usize
        ensures { result ≡ self.now.capacity }
    {
        self.capacity
    }

    // The items of a place.
    pub fn items(&self, place: &Place) -> &[Item]
        ensures items { result.now ≡ items_at place.now self.now.held }
        ensures rising { AllPairs (λ a b. a.id < b.id) result.now }
    {
        let (start, end) = range_of(self.places.as_slice(), place);
        &self.items[start..end]
    }

    // Whether a place holds an item.
    pub fn holds(&self, item: ObjId, place: &Place) -> bool
        ensures { result ≡ holds_at self.now.held item place.now }
    {
        let seat = seat_of(self.seats.as_slice(), item, place);
        match seat_at(self.seats.as_slice(), seat) {
            Some(seat) => is_seat(seat, item, place),
            None => false,
        }
    }

    // The k-th place that holds an item.
    pub fn place(&self, item: ObjId, k: usize) -> Option<Place>
        ensures { result ≡ slice_get (places_of (holds_at self.now.held item) all_modes) k }
    {
        let first = seat_of(self.seats.as_slice(), item, &Place::Common);
        let (_, rest) = self.seats.as_slice().split_at(first);
        match seat_at(rest, k) {
            Some(seat) => place_if(seat, item),
            None => None,
        }
    }

    // Whether a mode holds neither a source nor a timer.
    pub fn is_empty(&self, mode: ModeId) -> bool
        ensures { result ≡ is_empty (λ i. keeps_open i.kind) (items_at (Mode mode) self.now.held) }
    {
        count_of(self.running.as_slice(), mode) == 0
    }

    // Puts an item into a place.
    pub fn enter(&mut self, place: &Place, item: &Item)
        requires absent { holds_at self.old.held item.now.id place.now ≡ false }
        requires room { length self.old.held < self.old.capacity }
        ensures { self.new ≡ record self.old {
          held = with_one (record { place = place.now; item = item.now }) self.old.held;
        } }
    {
        let id = item.id;
        let new = Seat {
            item: id,
            place: *place,
        };
        let seat = seat_of(self.seats.as_slice(), id, place);
        let at = spot_of(self.places.as_slice(), self.items.as_slice(), place, id);
        put_at(&mut self.seats, seat, new);
        put_at(&mut self.places, at, *place);
        put_at(&mut self.items, at, *item);
        count_up(&mut self.running, place, item);
    }

    // Takes an item out of a place.
    pub fn leave(&mut self, place: &Place, item: ObjId)
        requires there { holds_at self.old.held item place.now ≡ true }
        ensures gone { self.new ≡ record self.old { held = without item (place.now ∷ []) self.old.held } }
        ensures count { length self.new.held + 1 ≡ length self.old.held }
    {
        let at = spot_of(self.places.as_slice(), self.items.as_slice(), place, item);
        let seat = seat_of(self.seats.as_slice(), item, place);
        self.places.remove(at);
        let gone = self.items.remove(at);
        self.seats.remove(seat);
        count_down(&mut self.running, place, &gone);
    }
}
