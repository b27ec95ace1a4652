//! One loop's modes.
ghost use Rattle.std.specs.Prelude.{◌≡◌, ◌+◌, ◌-◌, ◌<◌, ◌≤◌, [], ◌∷◌, nat_lt, length, map, slice_get, OnOk, OnErr, IsOk, is_ok, is_err};
ghost use Rattle.std.specs.List.{AllPairs};
ghost use Rattle.std.specs.List.Sorted.{IsPartitionedBy};
ghost use Rattle.rl_base.specs.declared.places.Place.TheVariants.{Common, Mode};
ghost use Rattle.rl_base.specs.Modes.{all_modes, places, places_of, places_entered, keeps_open, is_empty};
ghost use Rattle.rl_modes.specs.Loops.{Holding, holds_at, items_at, is_among, with_one, with_these, in_each, each_in, common_gained, without, with_mode};
ghost use Rattle.rl_modes.specs.Fields.{IsCut, with_new, entered};

use crate::NoMemory;
use crate::holdings::Holdings;
use crate::searches::put_at;
use cf_ids::{Item, ModeId, ObjId};
use rl_base::Place;
use std::alloc::{AllocError, Global};
use std::marker::Model;

/// The place holds the item already, or the mode is a common mode already.
#[derive(Clone, Copy, Debug)]
pub struct Present;

/// The place does not hold the item.
#[derive(Clone, Copy, Debug)]
pub struct Absent;

// Puts an item into a place that does not hold it yet. An item that is there stays, with its kind.
fn enter(holdings: &mut Holdings, place: &Place, item: &Item)
    requires { length holdings.old.held < holdings.old.capacity }
    ensures { holdings.new ≡ record holdings.old {
      held = entered (record { place = place.now; item = item.now }) holdings.old.held;
    } }
{
    if !holdings.holds(item.id, place) {
        holdings.enter(place, item);
    }
}

// Puts an item into each mode that does not hold it yet.
fn enter_each(holdings: &mut Holdings, modes: &[ModeId], item: &Item)
    requires { length holdings.old.held + length modes.now ≤ holdings.old.capacity }
    ensures { holdings.new ≡ record holdings.old {
      held = with_new (in_each item.now (map Mode modes.now)) holdings.old.held;
    } }
{
    for mode in modes {
        enter(holdings, &Place::Mode(*mode), item);
    }
}

// Puts each common item into a mode that does not hold it yet.
fn gain_each(holdings: &mut Holdings, mode: ModeId)
    requires { length holdings.old.held + length (items_at Common holdings.old.held) ≤ holdings.old.capacity }
    ensures gained { holdings.new ≡ record holdings.old {
      held = with_new (each_in (Mode mode) (items_at Common holdings.old.held)) holdings.old.held;
    } }
    ensures rising { AllPairs (λ a b. a.id < b.id) (items_at Common holdings.old.held) }
{
    let place = Place::Mode(mode);
    for k in 0..holdings.items(&Place::Common).len() {
        let item = holdings.items(&Place::Common)[k];
        enter(holdings, &place, &item);
    }
}

// Takes an item out of a place, if it is there.
fn leave(holdings: &mut Holdings, place: &Place, item: ObjId)
    ensures gone { holdings.new ≡ record holdings.old { held = without item (place.now ∷ []) holdings.old.held } }
    ensures no_more { length holdings.new.held ≤ length holdings.old.held }
{
    if holdings.holds(item, place) {
        holdings.leave(place, item);
    }
}

// Takes an item out of each mode in which it is.
fn leave_each(holdings: &mut Holdings, modes: &[ModeId], item: ObjId)
    ensures gone { holdings.new ≡ record holdings.old {
      held = without item (map Mode modes.now) holdings.old.held;
    } }
    ensures no_more { length holdings.new.held ≤ length holdings.old.held }
{
    for mode in modes {
        leave(holdings, &Place::Mode(*mode), item);
    }
}

// Where a mode is, or would be.
fn spot_of(modes: &[ModeId], mode: ModeId) -> usize
    requires { IsPartitionedBy (λ n. nat_lt n mode) modes.now }
    ensures { IsCut (λ n. nat_lt n mode) modes.now result }
{
    modes.partition_point(|other| other.0 < mode.0)
}

// Whether a mode is one of these.
fn has_mode(modes: &[ModeId], mode: ModeId) -> bool
    requires { AllPairs (λ m n. m < n) modes.now }
    ensures { result ≡ is_among mode modes.now }
{
    let at = spot_of(modes, mode);
    if at < modes.len() {
        let found = modes[at];
        found.0 == mode.0
    } else {
        false
    }
}

/// The modes of one run loop: what each of them holds, which of them are common, and the items that the common modes
/// share (the Run Loops guide). What holds an item goes by its number alone, and the kind that was added first stays.
///
/// An item that comes or goes moves those that stand after it in the lists; looking up halves them.
#[derive(Drop)]
pub struct Modes {
    holdings: Holdings,
    // The common modes but `default`, by number.
    further: Vec<ModeId>,
}

impl Model for Modes {
    ghost use Rattle.std.specs.Prelude.{◌+◌, ◌-◌, ◌∷◌, length, vec_len};
    ghost use Rattle.rl_modes.specs.Loops.{Loop};

    ghost Value = { Loop };

    ghost use Rattle.rl_modes.specs.Fields.{IsSound};

    ghost view = { λ a. record {
      held = a.holdings.held;
      common_modes = 0 ∷ a.further.items;
      room = a.holdings.capacity - (length a.holdings.held + vec_len a.further);
    } };

    ghost invariant = { λ a. IsSound a.holdings a.further };
}

impl Modes {
    /// Nothing in no mode, and `default` as the one common mode. It takes no memory.
    pub fn new(alloc: Global) -> Modes
        ensures { result ≡ record { held = []; common_modes = 0 ∷ []; room = 0 } }
    {
        Modes {
            holdings: Holdings::new(alloc),
            further: Vec::new(alloc),
        }
    }

    /// Makes room for at least `more`, each item in a place and each common mode counted as one. `NoMemory` comes only
    /// if the room was less, and changes nothing.
    pub fn reserve(&mut self, more: usize) -> Result<(), NoMemory>
        ensures held { self.new.held ≡ self.old.held }
        ensures common_modes { self.new.common_modes ≡ self.old.common_modes }
        ensures room { OnOk result (more ≤ self.new.room) }
        ensures kept { self.old.room ≤ self.new.room }

        // It can be refused only if the room was missing.
        ensures enough { more ≤ self.old.room → IsOk result }
        ensures err { OnErr result (self.new ≡ self.old) }
    {
        let used = self.holdings.count() + self.further.len();
        if more <= self.holdings.capacity() - used {
            return Ok(());
        }
        let Some(all) = used.checked_add(more) else {
            return Err(AllocError);
        };
        self.further.reserve(all - self.further.len())?;
        self.holdings.hold(all)
    }

    /// Adds an item to a mode. `Present` comes exactly if the mode holds it.
    pub fn add(&mut self, m: ModeId, i: Item) -> Result<(), Present>
        requires room { 1 ≤ self.old.room }
        ensures present { is_err result ≡ holds_at self.old.held i.id (Mode m) }
        ensures added { OnOk result (self.new ≡ record self.old {
          held = with_one (record { place = Mode m; item = i }) self.old.held;
          room = self.old.room - 1;
        }) }
        ensures err { OnErr result (self.new ≡ self.old) }
    {
        let place = Place::Mode(m);
        if self.holdings.holds(i.id, &place) {
            return Err(Present);
        }
        self.holdings.enter(&place, &i);
        Ok(())
    }

    /// Takes an item out of a mode. `Absent` comes exactly if the mode does not hold it.
    pub fn remove(&mut self, m: ModeId, i: ObjId) -> Result<(), Absent>
        ensures absent { is_ok result ≡ holds_at self.old.held i (Mode m) }
        ensures removed { OnOk result (self.new ≡ record self.old {
          held = without i (Mode m ∷ []) self.old.held;
          room = self.old.room + 1;
        }) }
        ensures err { OnErr result (self.new ≡ self.old) }
    {
        let place = Place::Mode(m);
        if !self.holdings.holds(i, &place) {
            return Err(Absent);
        }
        self.holdings.leave(&place, i);
        Ok(())
    }

    /// Adds an item to the common items, and to each common mode that does not hold it. `Present` comes exactly if the
    /// common items hold it.
    pub fn add_common(&mut self, i: Item) -> Result<(), Present>
        requires room { 1 + length self.old.common_modes ≤ self.old.room }
        ensures present { is_err result ≡ holds_at self.old.held i.id Common }
        ensures held { OnOk result (self.new.held ≡
            with_these (in_each i (places_entered (holds_at self.old.held i.id) self.old.common_modes)) self.old.held) }
        ensures common_modes { self.new.common_modes ≡ self.old.common_modes }
        ensures room { OnOk result (self.new.room +
            length (places_entered (holds_at self.old.held i.id) self.old.common_modes) ≡ self.old.room) }
        ensures err { OnErr result (self.new ≡ self.old) }
    {
        if self.holdings.holds(i.id, &Place::Common) {
            return Err(Present);
        }
        enter(&mut self.holdings, &Place::Common, &i);
        enter(&mut self.holdings, &Place::Mode(ModeId::DEFAULT), &i);
        enter_each(&mut self.holdings, self.further.as_slice(), &i);
        Ok(())
    }

    /// Takes an item out of the common items, and out of each common mode that holds it, also one to which it was
    /// added by itself. A mode that is not common keeps it. `Absent` comes exactly if the common items do not hold it.
    pub fn remove_common(&mut self, i: ObjId) -> Result<(), Absent>
        ensures absent { is_ok result ≡ holds_at self.old.held i Common }
        ensures held { OnOk result (self.new.held ≡
            without i (places_of (holds_at self.old.held i) self.old.common_modes) self.old.held) }
        ensures common_modes { self.new.common_modes ≡ self.old.common_modes }
        ensures room { self.new.room + length self.new.held ≡ self.old.room + length self.old.held }
        ensures err { OnErr result (self.new ≡ self.old) }
    {
        if !self.holdings.holds(i, &Place::Common) {
            return Err(Absent);
        }
        leave(&mut self.holdings, &Place::Common, i);
        leave(&mut self.holdings, &Place::Mode(ModeId::DEFAULT), i);
        leave_each(&mut self.holdings, self.further.as_slice(), i);
        Ok(())
    }

    /// Makes a mode a common mode, which gets each common item that it does not hold. `Present` comes exactly if it is
    /// one already.
    pub fn make_common(&mut self, m: ModeId) -> Result<(), Present>
        requires room { 1 + length (items_at Common self.old.held) ≤ self.old.room }
        ensures present { is_err result ≡ is_among m self.old.common_modes }
        ensures held { OnOk result (self.new.held ≡
            with_these (each_in (Mode m) (common_gained m self.old.held)) self.old.held) }
        ensures common_modes { OnOk result (self.new.common_modes ≡ with_mode m self.old.common_modes) }
        ensures room { OnOk result (self.new.room + (1 + length (common_gained m self.old.held)) ≡ self.old.room) }
        ensures err { OnErr result (self.new ≡ self.old) }
    {
        if self.is_common(m) {
            return Err(Present);
        }
        let spot = spot_of(self.further.as_slice(), m);
        put_at(&mut self.further, spot, m);
        gain_each(&mut self.holdings, m);
        Ok(())
    }

    /// The `k`-th place that holds an item, counted from 0: the common items first, then the modes by number.
    pub fn place(&self, i: ObjId, k: usize) -> Option<Place>
        ensures { result ≡ slice_get (places_of (holds_at self.now.held i) all_modes) k }
    {
        self.holdings.place(i, k)
    }

    /// Whether a mode holds an item.
    pub fn holds(&self, m: ModeId, i: ObjId) -> bool
        ensures { result ≡ holds_at self.now.held i (Mode m) }
    {
        self.holdings.holds(i, &Place::Mode(m))
    }

    /// Whether a mode is a common mode.
    pub fn is_common(&self, m: ModeId) -> bool
        ensures { result ≡ is_among m self.now.common_modes }
    {
        m.0 == 0 || has_mode(self.further.as_slice(), m)
    }

    /// How many common modes there are, `default` among them.
    pub fn common_modes(&self) -> usize
        ensures { result ≡ length self.now.common_modes }
    {
        self.further.as_slice().len() + 1
    }

    /// The common items, by number.
    pub fn common_items(&self) -> &[Item]
        ensures { result.now ≡ items_at Common self.now.held }
    {
        self.holdings.items(&Place::Common)
    }

    /// The items of a mode, by number.
    pub fn items(&self, m: ModeId) -> &[Item]
        ensures { result.now ≡ items_at (Mode m) self.now.held }
    {
        self.holdings.items(&Place::Mode(m))
    }

    /// Whether a mode holds no source and no timer. It takes constant time.
    pub fn is_empty(&self, m: ModeId) -> bool
        ensures { result ≡ is_empty (λ i. keeps_open i.kind) (items_at (Mode m) self.now.held) }
    {
        self.holdings.is_empty(m)
    }
}
