//! The registrations of a notification centre.
ghost use Rattle.std.specs.Prelude.{◌≡◌, ◌+◌, ◌-◌, ◌<◌, ◌≤◌, ◌++◌, ◌∷◌, ◌^◌, [], ℕ, true, length, max, slice_set, slice_index_or, Some, None, OnOk, OnErr, IsOk, IsSome, is_some, is_none, option_copied, vec_len, vec_capacity, nat_lt, IsTrue, ◌↔◌, if◌then◌else◌};
ghost use Rattle.rl_base.specs.Receivers.{takes, matches, forgets, receivers, numbers_of};
ghost use Rattle.cf_notify.specs.Centres.{count_there, without};
ghost use Rattle.cf_notify.specs.Links.{IsNext};
ghost use Rattle.cf_notify.specs.Registered.{list_of, is_named, is_by, passes, least};

use crate::NoMemory;
use crate::lists::Lists;
use cf_ids::{HandlerId, NOTICES, NameId, OBJECT_NUMBERS, ObjId};
use rl_base::{RegId, Registration};
use std::alloc::{AllocError, Global};
use std::marker::Model;

// The list of the registrations for a name, or for any.
fn list_of(name: &Option<NameId>) -> u32
    ensures list { result ≡ list_of name.now }
    ensures limit { result < 1025 }
{
    match name {
        Some(name) => name.0 as u32 + 1,
        None => 0,
    }
}

// The lesser of two numbers.
fn least(a: Option<u32>, b: Option<u32>) -> Option<u32>
    ensures { result ≡ least a b }
{
    match (a, b) {
        (Some(m), Some(n)) => Some(if m < n { m } else { n }),
        (Some(m), None) => Some(m),
        (None, b) => b,
    }
}

// Whether a registration is one that an observer forgets.
fn is_forgotten(
    made: &Registration,
    observer: ObjId,
    name: &Option<NameId>,
    filter: &Option<ObjId>,
) -> bool
    ensures { result ≡ forgets observer name.now filter.now made.now }
{
    let by = made.observer;
    by.0 == observer.0 && takes_name(name, &made.name) && takes_object(filter, &made.filter)
}

// Whether a wanted name takes a given one.
fn takes_name(wanted: &Option<NameId>, given: &Option<NameId>) -> bool
    ensures { result ≡ takes wanted.now given.now }
{
    match (wanted, given) {
        (None, _) => true,
        (Some(_), None) => false,
        (Some(wanted), Some(given)) => wanted.0 == given.0,
    }
}

// Whether a wanted object takes a given one.
fn takes_object(wanted: &Option<ObjId>, given: &Option<ObjId>) -> bool
    ensures { result ≡ takes wanted.now given.now }
{
    match (wanted, given) {
        (None, _) => true,
        (Some(_), None) => false,
        (Some(wanted), Some(given)) => wanted.0 == given.0,
    }
}

// Whether a registration receives a notice.
fn is_received(made: &Registration, name: NameId, object: &Option<ObjId>) -> bool
    ensures { result ≡ matches name object.now made.now }
{
    takes_name(&made.name, &Some(name)) && takes_object(&made.filter, object)
}

// Whether it is this number.
fn is_it(a: Option<u32>, k: u32) -> bool
    ensures { IsTrue result ↔ (a ≡ Some k) }
{
    match a {
        Some(n) => n == k,
        None => false,
    }
}

/// The registrations of a notification centre. They retain neither their observers nor their filter objects, and a
/// number is never used again.
///
/// Those for one name, and those of one observer, lead from each to the next.
#[derive(Drop)]
pub struct Centre {
    // Each registration at its number, or `None` if it was forgotten.
    made: Vec<Option<Registration>>,
    // The numbers by name, and by observer.
    names: Lists,
    observers: Lists,
    // How many are there.
    there: usize,
    // For how many there is memory.
    capacity: usize,
}

impl Model for Centre {
    ghost use Rattle.std.specs.Prelude.{◌-◌, vec_len};
    ghost use Rattle.cf_notify.specs.Centres.{Notices};
    ghost use Rattle.cf_notify.specs.Registered.{IsRegistered};

    ghost Value = { Notices };

    ghost view = { λ a. record { made = a.made.items; room = a.capacity - vec_len a.made } };

    ghost invariant = { λ a. IsRegistered a.made a.names a.observers a.there a.capacity };
}

impl Centre {
    /// No registration. It takes no memory.
    pub fn new(alloc: Global) -> Centre
        ensures { result ≡ record { made = []; room = 0 } }
    {
        Centre {
            made: Vec::new(alloc),
            names: Lists::new(alloc),
            observers: Lists::new(alloc),
            there: 0,
            capacity: 0,
        }
    }

    /// Makes room for at least `more` further registrations. `NoMemory` comes only if the room was less, and changes
    /// nothing.
    pub fn reserve(&mut self, more: usize) -> Result<(), NoMemory>
        ensures made { self.new.made ≡ self.old.made }
        ensures room { OnOk result (more ≤ self.new.room) }
        ensures kept { self.old.room ≤ self.new.room }

        // It can be refused only if the room was missing.
        ensures enough { more ≤ self.old.room → IsOk result }
        ensures err { OnErr result (self.new ≡ self.old) }
    {
        let used = self.made.len();
        if more <= self.capacity - used {
            return Ok(());
        }
        let Some(all) = used.checked_add(more) else {
            return Err(AllocError);
        };
        self.names.hold(NOTICES + 1, more)?;
        self.observers.hold(OBJECT_NUMBERS, more)?;
        self.made.reserve(more)?;
        self.capacity = all;
        Ok(())
    }

    /// Registers an observer. The number is how many registrations were made before, forgotten ones too.
    pub fn observe(
        &mut self,
        o: ObjId,
        h: HandlerId,
        name: Option<NameId>,
        filter: Option<ObjId>,
    ) -> RegId
        requires room { 1 ≤ self.old.room }
        requires few { length self.old.made < 4294967295 }
        ensures number { result ≡ length self.old.made }
        ensures made { self.new.made ≡ self.old.made ++
            Some (record { observer = o; handler = h; name = name; filter = filter }) ∷ [] }
        ensures room { self.new.room + 1 ≡ self.old.room }
    {
        let number = self.made.len() as u32;
        let list = list_of(&name);
        self.names.append(list);
        self.observers.append(o.0);
        self.made.push_reserved(Some(Registration {
            observer: o,
            handler: h,
            name,
            filter,
        }));
        self.there += 1;
        RegId(number)
    }

    /// The registration of a number, or `None` exactly if it was not made or was forgotten.
    pub fn get(&self, r: RegId) -> Option<&Registration>
        ensures { option_copied result ≡ slice_index_or self.now.made r None }
    {
        self.made.get(r.0 as usize)?.as_ref()
    }

    /// Whether a registration was made and not forgotten.
    pub fn is_there(&self, r: RegId) -> bool
        ensures { result ≡ is_some (slice_index_or self.now.made r None) }
    {
        self.get(r).is_some()
    }

    /// How many registrations are there.
    pub fn count(&self) -> usize
        ensures { result ≡ count_there self.now.made }
    {
        self.there
    }

    /// Forgets the registrations of an observer that have this name and filter, where `None` stands for all, and tells
    /// how many they were. A given name does not take out one for any name. It looks at the observer's registrations.
    pub fn forget(&mut self, o: ObjId, name: Option<NameId>, filter: Option<ObjId>) -> usize
        ensures count { result ≡ length (numbers_of (forgets o name filter) self.old.made) }
        ensures forgotten { self.new ≡ record self.old { made = without (forgets o name filter) self.old.made } }
    {
        let mut gone = 0;
        let mut at = self.first_by(o);
        while let Some(k) = at {
            at = self.next_by(k);
            if self.forget_one(k, o, &name, &filter) {
                gone += 1;
            }
        }
        gone
    }

    /// Appends the registrations that receive a notice, but for the test of live objects, in the order in which they
    /// were made. It looks at the registrations for that name and at those for any name.
    pub fn collect(&self, name: NameId, object: Option<ObjId>, out: &mut Vec<RegId>)
        requires { vec_len out.old + count_there self.now.made ≤ vec_capacity out.old }
        ensures items { out.new.items ≡ out.old.items ++ receivers name object self.now.made }
        ensures capacity { vec_capacity out.new ≡ vec_capacity out.old }
    {
        let mut named = self.first_named(list_of(&Some(name)));
        let mut any = self.first_named(list_of(&None));
        while let Some(k) = least(named, any) {
            self.put_receiver(k, name, &object, out);
            if is_it(named, k) {
                named = self.next_named(k);
            } else {
                any = self.next_named(k);
            }
        }
    }

    // The first registration of a list of names.
    fn first_named(&self, list: u32) -> Option<u32>
        ensures { IsNext (is_named list self.now.made) 0 result }
    {
        self.names.first(list)
    }

    // The registration after this one in its list of names.
    fn next_named(&self, k: u32) -> Option<u32>
        ensures { (l : ℕ) → is_named l self.now.made k ≡ true → IsNext (is_named l self.now.made) (k + 1) result }
    {
        self.names.next(k)
    }

    // The first registration of an observer.
    fn first_by(&self, o: ObjId) -> Option<u32>
        ensures { IsNext (is_by o self.now.made) 0 result }
    {
        self.observers.first(o.0)
    }

    // The registration of the same observer after this one.
    fn next_by(&self, k: u32) -> Option<u32>
        ensures next { (o : ℕ) → is_by o self.now.made k ≡ true → IsNext (is_by o self.now.made) (k + 1) result }
        ensures small { k < 2 ^ 32 }
    {
        self.observers.next(k)
    }

    // Forgets a registration, if it is one that the observer forgets, and tells whether it was.
    fn forget_one(
        &mut self,
        k: u32,
        o: ObjId,
        name: &Option<NameId>,
        filter: &Option<ObjId>,
    ) -> bool
        ensures is { result ≡ passes (forgets o name.now filter.now) self.old.made k }
        ensures gone { self.new ≡ record self.old {
          made = (if passes (forgets o name.now filter.now) self.old.made k
              then slice_set self.old.made k None else self.old.made);
        } }
    {
        let is = match self.get(RegId(k)) {
            Some(made) => is_forgotten(made, o, name, filter),
            None => false,
        };
        if is {
            self.take_out(k);
        }
        is
    }

    // Takes a registration out.
    fn take_out(&mut self, k: u32)
        requires { IsSome (slice_index_or self.old.made k None) }
        ensures { self.new ≡ record self.old { made = slice_set self.old.made k None } }
    {
        self.names.remove(k);
        self.observers.remove(k);
        self.made[k as usize] = None;
        self.there -= 1;
    }

    // Appends a registration, if it receives a notice.
    fn put_receiver(&self, k: u32, name: NameId, object: &Option<ObjId>, out: &mut Vec<RegId>)
        requires { passes (matches name object.now) self.now.made k ≡ true → vec_len out.old < vec_capacity out.old }
        ensures items { out.new.items ≡
            (if passes (matches name object.now) self.now.made k then out.old.items ++ k ∷ [] else out.old.items) }
        ensures len { vec_len out.new ≡
            (if passes (matches name object.now) self.now.made k then vec_len out.old + 1 else vec_len out.old) }
        ensures capacity { vec_capacity out.new ≡ vec_capacity out.old }
    {
        if let Some(made) = self.get(RegId(k)) {
            if is_received(made, name, object) {
                out.push_reserved(RegId(k));
            }
        }
    }
}
