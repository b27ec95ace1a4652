//! One plain number for each object that was made, of the references that lead to it.
ghost use Rattle.std.specs.Prelude.{◌≡◌, ℕ, ◌+◌, ◌-◌, ◌<◌, ◌≤◌, ◌^◌, [], length, slice_index, slice_set, vec_len, vec_capacity, OnOk};
ghost use Rattle.cf_contents.specs.Contents.{times};
ghost use Rattle.cf_world.specs.Worlds.{ended_at};

use cf_ids::{Ended, ObjId};
use std::alloc::{AllocError as NoMemory, Global};
use std::marker::Model;

/// How many references lead to each object, by number. Contracts see the numbers.
#[derive(Drop)]
pub(crate) struct Numbers {
    references: Vec<u64>,
}

impl Model for Numbers {
    ghost use Rattle.std.specs.Prelude.{◌-◌, vec_len, vec_capacity};
    ghost use Rattle.cf_serial.specs.Numbers.{NumbersView};

    ghost Value = { NumbersView };

    ghost view = { λ n. record {
      items = n.references.items;
      room = vec_capacity n.references - vec_len n.references;
    } };
}

// One more reference to an object.
fn raise_one(references: &mut Vec<u64>, o: ObjId)
    requires made { o < length references.old.items }
    requires fits { slice_index references.old.items o + 1 < 2 ^ 64 }
    ensures { references.new.items ≡ slice_set references.old.items o (slice_index references.old.items o + 1) }
{
    references[o.0 as usize] += 1;
}

// One more reference to each of these objects.
fn raise_all(references: &mut Vec<u64>, gained: &[ObjId])
    requires made { (o : ℕ) → 0 < times o gained.now → o < length references.old.items }
    requires fits { (o : ℕ) → o < length references.old.items
        → slice_index references.old.items o + length gained.now < 2 ^ 64 }
    ensures size { length references.new.items ≡ length references.old.items }
    ensures at { (o : ℕ) → o < length references.old.items
        → slice_index references.new.items o ≡ slice_index references.old.items o + times o gained.now }
{
    for o in gained {
        raise_one(references, *o);
    }
}

// The numbers of so many objects, of which the last may be new. There is room for it.
fn grow_to(references: &mut Vec<u64>, made: usize)
    requires room { vec_len references.old < vec_capacity references.old }
    requires few { made ≤ length references.old.items + 1 }
    requires more { length references.old.items ≤ made }
    ensures size { length references.new.items ≡ made }
    ensures old { (o : ℕ) → o < length references.old.items
        → slice_index references.new.items o ≡ slice_index references.old.items o }
    ensures new { (o : ℕ) → length references.old.items ≤ o → o < made → slice_index references.new.items o ≡ 0 }
{
    if references.len() < made {
        references.push_reserved(0);
    }
}

// One reference to an object less.
fn lower_one(references: &mut Vec<u64>, o: ObjId)
    requires made { o < length references.old.items }
    requires some { 0 < slice_index references.old.items o }
    ensures { references.new.items ≡ slice_set references.old.items o (slice_index references.old.items o - 1) }
{
    references[o.0 as usize] -= 1;
}

// What the release of a reference to an object leaves, by the number of references before it.
fn ended_by(references: &[u64], o: ObjId) -> Ended
    requires made { o < length references.now }
    ensures { result ≡ ended_at (slice_index references.now o) }
{
    if references[o.0 as usize] == 1 {
        Ended::Last
    } else {
        Ended::More
    }
}

impl Numbers {
    /// Those of no object; takes no memory.
    pub fn new(alloc: Global) -> Numbers
        ensures { result.items ≡ [] }
    {
        Numbers {
            references: Vec::new(alloc),
        }
    }

    /// Makes room for the number of one object more.
    pub fn reserve(&mut self) -> Result<(), NoMemory>
        ensures items { self.new.items ≡ self.old.items }
        ensures room { OnOk result (0 < self.new.room) }
    {
        self.references.reserve(1)
    }

    /// There are so many objects now, of which the last may be new.
    pub fn grow(&mut self, made: usize)
        requires room { 0 < self.old.room }
        requires few { made ≤ length self.old.items + 1 }
        requires more { length self.old.items ≤ made }
        ensures size { length self.new.items ≡ made }
        ensures old { (o : ℕ) → o < length self.old.items
            → slice_index self.new.items o ≡ slice_index self.old.items o }
        ensures new { (o : ℕ) → length self.old.items ≤ o → o < made → slice_index self.new.items o ≡ 0 }
    {
        grow_to(&mut self.references, made);
    }

    /// One more reference to each of these objects.
    pub fn raise(&mut self, gained: &[ObjId])
        requires made { (o : ℕ) → 0 < times o gained.now → o < length self.old.items }
        requires fits { (o : ℕ) → o < length self.old.items
            → slice_index self.old.items o + length gained.now < 2 ^ 64 }
        ensures size { length self.new.items ≡ length self.old.items }
        ensures at { (o : ℕ) → o < length self.old.items
            → slice_index self.new.items o ≡ slice_index self.old.items o + times o gained.now }
    {
        raise_all(&mut self.references, gained);
    }

    /// One reference to an object less.
    pub fn lower(&mut self, o: ObjId)
        requires made { o < length self.old.items }
        requires some { 0 < slice_index self.old.items o }
        ensures { self.new.items ≡ slice_set self.old.items o (slice_index self.old.items o - 1) }
    {
        lower_one(&mut self.references, o);
    }

    /// What the release of a reference to an object leaves.
    pub fn ended(&self, o: ObjId) -> Ended
        requires made { o < length self.now.items }
        ensures { result ≡ ended_at (slice_index self.now.items o) }
    {
        ended_by(self.references.as_slice(), o)
    }
}
