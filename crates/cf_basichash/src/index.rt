//! The index of a table of rows: the hash of each row's key, and the places where a row with a hash is looked for.
ghost use Rattle.std.specs.Prelude.{◌≡◌, ◌+◌, ◌-◌, ◌*◌, ◌%◌, ◌<◌, ◌≤◌, [], ◌∷◌, ◌++◌, max, length, slice_index, remove, IsOk, OnOk, OnErr, IfSome, IfNone};
ghost use Rattle.cf_basichash.specs.Places.{IsNext, IsIndex};

use crate::places::{after, close, first, home, lower_all, places_of, put};
use std::alloc::{AllocError as NoMemory, Global};
use std::marker::Model;

/// The hashes of a table's rows, and its places: none before room was first made, then a power of two of them, at
/// least twice the rows and the room.
#[derive(Drop)]
pub struct Index {
    alloc: Global,
    hashes: Vec<u64>,
    places: Vec<usize>,
    room: usize,
}

impl Model for Index {
    ghost use Rattle.std.specs.Prelude.{length, vec_capacity};
    ghost use Rattle.cf_basichash.specs.Places.{Places, IsIndexWithin};

    ghost Value = { Places };

    ghost view = { λ i. record { hashes = i.hashes.items; places = i.places.items; room = i.room } };

    ghost invariant = { λ i. IsIndexWithin i.hashes.items i.places.items i.room (vec_capacity i.hashes) };
}

impl Index {
    /// No rows, no places and no room; takes no memory.
    pub fn new(alloc: Global) -> Index
        ensures { result ≡ record { hashes = []; places = []; room = 0 } }
    {
        Index {
            alloc,
            hashes: Vec::new(alloc),
            places: Vec::new(alloc),
            room: 0,
        }
    }

    /// For how many more rows there is room.
    pub fn room(&self) -> usize
        ensures { result ≡ self.now.room }
    {
        self.room
    }

    /// Makes room for at least `more` further rows. `NoMemory` comes only if the room was less, and changes
    /// nothing.
    pub fn reserve(&mut self, more: usize) -> Result<(), NoMemory>
        ensures hashes { self.new.hashes ≡ self.old.hashes }
        ensures room { OnOk result (self.new.room ≡ max more self.old.room) }
        ensures enough { more ≤ self.old.room → IsOk result }
        ensures err { OnErr result (self.new ≡ self.old) }
    {
        if more <= self.room {
            return Ok(());
        }
        if usize::MAX / 4 < more {
            return Err(NoMemory);
        }
        self.hashes.reserve(more)?;
        let rows = self.hashes.len();
        if usize::MAX / 4 - more < rows {
            return Err(NoMemory);
        }
        let wanted = 2 * (rows + more);
        if self.places.len() < wanted {
            self.places = places_of(self.alloc, &self.hashes, wanted.next_power_of_two())?;
        }
        self.room = more;
        Ok(())
    }

    /// Puts the hash of a row after those of the others, in the room that is there, which becomes less by 1.
    pub fn push(&mut self, hash: u64)
        requires { 0 < self.old.room }
        ensures hashes { self.new.hashes ≡ self.old.hashes ++ hash ∷ [] }
        ensures room { self.new.room + 1 ≡ self.old.room }
    {
        let home = home(hash, self.places.len());
        let number = self.hashes.len() + 1;
        put(&mut self.places, home, number);
        self.hashes.push_reserved(hash);
        self.room -= 1;
    }

    /// Takes out a row, and those after it move down; the room becomes more by 1.
    pub fn remove(&mut self, row: usize)
        requires { row < length self.old.hashes }
        ensures hashes { self.new.hashes ≡ remove self.old.hashes row }
        ensures room { self.new.room ≡ self.old.room + 1 }
    {
        let home = home(self.hashes[row], self.places.len());
        let place = first(&self.places, home, row + 1);
        close(&self.hashes, &mut self.places, place);
        lower_all(&mut self.places, row + 1);
        self.hashes.remove(row);
        self.room += 1;
    }

    /// The place from which a row with this hash is looked for.
    pub fn home(&self, hash: u64) -> usize
        requires { 0 < length self.now.hashes }
        ensures home { result ≡ hash % length self.now.places }
        ensures within { result < length self.now.places }
        ensures rule { IsIndex self.now.hashes self.now.places }
        ensures larger { length self.now.hashes < length self.now.places }
    {
        home(hash, self.places.len())
    }

    /// The row at a place, or `None` if it is empty.
    pub fn row_at(&self, place: usize) -> Option<usize>
        requires { place < length self.now.places }
        ensures none { IfNone result (slice_index self.now.places place ≡ 0) }
        ensures some { IfSome result (λ row. slice_index self.now.places place ≡ row + 1) }
        ensures below { IfSome result (λ row. row < length self.now.hashes) }
    {
        let number = self.places[place];
        if number == 0 {
            return None;
        }
        Some(number - 1)
    }

    /// The hash of a row's key.
    pub fn hash_of(&self, row: usize) -> u64
        requires { row < length self.now.hashes }
        ensures { result ≡ slice_index self.now.hashes row }
    {
        self.hashes[row]
    }

    /// The place that follows: the first follows the last.
    pub fn after(&self, place: usize) -> usize
        requires { place < length self.now.places }
        ensures { IsNext (length self.now.places) place result }
    {
        after(place, self.places.len())
    }
}
