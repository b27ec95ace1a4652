//! The table of external numbers.
ghost use Rattle.std.specs.Prelude.{◌≡◌, ◌+◌, ◌^◌, ◌<◌, length, IfOk};
ghost use Rattle.cf_extern.specs.Numbers.{no_numbers, number_of, with_number};

use crate::NoMemory;
use cf_ids::ObjId;
use std::alloc::Global;
use std::marker::Model;

/// The external number of each object's count. Contracts see it as the list of these numbers, by object.
///
/// It is a probe table whose hash of an object is the object's own number. There is a place for each object, so no two
/// have one home, and each look-up is over at the first place.
#[derive(Drop)]
pub struct Extern {
    numbers: Vec<u64>,
}

impl Model for Extern {
    ghost use Rattle.std.specs.Prelude.{List, ℕ};

    ghost Value = { List ℕ };

    ghost view = { λ table. table.numbers.items };
}

impl Extern {
    /// The table of the objects below this number, each of which has the number 0. It takes all its memory here: eight
    /// bytes for each object.
    pub fn new(alloc: Global, objects: u32) -> Result<Extern, NoMemory>
        ensures { IfOk result (λ table. table ≡ no_numbers objects) }
    {
        let numbers = vec![in alloc; 0; objects as usize]?;
        Ok(Extern { numbers })
    }

    /// The number of an object.
    pub fn of(&self, o: ObjId) -> u64
        requires { o < length self.now }
        ensures { result ≡ number_of self.now o }
    {
        self.numbers[o.0 as usize]
    }

    /// Adds one to the number of an object. It takes no memory.
    pub fn add_one(&mut self, o: ObjId)
        requires below { o < length self.old }
        requires small { number_of self.old o < 2 ^ 48 }
        ensures { self.new ≡ with_number self.old o (number_of self.old o + 1) }
    {
        self.numbers[o.0 as usize] += 1;
    }

    /// Takes one from the number of an object, and answers what is left.
    pub fn take_one(&mut self, o: ObjId) -> u64
        requires below { o < length self.old }
        requires some { 0 < number_of self.old o }
        ensures left { result + 1 ≡ number_of self.old o }
        ensures table { self.new ≡ with_number self.old o result }
    {
        let number = &mut self.numbers[o.0 as usize];
        *number -= 1;
        *number
    }
}
