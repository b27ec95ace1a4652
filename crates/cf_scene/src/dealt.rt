//! What a statement over run loops has done.
ghost use Rattle.std.specs.Prelude.{◌≡◌};

use cf_ids::{Answer, ObjId};

/// What a statement over run loops has done.
#[derive(Drop)]
pub struct Dealt {
    /// What it answers.
    pub answer: Answer,
    /// The item that came or went, where one did.
    pub item: ObjId,
    /// How many places it came into.
    pub came: usize,
    /// How many places it went out of.
    pub went: usize,
}

impl Dealt {
    /// What answers and moves nothing.
    pub fn answering(answer: Answer) -> Dealt
        ensures answer { result.answer ≡ answer }
        ensures came { result.came ≡ 0 }
        ensures went { result.went ≡ 0 }
    {
        Dealt {
            answer,
            item: ObjId(0),
            came: 0,
            went: 0,
        }
    }
}
