//! Running counts of what lines do to the variables of their block.
ghost use Rattle.std.specs.Prelude.{◌≡◌, ℕ, ◌+◌, ◌<◌, ◌^◌, ◌∷◌, ◌++◌, [], List, slice_index};
ghost use Rattle.cf_ids.specs.declared.limits.TheConstants.{VARIABLES};
ghost use Rattle.cf_syntax.specs.BlockLines.{BlockLine, line_ownership};
ghost use Rattle.cf_syntax.specs.Owned.{one_of, bound, given, released};
ghost use Rattle.cf_syntax.specs.declared.mention.Ownership.TheVariants.{Releases};
ghost use Rattle.cf_syntax.specs.Counting.{Counted, Noted, HasRoom};

use crate::mention::Ownership;
use cf_ids::{VARIABLES, VarId};

/// How often lines bind each variable of their block, and how many references they give to it and take from it.
#[derive(Drop)]
pub struct Counts {
    /// How often each variable is bound.
    pub bound: [usize; VARIABLES],
    /// How many references each variable is given.
    pub given: [usize; VARIABLES],
    /// How many references are taken from each variable.
    pub released: [usize; VARIABLES],
}

impl Counts {
    /// The counts of no line.
    #[tactic(auto, using(crate::proofs::CountLaws::counted_start, crate::proofs::CountLaws::room_start))]
    pub fn new() -> Counts
        ensures counted { Counted result [] }
        ensures room { (n : ℕ) → n < 2 ^ 64 → HasRoom result n }
    {
        Counts {
            bound: [0; VARIABLES],
            given: [0; VARIABLES],
            released: [0; VARIABLES],
        }
    }

    /// Counts one line more, which does this to a variable.
    #[tactic(auto, using(crate::proofs::CountLaws::counted_more, crate::proofs::CountLaws::room_less))]
    pub fn count(&mut self, ownership: Ownership)
        requires { HasRoom self.old 1 }
        ensures counted { (earlier : List BlockLine) (x : BlockLine) → line_ownership x ≡ ownership → Counted self.old earlier
            → Counted self.new (earlier ++ x ∷ []) }
        ensures room { (n : ℕ) → HasRoom self.old (n + 1) → HasRoom self.new n }
    {
        self.note(ownership);
    }

    /// Counts one line more, which takes a reference from a variable that owns one.
    #[tactic(auto, using(crate::proofs::CountLaws::counted_more))]
    pub fn release(&mut self, variable: VarId)
        requires { slice_index self.old.released variable < slice_index self.old.given variable }
        ensures { (earlier : List BlockLine) (x : BlockLine) → line_ownership x ≡ Releases variable → Counted self.old earlier
            → Counted self.new (earlier ++ x ∷ []) }
    {
        self.note_release(variable);
    }

    /// Counts a reference that is taken.
    fn note_release(&mut self, variable: VarId)
        requires { slice_index self.old.released variable < slice_index self.old.given variable }
        ensures { Noted self.old (Releases variable) self.new }
    {
        // What is taken stays below what is given, which is a number of its own.
        let _given = self.given[variable.0 as usize];
        add_one_more(&mut self.released, variable);
    }

    /// How often a variable is bound.
    pub fn bound(&self, variable: VarId) -> usize
        ensures { (earlier : List BlockLine) → Counted self.now earlier → result ≡ bound variable earlier }
    {
        self.bound[variable.0 as usize]
    }

    /// How many references a variable is given.
    pub fn given(&self, variable: VarId) -> usize
        ensures counted { (earlier : List BlockLine) → Counted self.now earlier → result ≡ given variable earlier }
        ensures value { result ≡ slice_index self.now.given variable }
    {
        self.given[variable.0 as usize]
    }

    /// How many references are taken from a variable.
    pub fn released(&self, variable: VarId) -> usize
        ensures counted { (earlier : List BlockLine) → Counted self.now earlier → result ≡ released variable earlier }
        ensures value { result ≡ slice_index self.now.released variable }
    {
        self.released[variable.0 as usize]
    }

    /// Counts what a line does to a variable.
    fn note(&mut self, ownership: Ownership)
        requires { HasRoom self.old 1 }
        ensures { Noted self.old ownership self.new }
    {
        match ownership {
            Ownership::Keeps => {}
            Ownership::Binds(variable) => {
                add_one(&mut self.bound, variable);
                add_one(&mut self.given, variable);
            }
            Ownership::Retains(variable) => add_one(&mut self.given, variable),
            Ownership::Releases(variable) => add_one(&mut self.released, variable),
        }
    }
}

/// One more for a variable.
fn add_one(table: &mut [usize; VARIABLES], variable: VarId)
    requires { (v : ℕ) → v < VARIABLES → slice_index table.old v + 1 < 2 ^ 64 }
    ensures { (v : ℕ) → v < VARIABLES → slice_index table.new v ≡ slice_index table.old v + one_of v variable }
{
    let cell = &mut table[variable.0 as usize];
    *cell += 1;
}

/// One more for a variable whose number can rise.
fn add_one_more(table: &mut [usize; VARIABLES], variable: VarId)
    requires { slice_index table.old variable + 1 < 2 ^ 64 }
    ensures { (v : ℕ) → v < VARIABLES → slice_index table.new v ≡ slice_index table.old v + one_of v variable }
{
    let cell = &mut table[variable.0 as usize];
    *cell += 1;
}
