//! The first fault of threads: of the words after `uses`, and of their statements.
ghost use Rattle.std.specs.Prelude.{◌≡◌, ◌++◌, ◌∷◌, ◌+◌, List, ℕ, [], ◌<◌, None, IfSome, length, slice_index};
ghost use Rattle.cf_syntax.specs.Counting.{Counted, HasRoom};
ghost use Rattle.cf_syntax.specs.BlockLines.{BlockLine, packs, claims, packs_from, claims_from};
ghost use Rattle.cf_syntax.specs.Owned.{given_fault, uses_fault, thread_block_fault, threads_fault};

use crate::statements::{rebound_fault, statements_fault, unbound_fault, unowned_fault};
use cf_ids::VarId;
use cf_syntax::{Block, Counts, Given, Ownership, Reason, Refusal, Script};

/// The fault of a word after `uses`.
fn given_fault(setup: &Counts, own: &Counts, given: Given) -> Option<Reason>
    ensures fault { (before mine : List BlockLine) → Counted setup.now before → Counted own.now mine → result ≡ given_fault before mine given.setup given.own }
    ensures owns { result ≡ None → IfSome given.setup (λ v. slice_index setup.now.released v < slice_index setup.now.given v) }
{
    let Some(variable) = given.setup else {
        return Some(Reason::Undefined);
    };
    if let Some(reason) = unbound_fault(setup, variable) {
        return Some(reason);
    }
    if let Some(reason) = rebound_fault(own, given.own) {
        return Some(reason);
    }
    unowned_fault(setup, variable)
}

/// Counts what setup packs for a word after `uses`.
#[tactic(auto, using(crate::proofs::Walks::packed_none))]
fn pack(setup: &mut Counts, variable: Option<VarId>)
    requires { IfSome variable (λ v. slice_index setup.old.released v < slice_index setup.old.given v) }
    ensures { (before : List BlockLine) (thread place : ℕ) → Counted setup.old before → Counted setup.new (before ++ packs thread place variable ∷ []) }
{
    match variable {
        None => {}
        Some(variable) => setup.release(variable),
    }
}

/// Counts a word after `uses`, in setup and in the thread's block.
fn take_over(setup: &mut Counts, own: &mut Counts, given: Given)
    requires room { HasRoom own.old 1 }
    requires owns { IfSome given.setup (λ v. slice_index setup.old.released v < slice_index setup.old.given v) }
    ensures setup { (before : List BlockLine) (thread place : ℕ) → Counted setup.old before → Counted setup.new (before ++ packs thread place given.setup ∷ []) }
    ensures own { (mine : List BlockLine) (place : ℕ) → Counted own.old mine → Counted own.new (mine ++ claims place given.own ∷ []) }
    ensures room_left { (n : ℕ) → HasRoom own.old (n + 1) → HasRoom own.new n }
{
    pack(setup, given.setup);
    own.count(Ownership::Binds(given.own));
}

/// The first fault of the words after `uses` on a thread's line; where there is none, they are counted.
fn uses_fault(setup: &mut Counts, own: &mut Counts, line: u32, uses: &[Given]) -> Option<Refusal>
    requires { HasRoom own.old (length uses.now) }
    ensures fault { (before mine : List BlockLine) (thread place : ℕ) → Counted setup.old before → Counted own.old mine
        → result ≡ uses_fault before mine thread place line uses.now }
    ensures setup { (before mine : List BlockLine) (thread place : ℕ) → Counted setup.old before → Counted own.old mine → result ≡ None
        → Counted setup.new (before ++ packs_from thread place uses.now) }
    ensures own { (before mine : List BlockLine) (place : ℕ) → Counted setup.old before → Counted own.old mine → result ≡ None
        → Counted own.new (mine ++ claims_from place uses.now) }
    ensures room { (n : ℕ) → result ≡ None → HasRoom own.old (length uses.now + n) → HasRoom own.new n }
{
    for given in uses {
        if let Some(reason) = given_fault(setup, own, *given) {
            return Some(Refusal { line, reason });
        }
        take_over(setup, own, *given);
    }
    None
}

/// The first fault of a thread's block; where there is none, what it uses is counted in setup.
fn thread_fault(script: &Script, setup: &mut Counts, block: &Block) -> Option<Refusal>
    ensures fault { (before : List BlockLine) (thread : ℕ) → Counted setup.old before → result ≡ thread_block_fault script.now before thread block.now }
    ensures setup { (before : List BlockLine) (thread : ℕ) → Counted setup.old before → result ≡ None
        → Counted setup.new (before ++ packs_from thread 0 block.now.uses) }
{
    let mut own = Counts::new();
    if let Some(refusal) = uses_fault(setup, &mut own, block.first, block.uses.as_slice()) {
        return Some(refusal);
    }
    statements_fault(
        script,
        &mut own,
        block.lines.as_slice(),
        block.statements.as_slice(),
    )
}

/// The first fault of threads, after the lines of setup that were counted.
pub(crate) fn threads_fault(
    script: &Script,
    setup: &mut Counts,
    blocks: &[Block],
) -> Option<Refusal>
    ensures { (before : List BlockLine) (thread : ℕ) → Counted setup.old before → result ≡ threads_fault script.now before thread blocks.now }
{
    for block in blocks {
        if let Some(refusal) = thread_fault(script, setup, block) {
            return Some(refusal);
        }
    }
    None
}
