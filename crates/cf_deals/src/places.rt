//! The places of run loops that hold items.
ghost use Rattle.std.specs.Prelude.{◌≡◌, ◌&&◌, ◌==◌, length, ◌∷◌, ◌++◌, [], filter, not, IfOk, OnOk, if◌then◌else◌};
ghost use Rattle.rl_base.specs.Modes.{places};
ghost use Rattle.cf_graph.specs.Edges.{has, held_by};
ghost use Rattle.cf_model.specs.Deals.{every_place, held_at, holder_at, holds_at, is_elsewhere, loop_places, place_in};
ghost use Rattle.cf_model.specs.State.{is_common, modes_of};
ghost use Rattle.cf_references.specs.Views.{holder_of};

use cf_ids::ObjId;
use cf_references::{Holder, Reference, has};
use cf_state::{Common, is_common};
use cf_syntax::{ModeWord, Script};
use rl_base::Place;
use std::alloc::{AllocError as NoMemory, Global};

/// The place of a loop that a word names.
pub(crate) fn place_in(word: &ModeWord) -> Place
    ensures { result ≡ place_in word.now }
{
    match word {
        ModeWord::Common => Place::Common,
        ModeWord::Mode(mode) => Place::Mode(*mode),
    }
}

/// A place of a thread's loop as a holder.
pub(crate) fn holder_at(thread: usize, place: &Place) -> Holder
    ensures { holder_of result ≡ holder_at thread place.now }
{
    match place {
        Place::Common => Holder::InCommon { thread },
        Place::Mode(mode) => Holder::InMode {
            thread,
            mode: usize::from(mode.0),
        },
    }
}

/// Whether a place of a thread's loop holds an item.
pub(crate) fn holds_at(thread: usize, item: ObjId, edges: &[Reference], place: &Place) -> bool
    ensures { result ≡ holds_at thread item edges.now place.now }
{
    has(&holder_at(thread, place), item, edges)
}

/// The modes of a script, by number.
pub(crate) fn modes_of(alloc: Global, script: &Script) -> Result<Vec<usize>, NoMemory>
    ensures { IfOk result (λ v. v.items ≡ modes_of script.now) }
{
    let all = script.modes();
    let mut modes = Vec::new(alloc);
    let mut next = 0;
    while next < all {
        modes.push(next)?;
        next += 1;
    }
    Ok(modes)
}

/// The common modes of a thread's loop, of these.
pub(crate) fn common_of(
    alloc: Global,
    commons: &[Common],
    thread: usize,
    modes: &[usize],
) -> Result<Vec<usize>, NoMemory>
    ensures { IfOk result (λ v. v.items ≡ filter (is_common thread commons.now) modes.now) }
{
    modes
        .iter()
        .copied()
        .filter(|mode| is_common(commons, thread, *mode))
        .collect(alloc)
}

/// A holder's reference to an item more, if the holder is to have it and has it, or is not to have it and has it not.
fn put_if(
    references: &mut Vec<Reference>,
    holder: Holder,
    item: ObjId,
    edges: &[Reference],
    holding: bool,
) -> Result<(), NoMemory>
    ensures { let h = holder_of holder in let there = has h item edges.now in
        OnOk result (references.new.items ≡ references.old.items
        ++ (if (if holding then there else not there) then held_by h item ∷ [] else [])) }
{
    if has(&holder, item, edges) == holding {
        references.push(Reference::new(holder, item))?;
    }
    Ok(())
}

/// The references to an item of the places of a loop that hold it, or of those that do not, of the common items and
/// these modes.
pub(crate) fn places_that(
    alloc: Global,
    thread: usize,
    item: ObjId,
    edges: &[Reference],
    modes: &[usize],
    holding: bool,
) -> Result<Vec<Reference>, NoMemory>
    ensures { let holds = holds_at thread item edges.now in
        IfOk result (λ v. v.items ≡ held_at thread item
        (filter (λ p. if holding then holds p else not (holds p)) (places modes.now))) }
{
    let mut references = Vec::new(alloc);
    put_if(
        &mut references,
        Holder::InCommon { thread },
        item,
        edges,
        holding,
    )?;
    for mode in modes {
        let holder = Holder::InMode {
            thread,
            mode: *mode,
        };
        put_if(&mut references, holder, item, edges, holding)?;
    }
    Ok(references)
}

/// The references to an item of all places of a loop that hold it.
fn held_in(
    alloc: Global,
    script: &Script,
    thread: usize,
    item: ObjId,
    edges: &[Reference],
) -> Result<Vec<Reference>, NoMemory>
    ensures { IfOk result (λ v. v.items ≡ held_at thread item (loop_places script.now thread item edges.now)) }
{
    let modes = modes_of(alloc, script)?;
    places_that(alloc, thread, item, edges, modes.as_slice(), true)
}

/// Whether the loop of a thread, which is not this one, holds an item.
fn holds_elsewhere(
    alloc: Global,
    script: &Script,
    other: usize,
    thread: usize,
    item: ObjId,
    edges: &[Reference],
) -> Result<bool, NoMemory>
    ensures { let places = loop_places script.now other item edges.now in
        IfOk result (λ found. found ≡ (not (other == thread) && not (length places == 0))) }
{
    let held = held_in(alloc, script, other, item, edges)?;
    Ok(other != thread && !held.is_empty())
}

/// Whether a loop other than a thread's holds an item.
pub(crate) fn is_elsewhere(
    alloc: Global,
    script: &Script,
    thread: usize,
    item: ObjId,
    edges: &[Reference],
) -> Result<bool, NoMemory>
    ensures { IfOk result (λ found. found ≡ is_elsewhere script.now thread item edges.now) }
{
    let mut other = 0;
    while other < script.threads() {
        if holds_elsewhere(alloc, script, other, thread, item, edges)? {
            return Ok(true);
        }
        other += 1;
    }
    Ok(false)
}

/// All places that hold an item: loops by thread, in each the common items first and then the modes by number.
pub(crate) fn every_place(
    alloc: Global,
    script: &Script,
    item: ObjId,
    edges: &[Reference],
) -> Result<Vec<Reference>, NoMemory>
    ensures { IfOk result (λ v. v.items ≡ every_place script.now item edges.now) }
{
    let mut every = Vec::new(alloc);
    let mut thread = 0;
    while thread < script.threads() {
        let mut held = held_in(alloc, script, thread, item, edges)?;
        every.append(&mut held)?;
        thread += 1;
    }
    Ok(every)
}
