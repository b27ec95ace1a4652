//! The places of an index: from a hash's home on to the first that has a number, and how they are written and close
//! up.
ghost use Rattle.std.specs.Prelude.{◌≡◌, ℕ, ◌+◌, ◌-◌, ◌*◌, ◌%◌, ◌<◌, ◌≤◌, ◌⊎◌, map, length, slice_index, slice_set, IfOk};
ghost use Rattle.std.specs.Int.{IsPowerOfTwo};
ghost use Rattle.cf_basichash.specs.Places.{steps, copies, lower, IsNext, IsFirst, IsPut, IsShifted, IsClosed, IsIndex, AreReached};

use std::alloc::{AllocError as NoMemory, Global};

/// The home of a hash among so many places.
pub fn home(hash: u64, count: usize) -> usize
    requires { IsPowerOfTwo count }
    ensures home { result ≡ hash % count }
    ensures within { result < count }
{
    (hash & (count as u64 - 1)) as usize
}

/// The place that follows, among so many places: the first follows the last.
pub fn after(place: usize, count: usize) -> usize
    requires { place < count }
    ensures { IsNext count place result }
{
    let next = place + 1;
    if next < count {
        return next;
    }
    0
}

/// How many steps lead from a place on to another, among so many places.
#[tactic(auto, unfolding(crate::specs::Places::steps))]
fn steps(count: usize, from: usize, to: usize) -> usize
    requires from { from < count }
    requires to { to < count }
    ensures { result ≡ steps count from to }
{
    if from <= to {
        return to - from;
    }
    to + (count - from)
}

/// The first place from `home` on that has the number.
pub fn first(places: &[usize], home: usize, number: usize) -> usize
    requires home { home < length places.now }
    requires there { 0 < copies number places.now }
    ensures { IsFirst places.now home number result }
{
    let mut place = home;
    while places[place] != number {
        place = after(place, places.len());
    }
    place
}

/// Puts a number into the first empty place from `home` on.
pub fn put(places: &mut [usize], home: usize, number: usize)
    requires home { home < length places.old }
    requires free { 0 < copies 0 places.old }
    ensures { IsPut places.old places.new home number }
{
    let place = first(places, home, 0);
    places[place] = number;
}

/// So many places for the rows with these hashes.
pub fn places_of(alloc: Global, hashes: &[u64], count: usize) -> Result<Vec<usize>, NoMemory>
    requires power { IsPowerOfTwo count }
    requires larger { length hashes.now < count }
    ensures rule { IfOk result (λ places. IsIndex hashes.now places.items) }
    ensures size { IfOk result (λ places. length places.items ≡ count) }
{
    let mut places = Vec::new(alloc);
    places.resize(count, 0)?;
    for row in 0..hashes.len() {
        let home = home(hashes[row], count);
        put(&mut places, home, row + 1);
    }
    Ok(places)
}

/// Moves what stands at `place` into the hole if its way from home leads over it, and answers which place is the hole
/// then.
fn shift(hashes: &[u64], places: &mut [usize], hole: usize, place: usize) -> usize
    requires hole { hole < length places.old }
    requires place { place < length places.old }
    requires full { 0 < slice_index places.old place }
    requires known { slice_index places.old place ≤ length hashes.now }
    requires power { IsPowerOfTwo (length places.old) }
    ensures { IsShifted hashes.now places.old places.new hole place result }
{
    let number = places[place];
    let home = home(hashes[number - 1], places.len());
    if steps(places.len(), home, hole) < steps(places.len(), home, place) {
        places[hole] = number;
        return place;
    }
    hole
}

/// Takes out what stands at a place; what stands later moves up so that each is reached from its home.
pub fn close(hashes: &[u64], places: &mut [usize], start: usize)
    requires start { start < length places.old }
    requires full { 0 < slice_index places.old start }
    requires free { 0 < copies 0 places.old }
    requires power { IsPowerOfTwo (length places.old) }
    requires ways { AreReached hashes.now places.old }
    ensures { IsClosed hashes.now places.old places.new start }
{
    let mut hole = start;
    let mut place = after(start, places.len());
    while places[place] != 0 {
        hole = shift(hashes, places, hole, place);
        place = after(place, places.len());
    }
    places[hole] = 0;
}

/// The number of a row after the row with the number `gone` is taken out.
fn lower_number(gone: usize, number: usize) -> usize
    ensures { result ≡ lower gone number }
{
    if gone < number {
        return number - 1;
    }
    number
}

/// Numbers the rows anew after the one with the number `gone` is taken out.
pub fn lower_all(places: &mut [usize], gone: usize)
    ensures { places.new ≡ map (lower gone) places.old }
{
    for place in 0..places.len() {
        places[place] = lower_number(gone, places[place]);
    }
}
