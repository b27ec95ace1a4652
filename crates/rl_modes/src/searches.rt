//! Places in sorted lists, found by halving, and inserts in room that is there.
ghost use Rattle.std.specs.Prelude.{◌≡◌, ℕ, ◌+◌, ◌<◌, ◌≤◌, Some, nat_lt, insert, option_copied, slice_get, vec_len, vec_capacity};
ghost use Rattle.cf_ids.specs.declared.limits.TheConstants.{MODES};
ghost use Rattle.std.specs.List.Sorted.{IsPartitionedBy};
ghost use Rattle.rl_base.specs.Modes.{rank};
ghost use Rattle.rl_modes.specs.Fields.{IsCut, IsRange, sits_before, is_seat, place_if};

use crate::holdings::Seat;
use cf_ids::{Item, ObjId};
use rl_base::Place;

// Where a place stands in the order of places.
pub fn place_rank(place: &Place) -> u16
    ensures rank { result ≡ rank place.now }
    ensures limit { result ≤ MODES }
{
    match place {
        Place::Common => 0,
        Place::Mode(mode) => mode.0 + 1,
    }
}

// Where the places of this rank and higher ones begin.
fn first_place(places: &[Place], least: u16) -> usize
    requires { IsPartitionedBy (λ p. nat_lt (rank p) least) places.now }
    ensures { IsCut (λ p. nat_lt (rank p) least) places.now result }
{
    places.partition_point(|place| place_rank(place) < least)
}

// Where the holdings of a place begin and end.
pub fn range_of(places: &[Place], place: &Place) -> (usize, usize)
    requires { (least : ℕ) → IsPartitionedBy (λ p. nat_lt (rank p) least) places.now }
    ensures { IsRange (rank place.now) places.now result.0 result.1 }
{
    let rank = place_rank(place);
    (first_place(places, rank), first_place(places, rank + 1))
}

// Where the items of this number and higher ones begin.
pub fn first_item(items: &[Item], least: ObjId) -> usize
    requires { IsPartitionedBy (λ i. nat_lt i.id least) items.now }
    ensures { IsCut (λ i. nat_lt i.id least) items.now result }
{
    items.partition_point(|item| item.id.0 < least.0)
}

// Where the seat of an item in a place is, or would be.
pub fn seat_of(seats: &[Seat], item: ObjId, place: &Place) -> usize
    requires { IsPartitionedBy (sits_before item place.now) seats.now }
    ensures cut { IsCut (sits_before item place.now) seats.now result }
    ensures limit { rank place.now ≤ MODES }
{
    let rank = place_rank(place);
    seats.partition_point(|seat| {
        seat.item.0 < item.0 || seat.item.0 == item.0 && place_rank(&seat.place) < rank
    })
}

// The seat at a place of the list.
pub fn seat_at(seats: &[Seat], at: usize) -> Option<&Seat>
    ensures { option_copied result ≡ slice_get seats.now at }
{
    seats.get(at)
}

// The place of a seat, if it is one of this item.
pub fn place_if(seat: &Seat, item: ObjId) -> Option<Place>
    ensures { result ≡ place_if item (Some seat.now) }
{
    if seat.item.0 == item.0 {
        Some(seat.place)
    } else {
        None
    }
}

// Whether a seat is that of an item in a place.
pub fn is_seat(seat: &Seat, item: ObjId, place: &Place) -> bool
    ensures { result ≡ is_seat item place.now seat.now }
{
    seat.item.0 == item.0 && place_rank(&seat.place) == place_rank(place)
}

// Puts an element before the one at `at`, if the capacity has a place for it.
pub fn put_at<T>(v: &mut Vec<T>, at: usize, x: T)
    requires in_bounds { at ≤ vec_len v.old }
    requires room { vec_len v.old < vec_capacity v.old }
    ensures items { v.new.items ≡ insert v.old.items at x }
    ensures len { vec_len v.new ≡ vec_len v.old + 1 }
    ensures capacity { vec_capacity v.new ≡ vec_capacity v.old }
{
    v.push_reserved(x);
    v[at..].rotate_right(1);
}
