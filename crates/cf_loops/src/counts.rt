//! How many places of one loop hold an item.
ghost use Rattle.std.specs.Prelude.{◌≡◌, ◌==◌, not, MatchOption, ◌^◌, ◌+◌, ◌-◌, ◌≤◌, ◌++◌, length, map, vec_len, vec_capacity};
ghost use Rattle.cf_ids.specs.declared.limits.TheConstants.{MODES};
ghost use Rattle.rl_base.specs.declared.places.Place.TheVariants.{Common};
ghost use Rattle.rl_modes.specs.Loops.{common_gained, holds_at, items_at};
ghost use Rattle.cf_loops.specs.Rooms.{most_added};
ghost use Rattle.cf_loops.specs.Changing.{dropped_in, is_shared, places_at, shared_places};

use cf_ids::{ModeId, ObjId};
use rl_base::Place;
use rl_modes::Modes;

/// How many places of a loop hold an item. It takes time that grows with them.
pub fn count_places(modes: &Modes, item: ObjId) -> usize
    ensures { result ≡ length (places_at item modes.now) }
{
    let mut k = 0;
    while modes.place(item, k).is_some() {
        k += 1;
    }
    k
}

/// The most that an item needs which is added to a place of a loop, as far as it can be counted.
pub fn most_added(modes: &Modes, place: &Place) -> Option<usize>
    ensures { MatchOption result (2 ^ 64 ≤ most_added place.now modes.now)
        (λ more. more ≡ most_added place.now modes.now) }
{
    match place {
        Place::Common => modes.common_modes().checked_add(1),
        Place::Mode(_) => Some(1),
    }
}

/// Whether a place of a loop holds an item.
pub fn is_held(modes: &Modes, item: ObjId) -> bool
    ensures { result ≡ not (length (places_at item modes.now) == 0) }
{
    modes.place(item, 0).is_some()
}

/// Whether a place is the common items or a common mode.
fn is_shared(modes: &Modes, place: &Place) -> bool
    ensures { result ≡ is_shared modes.now.common_modes place.now }
{
    match place {
        Place::Common => true,
        Place::Mode(mode) => modes.is_common(*mode),
    }
}

/// How many of the common items and the common modes hold an item. It takes time that grows with the places that hold
/// it.
pub fn count_shared(modes: &Modes, item: ObjId) -> usize
    ensures { result ≡ length (shared_places item modes.now) }
{
    let mut shared = 0;
    let mut k = 0;
    while let Some(place) = modes.place(item, k) {
        if is_shared(modes, &place) {
            shared += 1;
        }
        k += 1;
    }
    shared
}

/// How many of the common items and the common modes do not hold an item.
pub fn count_added(modes: &Modes, item: ObjId) -> usize
    ensures { length modes.now.common_modes ≤ MODES
        → result ≡ 1 + length modes.now.common_modes - length (shared_places item modes.now) }
{
    let all = modes.common_modes().saturating_add(1);
    all.saturating_sub(count_shared(modes, item))
}

/// Whether the common items hold an item.
pub fn is_common_item(modes: &Modes, item: ObjId) -> bool
    ensures { result ≡ holds_at modes.now.held item Common }
{
    match modes.place(item, 0) {
        Some(Place::Common) => true,
        Some(Place::Mode(_)) | None => false,
    }
}

/// Whether a place holds an item.
pub fn holds(modes: &Modes, place: &Place, item: ObjId) -> bool
    ensures { result ≡ holds_at modes.now.held item place.now }
{
    match place {
        Place::Common => is_common_item(modes, item),
        Place::Mode(mode) => modes.holds(*mode, item),
    }
}

/// How many of the places of a loop an item leaves which is dropped from one of them.
pub fn count_dropped(modes: &Modes, place: &Place, item: ObjId) -> usize
    ensures { result ≡ dropped_in item place.now modes.now }
{
    if !holds(modes, place, item) {
        return 0;
    }
    match place {
        Place::Common => count_shared(modes, item),
        Place::Mode(_) => 1,
    }
}

/// Appends the common items that a mode does not hold.
pub fn push_gained(modes: &Modes, mode: ModeId, numbers: &mut Vec<ObjId>)
    requires { vec_len numbers.old + length (items_at Common modes.now.held) ≤ vec_capacity numbers.old }
    ensures gained { numbers.new.items ≡ numbers.old.items ++ map (λ i. i.id) (common_gained mode modes.now.held) }
    ensures room { vec_capacity numbers.new ≡ vec_capacity numbers.old }
{
    for item in modes.common_items() {
        if !modes.holds(mode, item.id) {
            numbers.push_reserved(item.id);
        }
    }
}
