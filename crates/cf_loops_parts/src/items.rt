//! Items, places and threads, and loops in which they are.
ghost use Rattle.std.specs.Prelude.{◌<◌, length};

use cf_ids::{Item, ItemKind, ModeId, ObjId, ThreadId};
use cf_loops::{Loops, NoMemory};
use rl_base::Place;

pub const SOURCE: Item = Item {
    id: ObjId(8),
    kind: ItemKind::Source,
};

pub const TIMER: Item = Item {
    id: ObjId(9),
    kind: ItemKind::Timer,
};

pub const OBSERVER: Item = Item {
    id: ObjId(10),
    kind: ItemKind::Observer,
};

/// The threads of the loops, setup among them.
pub const THREADS: usize = 3;

pub const FIRST: ThreadId = ThreadId(1);

pub const SECOND: ThreadId = ThreadId(2);

/// Stands for the common items. Modes have numbers below it.
pub const COMMON: u16 = 1024;

/// Stands for no place.
pub const NONE: u16 = 1025;

/// A place of this number.
pub fn place(number: u16) -> Place {
    if number < COMMON {
        Place::Mode(ModeId(number))
    } else {
        Place::Common
    }
}

/// The number of a place.
pub fn number(place: &Place) -> u16 {
    match place {
        Place::Common => COMMON,
        Place::Mode(mode) => mode.0,
    }
}

/// The numbers of the first five places of a thread's loop that hold an item.
pub fn places(loops: &Loops, t: ThreadId, item: ObjId) -> [u16; 5] {
    let at = |k: usize| loops.place(t, item, k).map_or(NONE, |place| number(&place));
    [at(0), at(1), at(2), at(3), at(4)]
}

/// Adds an item to a place that does not hold it, and tells how many references it gets.
pub fn add(loops: &mut Loops, t: ThreadId, place: u16, item: &Item) -> Result<usize, NoMemory> {
    let place = self::place(place);
    let added = loops.added(t, &place, item.id);
    if (t.0 as usize) < loops.threads() {
        add_there(loops, t, &place, item)?;
    }
    Ok(added)
}

fn add_there(loops: &mut Loops, t: ThreadId, place: &Place, item: &Item) -> Result<(), NoMemory>
    requires { t < length loops.old }
{
    loops.reserve_add(t, place)?;
    if !loops.has(t, place, item.id) {
        loops.add(t, place, item);
    }
    Ok(())
}

/// Drops an item from a place, and tells how many references leave.
pub fn take(loops: &mut Loops, t: ThreadId, place: u16, item: ObjId) -> usize {
    let place = self::place(place);
    let dropped = loops.dropped(t, &place, item);
    if (t.0 as usize) < loops.threads() {
        loops.drop_from(t, &place, item);
    }
    dropped
}

/// Makes a mode a common one, and tells how many references it gets.
pub fn make_common(
    alloc: std::alloc::Global,
    loops: &mut Loops,
    t: ThreadId,
    mode: ModeId,
) -> Result<usize, NoMemory> {
    let mut gained = Vec::new(alloc);
    gained.reserve(loops.common_items(t).len())?;
    loops.gained(t, mode, &mut gained);
    if (t.0 as usize) < loops.threads() {
        loops.reserve_common(t)?;
        loops.make_common(t, mode);
    }
    Ok(gained.len())
}

/// Takes an item out of every place, and tells how many references leave.
pub fn leave(loops: &mut Loops, item: ObjId) -> usize {
    let places = if loops.threads() <= 64 {
        loops.everywhere(item)
    } else {
        0
    };
    loops.leave_all(item);
    places
}
