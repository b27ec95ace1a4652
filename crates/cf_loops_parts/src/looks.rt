//! What loops tell that hold three items.
use crate::items::{COMMON, FIRST, OBSERVER, SECOND, SOURCE, THREADS, TIMER, add, place};
use cf_ids::{Item, ModeId, ObjId, ThreadId};
use cf_loops::{Loops, NoMemory};
use std::alloc::Global;
use std::test::Fail;

// A source among the common items of the first thread, and a timer and an observer in its mode 4.
fn held(alloc: Global) -> Result<Loops, NoMemory> {
    let mut loops = Loops::new(alloc, THREADS)?;
    add(&mut loops, FIRST, 4, &OBSERVER)?;
    add(&mut loops, FIRST, COMMON, &SOURCE)?;
    add(&mut loops, FIRST, 4, &TIMER)?;
    Ok(loops)
}

#[derive(Clone, Copy)]
enum Look {
    Threads,
    Holds(ThreadId, ModeId, ObjId),
    Has(ThreadId, u16, ObjId),
    Items(ThreadId, ModeId),
    CommonItems(ThreadId),
    IsCommon(ThreadId, ModeId),
    Places(ThreadId, ObjId),
    IsElsewhere(ThreadId, ObjId),
}

/// The number of the last of some items, and 0 if there is none.
fn last(items: &[Item]) -> usize {
    items.last().map_or(0, |item| item.id.0 as usize)
}

/// What a look tells, as a number: 1 if it is so, and of items the number of the last.
fn told(loops: &Loops, look: &Look) -> usize {
    match look {
        Look::Threads => loops.threads(),
        Look::Holds(t, m, i) => usize::from(loops.holds(*t, *m, *i)),
        Look::Has(t, at, i) => usize::from(loops.has(*t, &place(*at), *i)),
        Look::Items(t, m) => last(loops.items(*t, *m)),
        Look::CommonItems(t) => last(loops.common_items(*t)),
        Look::IsCommon(t, m) => usize::from(loops.is_common(*t, *m)),
        Look::Places(t, i) => loops.places(*t, *i),
        Look::IsElsewhere(t, i) => usize::from(loops.is_elsewhere(*t, *i)),
    }
}

const NO_THREAD: ThreadId = ThreadId(7);

const LOOKS: [(&str, Look, usize); 16] = [
    ("threads", Look::Threads, 3),
    ("a mode", Look::Holds(FIRST, ModeId(4), ObjId(9)), 1),
    ("another mode", Look::Holds(FIRST, ModeId(3), ObjId(9)), 0),
    ("no thread", Look::Holds(NO_THREAD, ModeId(4), ObjId(9)), 0),
    ("a common item", Look::Has(FIRST, COMMON, ObjId(8)), 1),
    ("no common item", Look::Has(FIRST, COMMON, ObjId(9)), 0),
    (
        "the items of a mode, by number",
        Look::Items(FIRST, ModeId(4)),
        10,
    ),
    ("the items of `default`", Look::Items(FIRST, ModeId(0)), 8),
    ("common items", Look::CommonItems(FIRST), 8),
    ("those of another thread", Look::CommonItems(SECOND), 0),
    ("`default` is common", Look::IsCommon(SECOND, ModeId(0)), 1),
    ("no other mode is", Look::IsCommon(FIRST, ModeId(4)), 0),
    ("places of the source", Look::Places(FIRST, ObjId(8)), 2),
    ("places in another loop", Look::Places(SECOND, ObjId(8)), 0),
    ("another loop", Look::IsElsewhere(SECOND, ObjId(9)), 1),
    ("the own loop alone", Look::IsElsewhere(FIRST, ObjId(9)), 0),
];

#[test]
fn looks(rt: HostRuntime) -> Result<(), Fail> {
    let loops = held(rt.alloc())?;
    for (case, look, wanted) in &LOOKS {
        assert_eq!(rt; told(&loops, look), *wanted, "{case}");
    }
    Ok(())
}
