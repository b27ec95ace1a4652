//! What is told of items: their handlers, and the slot that each gives up.
use crate::sample::{fill, object};
use cf_ids::ObjId;
use cf_store::Store;
use std::test::Fail;

/// The handler of an object, by its number.
fn handler(store: &Store, o: ObjId) -> Option<u16> {
    match store.handler(o) {
        Some(handler) => Some(handler.0),
        None => None,
    }
}

/// Finalises an object, if it is live.
fn retire(store: &mut Store, o: ObjId) {
    if store.is_live(o) {
        store.retire(o);
    }
}

/// The place of the slot that an object gives up, and the number of the object there.
fn give_up(store: &mut Store, o: ObjId) -> Option<(u32, u32)> {
    if store.is_live(o) {
        return None;
    }
    match store.drop_slot(o) {
        Some((place, slot)) => Some((place, slot.0)),
        None => None,
    }
}

/// The handler of an object, and what it gives up after it was finalised.
fn told(store: &mut Store, o: ObjId) -> (Option<u16>, [Option<(u32, u32)>; 2]) {
    let handler = handler(store, o);
    retire(store, o);
    let first = give_up(store, o);
    (handler, [first, give_up(store, o)])
}

// An object, its handler, and what it gives up.
const CASES: [(u16, Option<u16>, [Option<(u32, u32)>; 2]); 5] = [
    (0, None, [None, None]),
    (1, Some(7), [Some((0, 0)), None]),
    (2, Some(8), [None, None]),
    (3, Some(7), [None, None]),
    (4, None, [None, None]),
];

#[test]
fn told_of_items(rt: HostRuntime) -> Result<(), Fail> {
    let alloc = rt.alloc();
    let mut store = Store::new(alloc);
    fill(alloc, &mut store)?;
    for (number, handler, slots) in &CASES {
        let got = told(&mut store, object(*number));
        assert_eq!(rt; got, (*handler, *slots), "object {number}");
    }
    Ok(())
}
