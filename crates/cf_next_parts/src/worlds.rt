//! The facts of each world of the tests.
use crate::table::{ItemFacts, ReceiverFacts, Table};
use cf_ids::{HandlerId, ModeId, ObjId};

/// A world: the usual one at the time 5, or one that differs in one thing.
#[derive(Clone, Copy)]
pub(crate) enum World {
    Usual,
    /// The time is 4.
    Earlier,
    /// Source 2 is not valid.
    Invalid,
    /// Source 2 is not signalled.
    Quiet,
    /// Source 2 is in mode 2.
    Elsewhere,
    /// Observer 1 is called once, by handler 1 with the info 4.
    Once,
    /// Observer 4 is called again and again, by handler 0 with the info 0.
    Again,
}

fn item(mode: u16, handler: u16, info: Option<ObjId>) -> ItemFacts {
    ItemFacts {
        mode: ModeId(mode % 1024),
        valid: true,
        signalled: true,
        date: None,
        repeats: false,
        handler: HandlerId(handler % 1024),
        info,
    }
}

/// Object 0 is no item, 1 is an observer of mode 1 with handler 0 and the info 0, 2 and 5 are sources of mode 1, 3 is
/// a timer of mode 2 with the date 5, and 4 is an observer of mode 2 that is called once. All but the first have
/// handler 1.
fn items() -> [ItemFacts; 6] {
    let mut items = [item(1, 1, None); 6];
    items[0].mode = ModeId(9);
    items[1] = item(1, 0, Some(ObjId(0)));
    items[1].repeats = true;
    items[3] = item(2, 1, None);
    items[3].date = Some(5);
    items[4] = item(2, 1, None);
    items
}

fn receiver(there: bool, handler: HandlerId, observer: ObjId) -> ReceiverFacts {
    ReceiverFacts {
        there,
        handler,
        observer,
    }
}

/// Registrations 0 and 2 are there.
fn receivers() -> [ReceiverFacts; 3] {
    [
        receiver(true, HandlerId(0), ObjId(4)),
        receiver(false, HandlerId(1), ObjId(3)),
        receiver(true, HandlerId(1), ObjId(1)),
    ]
}

/// The usual facts.
fn usual() -> Table {
    Table {
        time: 5,
        empty: false,
        items: items(),
        receivers: receivers(),
        parcel: [Some(ObjId(0)), None],
        body: ObjId(4),
        slots: [Some(ObjId(0)), Some(ObjId(5)), None],
    }
}

/// The facts of a world.
pub(crate) fn table(world: World) -> Table {
    let mut facts = usual();
    match world {
        World::Usual => {}
        World::Earlier => facts.time = 4,
        World::Invalid => facts.items[2].valid = false,
        World::Quiet => facts.items[2].signalled = false,
        World::Elsewhere => facts.items[2].mode = ModeId(2),
        World::Once => facts.items[1] = item(1, 1, Some(ObjId(4))),
        World::Again => {
            facts.items[4] = item(2, 0, Some(ObjId(0)));
            facts.items[4].repeats = true;
        }
    }
    facts
}
