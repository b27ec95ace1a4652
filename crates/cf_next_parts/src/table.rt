//! A table of facts, in place of a world.
ghost use Rattle.std.specs.Prelude.{◌≡◌};

use cf_ids::{HandlerId, ModeId, ObjId, ThreadId};
use cf_next::Facts;

/// What is known of an item.
#[derive(Clone, Copy)]
pub struct ItemFacts {
    /// The mode that holds it, in each thread's loop.
    pub mode: ModeId,
    pub valid: bool,
    pub signalled: bool,
    pub date: Option<u64>,
    pub repeats: bool,
    pub handler: HandlerId,
    pub info: Option<ObjId>,
}

/// What is known of a registration.
#[derive(Clone, Copy)]
pub struct ReceiverFacts {
    pub there: bool,
    pub handler: HandlerId,
    pub observer: ObjId,
}

/// The facts: items by number, registrations by number, what each thread's parcel has by place, and the slots of one
/// body by place.
#[derive(Clone, Copy)]
pub struct Table {
    pub time: u64,
    pub empty: bool,
    pub items: [ItemFacts; 6],
    pub receivers: [ReceiverFacts; 3],
    pub parcel: [Option<ObjId>; 2],
    pub body: ObjId,
    pub slots: [Option<ObjId>; 3],
}

impl Facts for Table {
    ghost use Rattle.cf_next_parts.specs.Tables.{facts_of};

    ghost known = { facts_of };

    fn time(&self) -> u64 {
        self.time
    }

    fn holds(&self, _t: ThreadId, m: ModeId, i: ObjId) -> bool {
        match self.items.get(i.0 as usize) {
            Some(item) => item.mode.0 == m.0,
            None => false,
        }
    }

    fn is_empty(&self, _t: ThreadId, _m: ModeId) -> bool {
        self.empty
    }

    fn is_valid(&self, i: ObjId) -> bool {
        match self.items.get(i.0 as usize) {
            Some(item) => item.valid,
            None => false,
        }
    }

    fn is_signalled(&self, s: ObjId) -> bool {
        match self.items.get(s.0 as usize) {
            Some(item) => item.signalled,
            None => false,
        }
    }

    fn next_date(&self, t: ObjId) -> Option<u64> {
        match self.items.get(t.0 as usize) {
            Some(item) => item.date,
            None => None,
        }
    }

    fn repeats(&self, o: ObjId) -> bool {
        match self.items.get(o.0 as usize) {
            Some(item) => item.repeats,
            None => false,
        }
    }

    fn callout(&self, i: ObjId) -> Option<(HandlerId, Option<ObjId>)> {
        match self.items.get(i.0 as usize) {
            Some(item) => Some((item.handler, item.info)),
            None => None,
        }
    }

    fn receiver(&self, r: u32) -> Option<(HandlerId, ObjId)> {
        match self.receivers.get(r as usize) {
            Some(receiver) => {
                if receiver.there {
                    Some((receiver.handler, receiver.observer))
                } else {
                    None
                }
            }
            None => None,
        }
    }

    fn parcel(&self, _t: ThreadId, k: usize) -> Option<ObjId> {
        match self.parcel.get(k) {
            Some(object) => *object,
            None => None,
        }
    }

    fn slot(&self, b: ObjId, k: usize) -> Option<ObjId> {
        if b.0 != self.body.0 {
            return None;
        }
        match self.slots.get(k) {
            Some(object) => *object,
            None => None,
        }
    }
}
