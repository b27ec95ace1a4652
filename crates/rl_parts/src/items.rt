//! Items of run loops by number.
use cf_ids::{Item, ItemKind, ObjId};

/// The object of this number.
pub fn object(number: u16) -> ObjId {
    ObjId(u32::from(number))
}

/// Five items of these numbers.
pub fn items(kind: ItemKind, numbers: [u16; 5]) -> [Item; 5] {
    numbers.map(|number| Item {
        id: object(number),
        kind,
    })
}

/// The first five of these numbers, and zeros past their end.
pub fn numbers(objects: &[ObjId]) -> [u32; 5] {
    let at = |i: usize| objects.get(i).map_or(0, |object| object.0);
    [at(0), at(1), at(2), at(3), at(4)]
}
