//! Counts step by step: a byte, and an external number in a table.
ghost use Rattle.std.specs.Prelude.{◌<◌, length};

use cf_count::{ROLLED, Released, Retained, after_release, after_retain, composite, unrolled};
use cf_extern::{Extern, NoMemory};
use cf_ids::ObjId;
use std::alloc::Global;
use std::test::Fail;

// The object that is counted, in a table of four objects.
const OBJECT: ObjId = ObjId(3);

// External numbers are below it.
const MOST: u64 = 281_474_976_710_656;

// The count of the object: its byte, and the table with its external number.
#[derive(Drop)]
struct Counted {
    byte: u8,
    table: Extern,
    ghost room: { 3 < length table },
}

impl Counted {
    /// The count of an object that is made.
    fn new(alloc: Global) -> Result<Counted, NoMemory> {
        let table = Extern::new(alloc, 4)?;
        Ok(Counted { byte: 1, table })
    }

    /// The external number.
    fn external(&self) -> u64 {
        self.table.of(OBJECT)
    }

    /// The composite count.
    fn count(&self) -> u128 {
        composite(self.byte, self.external())
    }

    /// Retains the object.
    fn retain(&mut self) {
        match after_retain(self.byte) {
            Retained::Inline(byte) => self.byte = byte,
            Retained::Roll => {
                if self.table.of(OBJECT) < MOST {
                    self.table.add_one(OBJECT);
                    self.byte = ROLLED;
                }
            }
        }
    }

    /// Releases the object, and tells whether it was the last reference. A byte of 0 stays.
    fn release(&mut self) -> bool {
        if self.byte == 0 {
            return false;
        }
        match after_release(self.byte) {
            Released::Inline(byte) => self.byte = byte,
            Released::Unroll => {
                if self.table.of(OBJECT) > 0 {
                    self.byte = unrolled(self.table.take_one(OBJECT));
                }
            }
            Released::Last => {
                self.byte = 0;
                return true;
            }
        }
        false
    }

    /// Does some steps, and tells whether one of them was the last release.
    fn step(&mut self, steps: Steps) -> bool {
        let mut last = false;
        match steps {
            Steps::Retain(times) => {
                for _ in 0..times {
                    self.retain();
                }
            }
            Steps::Release(times) => {
                for _ in 0..times {
                    last = self.release();
                }
            }
        }
        last
    }
}

#[derive(Clone, Copy)]
enum Steps {
    Retain(u16),
    Release(u16),
}

// Steps one after another, from an object that is made, and the byte, the external number and the composite count
// after them.
const COUNT_CASES: [(&str, Steps, u8, u64, u128); 13] = [
    ("made", Steps::Retain(0), 1, 0, 1),
    ("126 retains", Steps::Retain(126), 0x7F, 0, 127),
    ("one more rolls", Steps::Retain(1), 0xC0, 1, 128),
    ("64 releases", Steps::Release(64), 0x80, 1, 64),
    (
        "one more unrolls, and none is left",
        Steps::Release(1),
        63,
        0,
        63,
    ),
    ("62 more", Steps::Release(62), 1, 0, 1),
    (
        "126 retains and a roll, and 63 retains",
        Steps::Retain(190),
        0xFF,
        1,
        191,
    ),
    ("a second roll", Steps::Retain(1), 0xC0, 2, 192),
    ("64 releases of two", Steps::Release(64), 0x80, 2, 128),
    ("an unroll that leaves one", Steps::Release(1), 0xBF, 1, 127),
    ("63 releases", Steps::Release(63), 0x80, 1, 64),
    ("down to one", Steps::Release(63), 1, 0, 1),
    ("the last", Steps::Release(1), 0, 0, 0),
];

#[test]
fn worked_counts(rt: HostRuntime) -> Result<(), Fail> {
    let mut counted = Counted::new(rt.alloc())?;
    assert_eq!(rt; counted.external(), 0, "no number in a new table");
    for (case, steps, byte, external, count) in COUNT_CASES {
        let last = counted.step(steps);
        assert_eq!(rt;
            (counted.byte, counted.external(), counted.count(), last),
            (byte, external, count, count == 0),
            "{case}"
        );
    }
    Ok(())
}

/// Whether the composite count is this one, and bit 7 is set exactly if an external number is left.
fn is_count(counted: &Counted, count: u16) -> bool {
    counted.count() == u128::from(count) && (counted.byte >= 0x80) == (counted.external() > 0)
}

#[test]
fn counts_up_and_down(rt: HostRuntime) -> Result<(), Fail> {
    let mut counted = Counted::new(rt.alloc())?;
    for count in 2..1001 {
        counted.retain();
        assert!(rt; is_count(&counted, count), "up to {count}");
    }
    for gone in 1..1001 {
        let last = counted.release();
        assert!(rt; is_count(&counted, 1000 - gone), "{gone} less than 1,000");
        assert_eq!(rt; last, gone == 1000, "the last one of 1,000 at {gone}");
    }
    Ok(())
}

#[test]
fn numbers_of_objects(rt: HostRuntime) -> Result<(), Fail> {
    let mut table = Extern::new(rt.alloc(), 4)?;
    table.add_one(OBJECT);
    table.add_one(ObjId(1));
    table.add_one(OBJECT);
    let left = table.take_one(OBJECT);
    let numbers = [
        table.of(ObjId(0)),
        table.of(ObjId(1)),
        table.of(ObjId(2)),
        table.of(OBJECT),
    ];
    assert_eq!(rt;
        (left, numbers),
        (1, [0, 1, 0, 1]),
        "each object has its own number"
    );
    Ok(())
}
