//! Sets, bags and heaps: each call on its happy path, and each refusal.
ghost use Rattle.std.specs.Prelude.{◌≡◌, ◌≤◌, ◌<◌};

use crate::coins::{ByKey, Coin, NOTHING, REFUSED, number, refused};
use cf_binheap::Heap;
use cf_callbacks::Steps;
use cf_set_bag::{Bag, BagAdd, BagRemove, Set};
use std::alloc::{AllocError, Global};
use std::marker::Brand;
use std::sync::ledger::{Blank, Ledger};
use std::test::Fail;

#[derive(Clone, Copy)]
enum MemberCall {
    Add(Coin),
    Set(Coin),
    Replace(Coin),
    Remove(u8),
    Find(u8),
    CountOf(u8),
}

fn call_set(set: &mut Set<Coin, ByKey>, call: &MemberCall) -> Result<u16, AllocError> {
    set.reserve(1)?;
    Ok(match *call {
        MemberCall::Add(coin) => match set.add(coin) {
            Ok(()) => NOTHING,
            Err(back) => refused(back),
        },
        MemberCall::Set(coin) => number(set.set(coin)),
        MemberCall::Replace(coin) => match set.replace(coin) {
            Ok(old) => number(Some(old)),
            Err(back) => refused(back),
        },
        MemberCall::Remove(key) => number(set.remove(&Coin { number: 0, key })),
        MemberCall::Find(key) => number(set.find(&Coin { number: 0, key }).copied()),
        MemberCall::CountOf(_) => NOTHING,
    })
}

fn set_numbers(set: &Set<Coin, ByKey>) -> (usize, [u16; 3]) {
    let at = |i: usize| number(set.at(i).copied());
    (set.count(), [at(0), at(1), at(2)])
}

// What an add of a bag did, and the number of the coin that came back.
fn added(answer: BagAdd<Coin>) -> (&'static str, u16) {
    match answer {
        BagAdd::First => ("first", NOTHING),
        BagAdd::More(back) => ("more", refused(back)),
        BagAdd::Full(back) => ("full", refused(back)),
    }
}

// What a removal from a bag did, and the number of the coin that came out.
fn removed(answer: BagRemove<Coin>) -> (&'static str, u16) {
    match answer {
        BagRemove::Absent => ("absent", NOTHING),
        BagRemove::Less => ("less", NOTHING),
        BagRemove::Gone(coin) => ("gone", number(Some(coin))),
    }
}

fn call_bag(
    bag: &mut Bag<Coin, ByKey>,
    call: &MemberCall,
) -> Result<(&'static str, u16), AllocError> {
    bag.reserve(1)?;
    Ok(match *call {
        MemberCall::Add(coin) => added(bag.add(coin)),
        MemberCall::Set(coin) => ("set", number(bag.set(coin))),
        MemberCall::Replace(coin) => match bag.replace(coin) {
            Ok(old) => ("replaced", number(Some(old))),
            Err(back) => ("absent", refused(back)),
        },
        MemberCall::Remove(key) => removed(bag.remove(&Coin { number: 0, key })),
        MemberCall::Find(key) => ("found", number(bag.find(&Coin { number: 0, key }).copied())),
        MemberCall::CountOf(key) => match bag.count_of(&Coin { number: 0, key }) {
            0 => ("none", NOTHING),
            1 => ("once", NOTHING),
            2 => ("twice", NOTHING),
            _ => ("often", NOTHING),
        },
    })
}

fn bag_numbers(bag: &Bag<Coin, ByKey>) -> (usize, [(u16, u32); 3]) {
    let at = |i: usize| match bag.at(i) {
        Some((coin, times)) => (u16::from(coin.number), times),
        None => (NOTHING, 0),
    };
    (bag.count(), [at(0), at(1), at(2)])
}

// What is done to a set, what comes of it, and the numbers that are left.
const SET_CASES: [(&str, MemberCall, u16, (usize, [u16; 3])); 12] = [
    (
        "added",
        MemberCall::Add(Coin { number: 1, key: 7 }),
        NOTHING,
        (1, [1, NOTHING, NOTHING]),
    ),
    (
        "added an equal one",
        MemberCall::Add(Coin { number: 2, key: 7 }),
        REFUSED + 2,
        (1, [1, NOTHING, NOTHING]),
    ),
    (
        "added after it",
        MemberCall::Add(Coin { number: 3, key: 8 }),
        NOTHING,
        (2, [1, 3, NOTHING]),
    ),
    (
        "set a new one",
        MemberCall::Set(Coin { number: 4, key: 1 }),
        NOTHING,
        (3, [1, 3, 4]),
    ),
    (
        "set in place",
        MemberCall::Set(Coin { number: 5, key: 8 }),
        3,
        (3, [1, 5, 4]),
    ),
    (
        "replaced",
        MemberCall::Replace(Coin { number: 6, key: 7 }),
        1,
        (3, [6, 5, 4]),
    ),
    (
        "replaced nothing",
        MemberCall::Replace(Coin { number: 7, key: 9 }),
        REFUSED + 7,
        (3, [6, 5, 4]),
    ),
    ("found", MemberCall::Find(8), 5, (3, [6, 5, 4])),
    ("not found", MemberCall::Find(9), NOTHING, (3, [6, 5, 4])),
    (
        "the first removed",
        MemberCall::Remove(7),
        6,
        (2, [5, 4, NOTHING]),
    ),
    (
        "removed nothing",
        MemberCall::Remove(7),
        NOTHING,
        (2, [5, 4, NOTHING]),
    ),
    (
        "added again, at the end",
        MemberCall::Add(Coin { number: 8, key: 7 }),
        NOTHING,
        (3, [5, 4, 8]),
    ),
];

// The same of a bag, with how often each member is there.
const BAG_CASES: [(&str, MemberCall, (&str, u16), (usize, [(u16, u32); 3])); 14] = [
    (
        "added",
        MemberCall::Add(Coin { number: 1, key: 7 }),
        ("first", NOTHING),
        (1, [(1, 1), (NOTHING, 0), (NOTHING, 0)]),
    ),
    (
        "added an equal one",
        MemberCall::Add(Coin { number: 2, key: 7 }),
        ("more", REFUSED + 2),
        (1, [(1, 2), (NOTHING, 0), (NOTHING, 0)]),
    ),
    (
        "added after it",
        MemberCall::Add(Coin { number: 3, key: 8 }),
        ("first", NOTHING),
        (2, [(1, 2), (3, 1), (NOTHING, 0)]),
    ),
    (
        "counted",
        MemberCall::CountOf(7),
        ("twice", NOTHING),
        (2, [(1, 2), (3, 1), (NOTHING, 0)]),
    ),
    (
        "counted none",
        MemberCall::CountOf(9),
        ("none", NOTHING),
        (2, [(1, 2), (3, 1), (NOTHING, 0)]),
    ),
    (
        "set in place",
        MemberCall::Set(Coin { number: 4, key: 7 }),
        ("set", 1),
        (2, [(4, 2), (3, 1), (NOTHING, 0)]),
    ),
    (
        "set a new one",
        MemberCall::Set(Coin { number: 5, key: 1 }),
        ("set", NOTHING),
        (3, [(4, 2), (3, 1), (5, 1)]),
    ),
    (
        "replaced",
        MemberCall::Replace(Coin { number: 6, key: 7 }),
        ("replaced", 4),
        (3, [(6, 2), (3, 1), (5, 1)]),
    ),
    (
        "replaced nothing",
        MemberCall::Replace(Coin { number: 7, key: 9 }),
        ("absent", REFUSED + 7),
        (3, [(6, 2), (3, 1), (5, 1)]),
    ),
    (
        "found",
        MemberCall::Find(8),
        ("found", 3),
        (3, [(6, 2), (3, 1), (5, 1)]),
    ),
    (
        "removed one of two",
        MemberCall::Remove(7),
        ("less", NOTHING),
        (3, [(6, 1), (3, 1), (5, 1)]),
    ),
    (
        "removed the last of them",
        MemberCall::Remove(7),
        ("gone", 6),
        (2, [(3, 1), (5, 1), (NOTHING, 0)]),
    ),
    (
        "removed nothing",
        MemberCall::Remove(7),
        ("absent", NOTHING),
        (2, [(3, 1), (5, 1), (NOTHING, 0)]),
    ),
    (
        "counted once",
        MemberCall::CountOf(1),
        ("once", NOTHING),
        (2, [(3, 1), (5, 1), (NOTHING, 0)]),
    ),
];

#[test]
fn sets(rt: HostRuntime) -> Result<(), Fail> {
    let mut set = Set::new(rt.alloc(), ByKey);
    set.reserve(0)?;
    for (message, call, answer, left) in &SET_CASES {
        let got = call_set(&mut set, call)?;
        assert_eq!(rt; (got, set_numbers(&set)), (*answer, *left), "{message}");
    }
    Ok(())
}

#[test]
fn bags(rt: HostRuntime) -> Result<(), Fail> {
    let mut bag = Bag::new(rt.alloc(), ByKey);
    bag.reserve(0)?;
    for (message, call, answer, left) in &BAG_CASES {
        let got = call_bag(&mut bag, call)?;
        assert_eq!(rt; (got, bag_numbers(&bag)), (*answer, *left), "{message}");
    }
    Ok(())
}

// Three coins of the values 2, 1 and 1, in that order.
fn three<L: Ledger>(alloc: Global, steps: &mut Steps<L>) -> Result<Heap<Coin, ByKey>, AllocError> {
    let mut heap = Heap::new(alloc, ByKey);
    heap.reserve(0)?;
    heap.reserve(3)?;
    heap.add(Coin { number: 1, key: 2 }, steps);
    heap.add(Coin { number: 2, key: 1 }, steps);
    heap.add(Coin { number: 3, key: 1 }, steps);
    Ok(heap)
}

/// The numbers at the first four places of a heap.
fn places(heap: &Heap<Coin, ByKey>) -> [u16; 4] {
    let at = |i: usize| number(heap.at(i).copied());
    [at(0), at(1), at(2), at(3)]
}

/// The numbers of the coins that go out of a heap, four times.
fn gone<L: Ledger>(heap: &mut Heap<Coin, ByKey>, steps: &mut Steps<L>) -> [u16; 4] {
    let mut gone = [NOTHING; 4];
    for place in 0..4 {
        gone[place] = number(heap.remove_minimum(steps));
    }
    gone
}

// The least coin, the places once they are sorted, what goes out then, and how many are left.
type Order = (u16, [u16; 4], [u16; 4], usize);

fn small_order<L: Ledger>(alloc: Global, blank: Blank) -> Result<Order, AllocError>
    requires name { blank.name ≡ L.name }
    requires parts { blank.parts ≡ L.parts }
    requires some { 0 < blank.parts }
{
    let mut steps = Steps::<L>::new(blank);
    let mut heap = three(alloc, &mut steps)?;
    let first = number(heap.minimum().copied());
    heap.sort(&mut steps);
    let sorted = places(&heap);
    let gone = gone(&mut heap, &mut steps);
    Ok((first, sorted, gone, heap.count()))
}

fn small(alloc: Global) -> Result<Order, AllocError> {
    small_order::<Brand>(alloc, Blank::new(1))
}

// A thousand coins, four of each of 250 values. Of equal ones the later has the higher number.
fn thousand<L: Ledger>(
    alloc: Global,
    steps: &mut Steps<L>,
) -> Result<Heap<Coin, ByKey>, AllocError> {
    let mut heap = Heap::new(alloc, ByKey);
    heap.reserve(1000)?;
    for i in 0..1000u32 {
        let coin = Coin {
            number: (i / 4) as u8,
            key: (i * 617 % 1000 / 4) as u8,
        };
        heap.add(coin, steps);
    }
    Ok(heap)
}

/// Whether a coin goes out at this place as it should: by value, and of equal ones by number.
fn comes_next(place: usize, last: Option<Coin>, next: Option<Coin>) -> bool {
    let Some(coin) = next else {
        return false;
    };
    usize::from(coin.key) == place / 4
        && last.is_none_or(|last| last.key < coin.key || last.number < coin.number)
}

fn large_order<L: Ledger>(alloc: Global, blank: Blank) -> Result<bool, AllocError>
    requires name { blank.name ≡ L.name }
    requires parts { blank.parts ≡ L.parts }
    requires some { 0 < blank.parts }
{
    let mut steps = Steps::<L>::new(blank);
    let mut heap = thousand(alloc, &mut steps)?;
    let mut last = None;
    for place in 0..1000 {
        let next = heap.remove_minimum(&mut steps);
        if !comes_next(place, last, next) {
            return Ok(false);
        }
        last = next;
    }
    Ok(heap.count() == 0)
}

fn large(alloc: Global) -> Result<bool, AllocError> {
    large_order::<Brand>(alloc, Blank::new(1))
}

#[test]
fn heaps(rt: HostRuntime) -> Result<(), Fail> {
    let order = [2, 3, 1, NOTHING];
    assert_eq!(rt;
        (small(rt.alloc())?, large(rt.alloc())?),
        ((2, order, order, 0), true),
        "three coins, and a thousand"
    );
    Ok(())
}
