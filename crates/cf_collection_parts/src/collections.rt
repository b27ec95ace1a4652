//! Arrays, tables of rows and dictionaries: each call on its happy path, and each refusal.
use crate::coins::{ByKey, Coin, NOTHING, REFUSED, number, place, refused};
use cf_array::Array;
use cf_basichash::Rows;
use cf_dictionary::{Dict, DictSet};
use std::alloc::AllocError;
use std::test::Fail;

#[derive(Clone, Copy)]
enum ArrayCall {
    Append(Coin),
    Insert(usize, Coin),
    Set(usize, Coin),
    Remove(usize),
    IndexOf(u8),
}

fn call_array(array: &mut Array<Coin>, call: &ArrayCall) -> Result<u16, AllocError> {
    array.reserve(1)?;
    Ok(match *call {
        ArrayCall::Append(coin) => {
            array.append(coin);
            NOTHING
        }
        ArrayCall::Insert(i, coin) => match array.insert(i, coin) {
            Ok(()) => NOTHING,
            Err((_, back)) => refused(back),
        },
        ArrayCall::Set(i, coin) => match array.set(i, coin) {
            Ok(old) => number(old),
            Err((_, back)) => refused(back),
        },
        ArrayCall::Remove(i) => match array.remove(i) {
            Ok(coin) => number(Some(coin)),
            Err(_) => REFUSED,
        },
        ArrayCall::IndexOf(key) => place(array.index_of(&ByKey, &Coin { number: 0, key })),
    })
}

fn array_numbers(array: &Array<Coin>) -> (usize, [u16; 3]) {
    let at = |i: usize| number(array.get(i).copied());
    (array.length(), [at(0), at(1), at(2)])
}

#[derive(Clone, Copy)]
enum RowsCall {
    Add(Coin, u8),
    Find(u8),
    SwapValue(usize, u8),
    SwapKey(usize, Coin),
    Remove(usize),
}

fn call_rows(rows: &mut Rows<Coin, u8, ByKey>, call: &RowsCall) -> Result<u16, AllocError> {
    rows.reserve(1)?;
    Ok(match *call {
        RowsCall::Add(key, value) => match rows.add(key, value) {
            Ok(()) => NOTHING,
            Err((back, _)) => refused(back),
        },
        RowsCall::Find(key) => place(rows.find(&Coin { number: 0, key })),
        RowsCall::SwapValue(i, value) => {
            if i < rows.count() {
                u16::from(rows.swap_value(i, value))
            } else {
                REFUSED
            }
        }
        RowsCall::SwapKey(i, key) => swap_key(rows, i, key),
        RowsCall::Remove(i) => number(rows.remove(i).map(|row| row.0)),
    })
}

fn swap_key(rows: &mut Rows<Coin, u8, ByKey>, i: usize, key: Coin) -> u16 {
    match rows.row(i) {
        Some((old, _)) if old.key == key.key => {}
        _ => return REFUSED,
    }
    number(Some(rows.swap_key(i, key)))
}

fn row_numbers(rows: &Rows<Coin, u8, ByKey>) -> (usize, [(u16, u8); 2]) {
    let at = |i: usize| match rows.row(i) {
        Some((key, value)) => (u16::from(key.number), *value),
        None => (NOTHING, 0),
    };
    (rows.count(), [at(0), at(1)])
}

#[derive(Clone, Copy)]
enum DictCall {
    Add(Coin, Coin),
    Set(Coin, Coin),
    Replace(u8, Coin),
    Remove(u8),
    Get(u8),
}

fn call_dict(dict: &mut Dict<Coin, ByKey>, call: &DictCall) -> Result<u16, AllocError> {
    dict.reserve(1)?;
    Ok(match *call {
        DictCall::Add(key, value) => match dict.add(key, value) {
            Ok(()) => NOTHING,
            Err((back, _)) => refused(back),
        },
        DictCall::Set(key, value) => match dict.set(key, value) {
            DictSet::Added => NOTHING,
            DictSet::Changed { key, old } => 100 * u16::from(key.number) + u16::from(old.number),
        },
        DictCall::Replace(key, value) => match dict.replace(&Coin { number: 0, key }, value) {
            Ok(old) => number(Some(old)),
            Err(back) => refused(back),
        },
        DictCall::Remove(key) => number(dict.remove(&Coin { number: 0, key }).map(|pair| pair.0)),
        DictCall::Get(key) => number(dict.get(&Coin { number: 0, key }).copied()),
    })
}

fn dict_numbers(dict: &Dict<Coin, ByKey>) -> (usize, [(u16, u16); 2]) {
    let at = |i: usize| match dict.row(i) {
        Some((key, value)) => (u16::from(key.number), u16::from(value.number)),
        None => (NOTHING, NOTHING),
    };
    (dict.count(), [at(0), at(1)])
}

// What is done to an array, what comes of it, and the numbers that are left.
const ARRAY_CASES: [(&str, ArrayCall, u16, (usize, [u16; 3])); 10] = [
    (
        "appended",
        ArrayCall::Append(Coin { number: 1, key: 7 }),
        NOTHING,
        (1, [1, NOTHING, NOTHING]),
    ),
    (
        "inserted at the front",
        ArrayCall::Insert(0, Coin { number: 2, key: 8 }),
        NOTHING,
        (2, [2, 1, NOTHING]),
    ),
    (
        "inserted past the end",
        ArrayCall::Insert(3, Coin { number: 3, key: 7 }),
        REFUSED + 3,
        (2, [2, 1, NOTHING]),
    ),
    (
        "set at the end",
        ArrayCall::Set(2, Coin { number: 3, key: 7 }),
        NOTHING,
        (3, [2, 1, 3]),
    ),
    (
        "set in place",
        ArrayCall::Set(0, Coin { number: 4, key: 8 }),
        2,
        (3, [4, 1, 3]),
    ),
    (
        "set past the end",
        ArrayCall::Set(4, Coin { number: 5, key: 8 }),
        REFUSED + 5,
        (3, [4, 1, 3]),
    ),
    (
        "the first equal one",
        ArrayCall::IndexOf(7),
        1,
        (3, [4, 1, 3]),
    ),
    (
        "no equal one",
        ArrayCall::IndexOf(9),
        NOTHING,
        (3, [4, 1, 3]),
    ),
    ("removed", ArrayCall::Remove(0), 4, (2, [1, 3, NOTHING])),
    (
        "removed past the end",
        ArrayCall::Remove(2),
        REFUSED,
        (2, [1, 3, NOTHING]),
    ),
];

// The same of a table of rows.
const ROWS_CASES: [(&str, RowsCall, u16, (usize, [(u16, u8); 2])); 9] = [
    (
        "added",
        RowsCall::Add(Coin { number: 1, key: 7 }, 11),
        NOTHING,
        (1, [(1, 11), (NOTHING, 0)]),
    ),
    (
        "added an equal key",
        RowsCall::Add(Coin { number: 2, key: 7 }, 12),
        REFUSED + 2,
        (1, [(1, 11), (NOTHING, 0)]),
    ),
    (
        "added behind",
        RowsCall::Add(Coin { number: 3, key: 8 }, 13),
        NOTHING,
        (2, [(1, 11), (3, 13)]),
    ),
    ("found", RowsCall::Find(8), 1, (2, [(1, 11), (3, 13)])),
    (
        "not found",
        RowsCall::Find(9),
        NOTHING,
        (2, [(1, 11), (3, 13)]),
    ),
    (
        "a value swapped",
        RowsCall::SwapValue(1, 14),
        13,
        (2, [(1, 11), (3, 14)]),
    ),
    (
        "a key swapped",
        RowsCall::SwapKey(0, Coin { number: 4, key: 7 }),
        1,
        (2, [(4, 11), (3, 14)]),
    ),
    (
        "removed",
        RowsCall::Remove(0),
        4,
        (1, [(3, 14), (NOTHING, 0)]),
    ),
    (
        "removed past the end",
        RowsCall::Remove(1),
        NOTHING,
        (1, [(3, 14), (NOTHING, 0)]),
    ),
];

// The same of a dictionary.
const DICT_CASES: [(&str, DictCall, u16, (usize, [(u16, u16); 2])); 10] = [
    (
        "set a new key",
        DictCall::Set(Coin { number: 1, key: 7 }, Coin { number: 11, key: 0 }),
        NOTHING,
        (1, [(1, 11), (NOTHING, NOTHING)]),
    ),
    (
        "the key that stands stays",
        DictCall::Set(Coin { number: 2, key: 7 }, Coin { number: 12, key: 0 }),
        211,
        (1, [(1, 12), (NOTHING, NOTHING)]),
    ),
    (
        "added an equal key",
        DictCall::Add(Coin { number: 3, key: 7 }, Coin { number: 13, key: 0 }),
        REFUSED + 3,
        (1, [(1, 12), (NOTHING, NOTHING)]),
    ),
    (
        "added",
        DictCall::Add(Coin { number: 4, key: 8 }, Coin { number: 14, key: 0 }),
        NOTHING,
        (2, [(1, 12), (4, 14)]),
    ),
    ("got", DictCall::Get(8), 14, (2, [(1, 12), (4, 14)])),
    (
        "got nothing",
        DictCall::Get(9),
        NOTHING,
        (2, [(1, 12), (4, 14)]),
    ),
    (
        "replaced",
        DictCall::Replace(7, Coin { number: 15, key: 0 }),
        12,
        (2, [(1, 15), (4, 14)]),
    ),
    (
        "replaced nothing",
        DictCall::Replace(9, Coin { number: 16, key: 0 }),
        REFUSED + 16,
        (2, [(1, 15), (4, 14)]),
    ),
    (
        "removed",
        DictCall::Remove(7),
        1,
        (1, [(4, 14), (NOTHING, NOTHING)]),
    ),
    (
        "removed nothing",
        DictCall::Remove(7),
        NOTHING,
        (1, [(4, 14), (NOTHING, NOTHING)]),
    ),
];

#[test]
fn arrays(rt: HostRuntime) -> Result<(), Fail> {
    let mut array = Array::new(rt.alloc());
    array.reserve(0)?;
    for (message, call, answer, left) in &ARRAY_CASES {
        let got = call_array(&mut array, call)?;
        assert_eq!(rt; (got, array_numbers(&array)), (*answer, *left), "{message}");
    }
    Ok(())
}

#[test]
fn rows(rt: HostRuntime) -> Result<(), Fail> {
    let mut rows = Rows::new(rt.alloc(), ByKey);
    rows.reserve(0)?;
    for (message, call, answer, left) in &ROWS_CASES {
        let got = call_rows(&mut rows, call)?;
        assert_eq!(rt; (got, row_numbers(&rows)), (*answer, *left), "{message}");
    }
    Ok(())
}

#[test]
fn dictionaries(rt: HostRuntime) -> Result<(), Fail> {
    let mut dict = Dict::new(rt.alloc(), ByKey);
    dict.reserve(0)?;
    for (message, call, answer, left) in &DICT_CASES {
        let got = call_dict(&mut dict, call)?;
        assert_eq!(rt; (got, dict_numbers(&dict)), (*answer, *left), "{message}");
    }
    Ok(())
}
