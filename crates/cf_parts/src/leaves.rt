//! Numbers and bytes: the bounds of each kind, and the edits.
ghost use Rattle.std.specs.Prelude.{◌≤◌, IfOk};

use crate::check::assert_gives;
use cf_data::Bytes;
use cf_number::{Num, NumKind, OutOfKind};
use std::alloc::{AllocError, Global};
use std::cmp::Ordering;
use std::test::Fail;

/// A call on a number.
#[derive(Clone, Copy)]
enum NumCall {
    /// The number of its kind, and its value.
    Made,
    /// What it reads as in another kind.
    ReadAs(NumKind),
    /// How it stands to another number.
    Compared(NumKind, i64),
}

// A kind, a value, a call on the number that they make, and what it gives.
const NUMBER_CASES: [(NumKind, i64, NumCall, &str); 24] = [
    (NumKind::S8, 127, NumCall::Made, "Ok((1, 127))"),
    (NumKind::S8, -128, NumCall::Made, "Ok((1, -128))"),
    (NumKind::S8, 128, NumCall::Made, "Err(OutOfKind)"),
    (NumKind::S8, -129, NumCall::Made, "Err(OutOfKind)"),
    (NumKind::S16, 32_767, NumCall::Made, "Ok((2, 32767))"),
    (NumKind::S16, -32_768, NumCall::Made, "Ok((2, -32768))"),
    (NumKind::S16, 32_768, NumCall::Made, "Err(OutOfKind)"),
    (NumKind::S16, -32_769, NumCall::Made, "Err(OutOfKind)"),
    (
        NumKind::S32,
        2_147_483_647,
        NumCall::Made,
        "Ok((3, 2147483647))",
    ),
    (
        NumKind::S32,
        -2_147_483_648,
        NumCall::Made,
        "Ok((3, -2147483648))",
    ),
    (NumKind::S32, 2_147_483_648, NumCall::Made, "Err(OutOfKind)"),
    (
        NumKind::S32,
        -2_147_483_649,
        NumCall::Made,
        "Err(OutOfKind)",
    ),
    (
        NumKind::S64,
        i64::MAX,
        NumCall::Made,
        "Ok((4, 9223372036854775807))",
    ),
    (
        NumKind::S64,
        i64::MIN,
        NumCall::Made,
        "Ok((4, -9223372036854775808))",
    ),
    (NumKind::S16, 200, NumCall::ReadAs(NumKind::S8), "Ok(None)"),
    (
        NumKind::S16,
        200,
        NumCall::ReadAs(NumKind::S16),
        "Ok(Some(200))",
    ),
    (
        NumKind::S64,
        -1,
        NumCall::ReadAs(NumKind::S8),
        "Ok(Some(-1))",
    ),
    (NumKind::S64, -129, NumCall::ReadAs(NumKind::S8), "Ok(None)"),
    (
        NumKind::S64,
        65_536,
        NumCall::ReadAs(NumKind::S16),
        "Ok(None)",
    ),
    (
        NumKind::S64,
        i64::MIN,
        NumCall::ReadAs(NumKind::S32),
        "Ok(None)",
    ),
    (
        NumKind::S8,
        -128,
        NumCall::ReadAs(NumKind::S64),
        "Ok(Some(-128))",
    ),
    (
        NumKind::S8,
        5,
        NumCall::Compared(NumKind::S64, 5),
        "Ok(Equal)",
    ),
    (
        NumKind::S64,
        -1,
        NumCall::Compared(NumKind::S8, 1),
        "Ok(Less)",
    ),
    (
        NumKind::S16,
        300,
        NumCall::Compared(NumKind::S8, 127),
        "Ok(Greater)",
    ),
];

fn made(kind: NumKind, value: i64) -> Result<(u8, i64), OutOfKind> {
    let number = Num::make(kind, value)?;
    Ok((number.kind().number(), number.value()))
}

fn read_as(made: NumKind, value: i64, kind: NumKind) -> Result<Option<i64>, OutOfKind> {
    Ok(Num::make(made, value)?.get_as(kind).ok())
}

fn compared(a: (NumKind, i64), b: (NumKind, i64)) -> Result<Ordering, OutOfKind> {
    Ok(Num::make(a.0, a.1)?.compare(&Num::make(b.0, b.1)?))
}

fn outcome_of_number(
    alloc: Global,
    kind: NumKind,
    value: i64,
    call: NumCall,
) -> Result<String, AllocError> {
    match call {
        NumCall::Made => format!(in alloc; "{:?}", made(kind, value)),
        NumCall::ReadAs(other) => format!(in alloc; "{:?}", read_as(kind, value, other)),
        NumCall::Compared(other, to) => {
            format!(in alloc; "{:?}", compared((kind, value), (other, to)))
        }
    }
}

#[test]
fn numbers(rt: HostRuntime) -> Result<(), Fail> {
    for (i, &(kind, value, call, gives)) in NUMBER_CASES.iter().enumerate() {
        let outcome = outcome_of_number(rt.alloc(), kind, value, call)?;
        assert_gives(&rt, i, outcome.as_str(), gives, "a number");
    }
    Ok(())
}

/// A call on bytes.
#[derive(Clone, Copy)]
enum BytesCall {
    /// A copy.
    Copy,
    /// So many bytes are taken out at a place.
    Delete(usize, usize),
    /// So many bytes at a place are replaced by 8 and 9.
    Replace(usize, usize),
}

// Bytes, a call on them, whether it is done, and the length and the bytes after it.
const BYTES_CASES: [(&[u8], BytesCall, &str); 15] = [
    (&[1, 2], BytesCall::Copy, "true 2 [1, 2]"),
    (&[1, 2], BytesCall::Delete(1, 2), "false 2 [1, 2]"),
    (&[1, 2], BytesCall::Delete(3, 0), "false 2 [1, 2]"),
    (&[1, 2], BytesCall::Delete(usize::MAX, 2), "false 2 [1, 2]"),
    (&[1, 2], BytesCall::Delete(2, 0), "true 2 [1, 2]"),
    (&[1, 2], BytesCall::Delete(0, 1), "true 1 [2]"),
    (&[1, 2], BytesCall::Delete(1, 1), "true 1 [1]"),
    (&[1, 2], BytesCall::Delete(0, 2), "true 0 []"),
    (&[1, 2, 3], BytesCall::Replace(2, 2), "false 3 [1, 2, 3]"),
    (&[1, 2, 3], BytesCall::Replace(4, 0), "false 3 [1, 2, 3]"),
    (
        &[1, 2, 3],
        BytesCall::Replace(1, usize::MAX),
        "false 3 [1, 2, 3]",
    ),
    (
        &[1, 2, 3],
        BytesCall::Replace(0, 0),
        "true 5 [8, 9, 1, 2, 3]",
    ),
    (&[1, 2, 3], BytesCall::Replace(1, 1), "true 4 [1, 8, 9, 3]"),
    (&[1, 2, 3], BytesCall::Replace(0, 3), "true 2 [8, 9]"),
    (
        &[1, 2, 3],
        BytesCall::Replace(3, 0),
        "true 5 [1, 2, 3, 8, 9]",
    ),
];

/// The bytes in a buffer that has room for two more.
fn bytes_of(alloc: Global, items: &[u8]) -> Result<Bytes, AllocError>
    ensures { IfOk result (λ bytes. 2 ≤ bytes.room) }
{
    let mut bytes = Bytes::new(alloc);
    bytes.reserve(items.len())?;
    bytes.append(items);
    bytes.reserve(2)?;
    Ok(bytes)
}

/// Whether an empty buffer takes the room for no byte, and has none then.
fn takes_no_byte(alloc: Global) -> bool {
    let mut empty = Bytes::new(alloc);
    empty.reserve(0).is_ok() && empty.length() == 0
}

fn description_of(alloc: Global, done: bool, bytes: &Bytes) -> Result<String, AllocError> {
    format!(in alloc; "{done} {} {:?}", bytes.length(), bytes.get())
}

fn copied(alloc: Global, bytes: &Bytes) -> Result<String, AllocError> {
    let copy = bytes.copy(alloc)?;
    description_of(alloc, takes_no_byte(alloc), &copy)
}

/// Whether a call that changes bytes is done.
fn is_done(bytes: &mut Bytes, call: BytesCall) -> bool
    requires { 2 ≤ bytes.old.room }
{
    match call {
        BytesCall::Copy => true,
        BytesCall::Delete(at, len) => bytes.delete(at, len).is_ok(),
        BytesCall::Replace(at, len) => bytes.replace(at, len, &[8, 9]).is_ok(),
    }
}

fn outcome_of_bytes(alloc: Global, items: &[u8], call: BytesCall) -> Result<String, AllocError> {
    let mut bytes = bytes_of(alloc, items)?;
    if let BytesCall::Copy = call {
        return copied(alloc, &bytes);
    }
    let done = is_done(&mut bytes, call);
    description_of(alloc, done, &bytes)
}

#[test]
fn bytes(rt: HostRuntime) -> Result<(), Fail> {
    for (i, &(items, call, gives)) in BYTES_CASES.iter().enumerate() {
        let outcome = outcome_of_bytes(rt.alloc(), items, call)?;
        assert_gives(&rt, i, outcome.as_str(), gives, "bytes");
    }
    Ok(())
}
