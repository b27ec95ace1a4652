//! Texts as lists of UTF-16 units: what is read of them, what is refused, and the edits.
use crate::check::assert_some;
use cf_string::{Str, StrFault};
use std::alloc::{AllocError, Global};

/// The text `a`, then the character U+1F600, whose units are D83D and DE00, 55357 and 56832.
const FACE: [u8; 5] = [0x61, 0xF0, 0x9F, 0x98, 0x80];

/// A text that is read.
#[derive(Clone, Copy)]
enum Part {
    Itself,
    Copy,
    Substring(usize, usize),
    /// The text `nanan`, which edits make.
    Edited,
}

// The length of each, its units at 1 and at 3, how it stands to the first, and its bytes.
const PARTS: [(Part, &str, &str); 4] = [
    (
        Part::Itself,
        "3 Some(55357) None Equal [97, 240, 159, 152, 128]",
        "the text",
    ),
    (
        Part::Copy,
        "3 Some(55357) None Equal [97, 240, 159, 152, 128]",
        "the copy",
    ),
    (
        Part::Substring(1, 2),
        "2 Some(56832) None Greater [240, 159, 152, 128]",
        "the pair",
    ),
    (
        Part::Edited,
        "5 Some(97) Some(97) Greater [110, 97, 110, 97, 110]",
        "the edits",
    ),
];

fn description_of(alloc: Global, part: &Str, face: &Str) -> Result<String, AllocError> {
    let bytes = part.utf8(alloc)?;
    format!(in alloc;
        "{} {:?} {:?} {:?} {:?}",
        part.length(),
        part.unit_at(1),
        part.unit_at(3),
        part.compare(face),
        bytes.as_slice()
    )
}

fn face(alloc: Global) -> Option<Str> {
    Str::from_utf8(alloc, &FACE).ok()
}

fn copied(alloc: Global) -> Option<Str> {
    face(alloc)?.copy(alloc).ok()
}

fn substring(alloc: Global, at: usize, len: usize) -> Option<Str> {
    face(alloc)?.substring(alloc, at, len).ok()
}

fn part_of(alloc: Global, part: Part) -> Option<Str> {
    match part {
        Part::Itself => face(alloc),
        Part::Copy => copied(alloc),
        Part::Substring(at, len) => substring(alloc, at, len),
        Part::Edited => nanan(alloc),
    }
}

fn reading_of(alloc: Global, part: Part) -> Option<String> {
    let face = face(alloc)?;
    let part = part_of(alloc, part)?;
    description_of(alloc, &part, &face).ok()
}

#[test]
fn texts_are_read(rt: HostRuntime) {
    for (i, &(part, gives, about)) in PARTS.iter().enumerate() {
        let outcome = reading_of(rt.alloc(), part);
        assert_some(&rt, i, &outcome, gives, about);
    }
}

/// A call that may be refused.
#[derive(Clone, Copy)]
enum Call {
    /// The byte FF is read.
    Read,
    Substring(usize, usize),
    SplitFault(usize, usize),
    Delete(usize, usize),
    /// An empty text gets room for no unit.
    Reserve,
}

// The fault of each call on the text, and the length of the text after it.
const CALLS: [(Call, &str, &str); 9] = [
    (Call::Read, "Some(NotUtf8) 3", "the byte FF"),
    (Call::Substring(0, 2), "Some(SplitsPair) 3", "half a pair"),
    (Call::SplitFault(1, 2), "None 3", "no fault"),
    (
        Call::SplitFault(0, 2),
        "Some(SplitsPair) 3",
        "the fault of half a pair",
    ),
    (Call::Substring(2, 2), "Some(Range) 3", "past the length"),
    (
        Call::Substring(usize::MAX, 1),
        "Some(Range) 3",
        "a far place",
    ),
    (
        Call::Delete(2, 1),
        "Some(SplitsPair) 3",
        "no half is taken out",
    ),
    (
        Call::Delete(3, 1),
        "Some(Range) 3",
        "nothing past the end is",
    ),
    (Call::Reserve, "None 3", "no room is there"),
];

fn fault_of(alloc: Global, text: &mut Str, call: Call) -> Option<StrFault> {
    match call {
        Call::Read => Str::from_utf8(alloc, &[0xFF]).err(),
        Call::Substring(at, len) => text.substring(alloc, at, len).err(),
        Call::SplitFault(at, len) => text.split_fault(at, len),
        Call::Delete(at, len) => text.delete(at, len).err(),
        Call::Reserve => Str::new(alloc).reserve(0).map_err(StrFault::from).err(),
    }
}

fn refusal_of(alloc: Global, call: Call) -> Option<String> {
    let mut face = face(alloc)?;
    let fault = fault_of(alloc, &mut face, call);
    format!(in alloc; "{fault:?} {}", face.length()).ok()
}

#[test]
fn texts_are_refused(rt: HostRuntime) {
    for (i, &(call, gives, about)) in CALLS.iter().enumerate() {
        let outcome = refusal_of(rt.alloc(), call);
        assert_some(&rt, i, &outcome, gives, about);
    }
}

// A text beside the text `nanan`: its place there from a place on, whether it is a prefix and a suffix of it, whether
// `nanan` is a suffix of it, and how it stands to `nanan`.
const BESIDE: [(&[u8], usize, &str, &str); 6] = [
    (b"an", 0, "Some(1) false true false Less", "the first place"),
    (b"an", 2, "Some(3) false true false Less", "a later place"),
    (b"an", 4, "None false true false Less", "no place"),
    (
        b"",
        5,
        "Some(5) true true false Less",
        "an empty text at the end",
    ),
    (b"", 6, "None true true false Less", "no empty text past it"),
    (b"nanan", 0, "Some(0) true true true Equal", "the same text"),
];

/// The text `nanan`, made of the text `b` and the other text `an` by each of the edits.
fn edited(mut text: Str, other: &Str) -> Result<Str, StrFault> {
    text.reserve(6)?;
    if other.length() == 2 {
        text.append(other);
        text.insert(1, other)?;
        text.replace(0, 1, other)?;
    }
    text.delete(0, 1)?;
    Ok(text)
}

fn nanan(alloc: Global) -> Option<Str> {
    let other = Str::from_utf8(alloc, b"an").ok()?;
    edited(Str::from_utf8(alloc, b"b").ok()?, &other).ok()
}

fn beside(alloc: Global, text: &Str, other: &Str, from: usize) -> Result<String, AllocError> {
    format!(in alloc;
        "{:?} {} {} {} {:?}",
        text.find(other, from),
        text.has_prefix(other),
        text.has_suffix(other),
        other.has_suffix(text),
        other.compare(text)
    )
}

fn standing_of(alloc: Global, other: &[u8], from: usize) -> Option<String> {
    let text = nanan(alloc)?;
    let other = Str::from_utf8(alloc, other).ok()?;
    beside(alloc, &text, &other, from).ok()
}

#[test]
fn texts_are_edited(rt: HostRuntime) {
    for (i, &(other, from, gives, about)) in BESIDE.iter().enumerate() {
        let outcome = standing_of(rt.alloc(), other, from);
        assert_some(&rt, i, &outcome, gives, about);
    }
}
