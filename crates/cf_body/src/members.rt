//! How the members of an object are described.
ghost use Rattle.std.specs.Prelude.{◌≡◌, ◌++◌, ◌≤◌, codes, take, OnOk};
ghost use Rattle.std.specs.Fmt.{decimal};
ghost use Rattle.std.specs.List.{join_with_byte};
ghost use Rattle.cf_contents.specs.Descriptions.{member_word};
ghost use Rattle.cf_ids.specs.Words.{number_word};
ghost use Rattle.cf_contents.specs.Descriptions.{word_at};
ghost use Rattle.cf_body.specs.Bodies.{content_of, members_in, words_of, listed};

use crate::body::Kind;
use crate::description::push_more;
use cf_ids::ObjId;
use std::alloc::{AllocError as NoMemory, Global};

/// The most members that are shown.
const MEMBERS: usize = 8;

/// How many members there are: fields, elements, pairs or rows.
pub(crate) fn members(kind: &Kind) -> usize
    ensures { result ≡ members_in (content_of kind.now) }
{
    match kind {
        Kind::Instance(instance) => instance.fields.len(),
        Kind::Array { elements, .. } => elements.length(),
        Kind::Dictionary(pairs) => pairs.count(),
        Kind::Set(set) => set.count(),
        Kind::Bag(bag) => bag.count(),
        _ => 0,
    }
}

/// Writes members in brackets: eight of them at most.
pub(crate) fn push_members(alloc: Global, out: &mut Vec<u8>, kind: &Kind) -> Result<(), NoMemory>
    ensures { OnOk result (out.new.items ≡ out.old.items ++ listed (content_of kind.now)) }
{
    let all = members(kind);
    out.push(b'[')?;
    push_words(alloc, out, kind, all.min(MEMBERS))?;
    push_more(out, MEMBERS < all)?;
    out.push(b']')?;
    Ok(())
}

/// Writes the words of the first members, with a space between each two.
fn push_words(alloc: Global, out: &mut Vec<u8>, kind: &Kind, count: usize) -> Result<(), NoMemory>
    requires { count ≤ members_in (content_of kind.now) }
    ensures { OnOk result (out.new.items
        ≡ out.old.items ++ join_with_byte 32 (take count (words_of (content_of kind.now)))) }
{
    for place in 0..count {
        if 0 < place {
            out.push(b' ')?;
        }
        push_member(alloc, out, kind, place)?;
    }
    Ok(())
}

/// Writes the word of the member at a place.
fn push_member(alloc: Global, out: &mut Vec<u8>, kind: &Kind, at: usize) -> Result<(), NoMemory>
    ensures { OnOk result (out.new.items ≡ out.old.items ++ word_at (words_of (content_of kind.now)) at) }
{
    match kind {
        Kind::Instance(instance) => match instance.fields.get(at) {
            Some(field) => push_field(alloc, out, *field),
            None => Ok(()),
        },
        Kind::Array { elements, .. } => match elements.get(at) {
            Some(element) => push_number(alloc, out, *element),
            None => Ok(()),
        },
        Kind::Dictionary(pairs) => match pairs.row(at) {
            Some((key, value)) => push_pair(alloc, out, key, value),
            None => Ok(()),
        },
        Kind::Set(set) => match set.at(at) {
            Some(member) => push_number(alloc, out, member),
            None => Ok(()),
        },
        Kind::Bag(bag) => match bag.row(at) {
            Some((member, number)) => push_row(alloc, out, member, number),
            None => Ok(()),
        },
        _ => Ok(()),
    }
}

/// Writes the object in a field, or that there is none.
fn push_field(alloc: Global, out: &mut Vec<u8>, field: Option<ObjId>) -> Result<(), NoMemory>
    ensures { OnOk result (out.new.items ≡ out.old.items ++ member_word field) }
{
    match field {
        Some(object) => push_number(alloc, out, object),
        None => out.extend_from_slice(b"nil"),
    }
}

/// Writes a key and its value.
fn push_pair(alloc: Global, out: &mut Vec<u8>, key: ObjId, value: ObjId) -> Result<(), NoMemory>
    ensures { OnOk result (out.new.items ≡ out.old.items ++ (number_word key ++ codes ":" ++ number_word value)) }
{
    push_number(alloc, out, key)?;
    out.push(b':')?;
    push_number(alloc, out, value)
}

/// Writes a member of a bag and how often it is there.
fn push_row(alloc: Global, out: &mut Vec<u8>, member: ObjId, number: u32) -> Result<(), NoMemory>
    ensures { OnOk result (out.new.items ≡ out.old.items ++ (number_word member ++ codes "x" ++ decimal number)) }
{
    push_number(alloc, out, member)?;
    out.push(b'x')?;
    out.extend_from_slice(number.to_string(alloc)?.as_bytes())
}

/// Writes the number of an object.
pub(crate) fn push_number(alloc: Global, out: &mut Vec<u8>, object: ObjId) -> Result<(), NoMemory>
    ensures { OnOk result (out.new.items ≡ out.old.items ++ number_word object) }
{
    out.extend_from_slice(object.to_string(alloc)?.as_bytes())
}
