//! How objects are described.
ghost use Rattle.std.specs.Prelude.{◌≡◌, ◌++◌, ◌≤◌, codes, take, length, nat_lt, IfOk, OnOk};
ghost use Rattle.std.specs.List.{flat_map, join_with_byte};
ghost use Rattle.std.specs.Fmt.{decimal, signed_decimal};
ghost use Rattle.cf_ids.specs.Words.{number_word};
ghost use Rattle.cf_contents.specs.Contents.{least_of};
ghost use Rattle.cf_contents.specs.Descriptions.{more_if, shown_char, characters_of, shown_text, shown_bytes, kind_word, shown_content, least_word, member_word, valid_word, date_word, item_words, description};
ghost use Rattle.cf_plain.specs.Views.{content_of, item_of};
ghost use Rattle.cf_contents.specs.Descriptions.{word_at};
ghost use Rattle.cf_plain.specs.Words.{counted_list, listed, members_in, words_of};

use crate::character::char_at;
use crate::class::class_name;
use crate::content::{Content, Object};
use crate::heap::Heap;
use crate::item::Item;
use cf_ids::ObjId;
use cf_number::NumKind;
use cf_syntax::ClassLine;
use std::alloc::{AllocError as NoMemory, Global};

/// The most characters of a text, or bytes of data, that are shown.
const SHOWN: usize = 32;

/// The most members that are shown.
const MEMBERS: usize = 8;

/// The description of an object: the name of its type, and what it contains.
pub(crate) fn describe(
    alloc: Global,
    classes: &[ClassLine],
    object: &Object,
) -> Result<Vec<u8>, NoMemory>
    ensures { IfOk result (λ d. d.items ≡ description classes.now object.now) }
{
    let mut out = Vec::from_slice(alloc, class_name(classes, object.class))?;
    out.push(b' ')?;
    push_content(alloc, &mut out, &object.content)?;
    Ok(out)
}

/// Writes what an object contains.
fn push_content(alloc: Global, out: &mut Vec<u8>, content: &Content) -> Result<(), NoMemory>
    ensures { OnOk result (out.new.items ≡ out.old.items ++ shown_content (content_of content.now)) }
{
    match content {
        Content::Text { units, .. } => push_text(out, units.as_slice()),
        Content::Data { bytes, .. } => push_bytes(alloc, out, bytes.as_slice()),
        Content::Number(number) => {
            out.extend_from_slice(kind_word(number.kind()))?;
            out.push(b' ')?;
            push_integer(alloc, out, number.value())
        }
        Content::Instance { key, .. } => {
            push_integer(alloc, out, *key)?;
            out.push(b' ')?;
            push_members(alloc, out, content)
        }
        Content::Heap(heap) => push_heap(alloc, out, heap),
        Content::Item { valid, item, .. } => push_item(alloc, out, *valid, item),
        Content::Array { .. }
        | Content::Dictionary { .. }
        | Content::Set { .. }
        | Content::Bag { .. } => push_counted(alloc, out, content),
    }
}

/// Writes how many members there are, and the members.
fn push_counted(alloc: Global, out: &mut Vec<u8>, content: &Content) -> Result<(), NoMemory>
    ensures { OnOk result (out.new.items ≡ out.old.items ++ counted_list (content_of content.now)) }
{
    out.extend_from_slice(members(content).to_string(alloc)?.as_bytes())?;
    out.push(b' ')?;
    push_members(alloc, out, content)
}

/// Writes how many elements a heap has, and the least.
fn push_heap(alloc: Global, out: &mut Vec<u8>, heap: &Heap) -> Result<(), NoMemory>
    ensures { let first = least_of heap.now.plain heap.now.rows in
        OnOk result (out.new.items ≡ out.old.items ++ (decimal (length heap.now.rows) ++ least_word first)) }
{
    out.extend_from_slice(heap.count().to_string(alloc)?.as_bytes())?;
    match heap.least() {
        Some(element) => {
            out.extend_from_slice(b" min ")?;
            push_number(alloc, out, element)
        }
        None => Ok(()),
    }
}

/// Writes whether an item is valid, and what else is shown of its kind.
fn push_item(alloc: Global, out: &mut Vec<u8>, valid: bool, item: &Item) -> Result<(), NoMemory>
    ensures { OnOk result (out.new.items ≡ out.old.items ++ item_words valid (item_of item.now)) }
{
    out.extend_from_slice(valid_word(valid))?;
    match item {
        Item::Source {
            signalled: true,
            ..
        } => out.extend_from_slice(b" signalled"),
        Item::Timer { date, .. } if valid => push_date(alloc, out, *date),
        _ => Ok(()),
    }
}

/// The word of whether an item is valid.
fn valid_word(valid: bool) -> &'static [u8]
    ensures { result.now ≡ valid_word valid }
{
    if valid { b"valid" } else { b"invalid" }
}

/// Writes a timer's next date.
fn push_date(alloc: Global, out: &mut Vec<u8>, date: Option<u64>) -> Result<(), NoMemory>
    ensures { OnOk result (out.new.items ≡ out.old.items ++ date_word date) }
{
    match date {
        Some(date) => {
            out.push(b' ')?;
            out.extend_from_slice(date.to_string(alloc)?.as_bytes())
        }
        None => out.extend_from_slice(b" none"),
    }
}

/// Writes a text in quotes: 32 characters at most.
fn push_text(out: &mut Vec<u8>, units: &[u16]) -> Result<(), NoMemory>
    ensures { OnOk result (out.new.items ≡ out.old.items ++ shown_text units.now) }
{
    out.push(b'"')?;
    let end = push_characters(out, units)?;
    out.push(b'"')?;
    push_more(out, end < units.len())
}

/// Writes the first 32 characters of a text, and tells the place after them.
fn push_characters(out: &mut Vec<u8>, units: &[u16]) -> Result<usize, NoMemory>
    ensures written { OnOk result (out.new.items
        ≡ out.old.items ++ flat_map shown_char (take 32 (characters_of units.now))) }
    ensures end { IfOk result (λ end. nat_lt end (length units.now) ≡ nat_lt 32 (length (characters_of units.now))) }
{
    let mut at = 0;
    for _ in 0..SHOWN {
        if units.len() <= at {
            return Ok(at);
        }
        let (character, next) = char_at(units, at);
        push_character(out, character)?;
        at = next;
    }
    Ok(at)
}

/// Writes a character of a text: the quote, the backslash and LF are escaped.
fn push_character(out: &mut Vec<u8>, character: char) -> Result<(), NoMemory>
    ensures { OnOk result (out.new.items ≡ out.old.items ++ shown_char character) }
{
    match character {
        '"' => out.extend_from_slice(b"\\\""),
        '\\' => out.extend_from_slice(b"\\\\"),
        '\n' => out.extend_from_slice(b"\\n"),
        _ => out.extend_from_slice(character.encode_utf8(&mut [0; 4]).as_bytes()),
    }
}

/// Writes bytes in hexadecimal digits: 32 of them at most.
fn push_bytes(alloc: Global, out: &mut Vec<u8>, bytes: &[u8]) -> Result<(), NoMemory>
    ensures { OnOk result (out.new.items ≡ out.old.items ++ shown_bytes bytes.now) }
{
    if bytes.is_empty() {
        return Ok(out.push(b'-')?);
    }
    let shown = bytes.len().min(SHOWN);
    let digits = hex::encode(alloc, &bytes[..shown])?;
    out.extend_from_slice(digits.as_bytes())?;
    push_more(out, SHOWN < bytes.len())
}

/// Writes that more is there than is written, if it is.
fn push_more(out: &mut Vec<u8>, more: bool) -> Result<(), NoMemory>
    ensures { OnOk result (out.new.items ≡ out.old.items ++ more_if more) }
{
    if more {
        out.extend_from_slice(b" ..")?;
    }
    Ok(())
}

/// Writes a number in decimal digits.
fn push_integer(alloc: Global, out: &mut Vec<u8>, value: i64) -> Result<(), NoMemory>
    ensures { OnOk result (out.new.items ≡ out.old.items ++ signed_decimal value) }
{
    out.extend_from_slice(value.to_string(alloc)?.as_bytes())
}

/// The word of a kind of numbers.
fn kind_word(kind: NumKind) -> &'static [u8]
    ensures { result.now ≡ kind_word kind }
{
    match kind {
        NumKind::S8 => b"s8",
        NumKind::S16 => b"s16",
        NumKind::S32 => b"s32",
        NumKind::S64 => b"s64",
    }
}

/// How many members are listed: fields, elements, pairs or rows.
fn members(content: &Content) -> usize
    ensures { result ≡ members_in (content_of content.now) }
{
    match content {
        Content::Instance { fields, .. } => fields.len(),
        Content::Array { elements, .. } => elements.len(),
        Content::Dictionary { pairs, .. } => pairs.len(),
        Content::Set { members, .. } => members.len(),
        Content::Bag { rows, .. } => rows.len(),
        _ => 0,
    }
}

/// Writes members in brackets: eight of them at most.
fn push_members(alloc: Global, out: &mut Vec<u8>, content: &Content) -> Result<(), NoMemory>
    ensures { OnOk result (out.new.items ≡ out.old.items ++ listed (content_of content.now)) }
{
    let all = members(content);
    out.push(b'[')?;
    push_words(alloc, out, content, all.min(MEMBERS))?;
    push_more(out, MEMBERS < all)?;
    out.push(b']')?;
    Ok(())
}

/// Writes the words of the first members, with a space between each two.
fn push_words(
    alloc: Global,
    out: &mut Vec<u8>,
    content: &Content,
    count: usize,
) -> Result<(), NoMemory>
    requires { count ≤ members_in (content_of content.now) }
    ensures { OnOk result (out.new.items
        ≡ out.old.items ++ join_with_byte 32 (take count (words_of (content_of content.now)))) }
{
    for place in 0..count {
        if 0 < place {
            out.push(b' ')?;
        }
        push_member(alloc, out, content, place)?;
    }
    Ok(())
}

/// Writes the word of the member at a place.
fn push_member(
    alloc: Global,
    out: &mut Vec<u8>,
    content: &Content,
    at: usize,
) -> Result<(), NoMemory>
    ensures { OnOk result (out.new.items ≡ out.old.items ++ word_at (words_of (content_of content.now)) at) }
{
    match content {
        Content::Instance { fields, .. } => match fields.get(at) {
            Some(field) => push_field(alloc, out, *field),
            None => Ok(()),
        },
        Content::Array { elements, .. } => match elements.get(at) {
            Some(element) => push_number(alloc, out, *element),
            None => Ok(()),
        },
        Content::Dictionary { pairs, .. } => match pairs.get(at) {
            Some(pair) => push_pair(alloc, out, pair.0.id(), pair.1),
            None => Ok(()),
        },
        Content::Set { members, .. } => match members.get(at) {
            Some(member) => push_number(alloc, out, member.id()),
            None => Ok(()),
        },
        Content::Bag { rows, .. } => match rows.get(at) {
            Some(row) => push_row(alloc, out, row.0.id(), row.1),
            None => Ok(()),
        },
        _ => Ok(()),
    }
}

/// Writes the object in a field, or that there is none.
fn push_field(alloc: Global, out: &mut Vec<u8>, field: Option<ObjId>) -> Result<(), NoMemory>
    ensures { OnOk result (out.new.items ≡ out.old.items ++ member_word field) }
{
    match field {
        Some(object) => push_number(alloc, out, object),
        None => out.extend_from_slice(b"nil"),
    }
}

/// Writes a key and its value.
fn push_pair(alloc: Global, out: &mut Vec<u8>, key: ObjId, value: ObjId) -> Result<(), NoMemory>
    ensures { OnOk result (out.new.items ≡ out.old.items ++ (number_word key ++ codes ":" ++ number_word value)) }
{
    push_number(alloc, out, key)?;
    out.push(b':')?;
    push_number(alloc, out, value)
}

/// Writes a member of a bag and how often it is there.
fn push_row(alloc: Global, out: &mut Vec<u8>, member: ObjId, number: u32) -> Result<(), NoMemory>
    ensures { OnOk result (out.new.items ≡ out.old.items ++ (number_word member ++ codes "x" ++ decimal number)) }
{
    push_number(alloc, out, member)?;
    out.push(b'x')?;
    out.extend_from_slice(number.to_string(alloc)?.as_bytes())
}

/// Writes the number of an object.
fn push_number(alloc: Global, out: &mut Vec<u8>, object: ObjId) -> Result<(), NoMemory>
    ensures { OnOk result (out.new.items ≡ out.old.items ++ number_word object) }
{
    out.extend_from_slice(object.to_string(alloc)?.as_bytes())
}
