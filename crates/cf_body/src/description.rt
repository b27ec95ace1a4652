//! How objects are described.
ghost use Rattle.std.specs.Prelude.{◌≡◌, ◌++◌, codes, take, length, nat_lt, IfOk, OnOk};
ghost use Rattle.std.specs.List.{flat_map};
ghost use Rattle.std.specs.Fmt.{decimal, signed_decimal};
ghost use Rattle.cf_contents.specs.Contents.{least_of};
ghost use Rattle.cf_contents.specs.Descriptions.{more_if, shown_char, characters_of, shown_text, shown_bytes, kind_word, shown_content, least_word, description};
ghost use Rattle.cf_body.specs.Bodies.{content_of, object_in, counted_list};

use crate::body::{Body, Kind};
use crate::classes::class_name;
use crate::item::push_item;
use crate::members::{members, push_members, push_number};
use cf_members::ElementHeap;
use cf_number::NumKind;
use cf_string::Str;
use cf_syntax::ClassLine;
use std::alloc::{AllocError as NoMemory, Global};

/// The most characters of a text, or bytes of data, that are shown.
const SHOWN: usize = 32;

/// The description of an object: the name of its type, and what it contains. `NoMemory` comes for want of memory
/// alone.
pub fn describe(alloc: Global, classes: &[ClassLine], body: &Body) -> Result<Vec<u8>, NoMemory>
    ensures { IfOk result (λ d. d.items ≡ description classes.now (object_in body.now)) }
{
    let mut out = Vec::from_slice(alloc, class_name(classes, body.class))?;
    out.push(b' ')?;
    push_content(alloc, &mut out, &body.kind)?;
    Ok(out)
}

/// Writes what an object contains.
fn push_content(alloc: Global, out: &mut Vec<u8>, kind: &Kind) -> Result<(), NoMemory>
    ensures { OnOk result (out.new.items ≡ out.old.items ++ shown_content (content_of kind.now)) }
{
    match kind {
        Kind::Text { text, .. } => push_text(out, text),
        Kind::Data { bytes, .. } => push_bytes(alloc, out, bytes.get()),
        Kind::Number(number) => {
            out.extend_from_slice(kind_word(number.kind()))?;
            out.push(b' ')?;
            push_integer(alloc, out, number.value())
        }
        Kind::Instance(instance) => {
            push_integer(alloc, out, instance.key)?;
            out.push(b' ')?;
            push_members(alloc, out, kind)
        }
        Kind::Array { .. } | Kind::Dictionary(_) | Kind::Set(_) | Kind::Bag(_) => {
            push_counted(alloc, out, kind)
        }
        Kind::Heap(heap) => push_heap(alloc, out, heap),
        Kind::Item(item) => push_item(out, item),
    }
}

/// Writes how many members there are, and the members.
fn push_counted(alloc: Global, out: &mut Vec<u8>, kind: &Kind) -> Result<(), NoMemory>
    ensures { OnOk result (out.new.items ≡ out.old.items ++ counted_list (content_of kind.now)) }
{
    out.extend_from_slice(members(kind).to_string(alloc)?.as_bytes())?;
    out.push(b' ')?;
    push_members(alloc, out, kind)
}

/// Writes how many elements a heap has, and the least.
fn push_heap(alloc: Global, out: &mut Vec<u8>, heap: &ElementHeap) -> Result<(), NoMemory>
    ensures { let first = least_of heap.now.plain heap.now.rows in
        OnOk result (out.new.items ≡ out.old.items ++ (decimal (length heap.now.rows) ++ least_word first)) }
{
    out.extend_from_slice(heap.count().to_string(alloc)?.as_bytes())?;
    match heap.least() {
        Some(element) => {
            out.extend_from_slice(b" min ")?;
            push_number(alloc, out, element)
        }
        None => Ok(()),
    }
}

/// Writes a text in quotes: 32 characters at most.
fn push_text(out: &mut Vec<u8>, text: &Str) -> Result<(), NoMemory>
    ensures { OnOk result (out.new.items ≡ out.old.items ++ shown_text text.now.units) }
{
    out.push(b'"')?;
    let end = push_characters(out, text)?;
    out.push(b'"')?;
    push_more(out, end < text.length())
}

/// Writes the first 32 characters of a text, and tells the place after them.
fn push_characters(out: &mut Vec<u8>, text: &Str) -> Result<usize, NoMemory>
    ensures written { OnOk result (out.new.items
        ≡ out.old.items ++ flat_map shown_char (take 32 (characters_of text.now.units))) }
    ensures end { let units = text.now.units in
        IfOk result (λ end. nat_lt end (length units) ≡ nat_lt 32 (length (characters_of units))) }
{
    let mut at = 0;
    for _ in 0..SHOWN {
        if text.length() <= at {
            return Ok(at);
        }
        let (character, next) = text.char_at(at);
        push_character(out, character)?;
        at = next;
    }
    Ok(at)
}

/// Writes a character of a text: the quote, the backslash and LF are escaped.
fn push_character(out: &mut Vec<u8>, character: char) -> Result<(), NoMemory>
    ensures { OnOk result (out.new.items ≡ out.old.items ++ shown_char character) }
{
    match character {
        '"' => out.extend_from_slice(b"\\\""),
        '\\' => out.extend_from_slice(b"\\\\"),
        '\n' => out.extend_from_slice(b"\\n"),
        _ => out.extend_from_slice(character.encode_utf8(&mut [0; 4]).as_bytes()),
    }
}

/// Writes bytes in hexadecimal digits: 32 of them at most.
fn push_bytes(alloc: Global, out: &mut Vec<u8>, bytes: &[u8]) -> Result<(), NoMemory>
    ensures { OnOk result (out.new.items ≡ out.old.items ++ shown_bytes bytes.now) }
{
    if bytes.is_empty() {
        return Ok(out.push(b'-')?);
    }
    let shown = bytes.len().min(SHOWN);
    let digits = hex::encode(alloc, &bytes[..shown])?;
    out.extend_from_slice(digits.as_bytes())?;
    push_more(out, SHOWN < bytes.len())
}

/// Writes that more is there than is written, where it is.
pub(crate) fn push_more(out: &mut Vec<u8>, more: bool) -> Result<(), NoMemory>
    ensures { OnOk result (out.new.items ≡ out.old.items ++ more_if more) }
{
    if more {
        out.extend_from_slice(b" ..")?;
    }
    Ok(())
}

/// Writes a number in decimal digits.
fn push_integer(alloc: Global, out: &mut Vec<u8>, value: i64) -> Result<(), NoMemory>
    ensures { OnOk result (out.new.items ≡ out.old.items ++ signed_decimal value) }
{
    out.extend_from_slice(value.to_string(alloc)?.as_bytes())
}

/// The word of a kind of numbers.
fn kind_word(kind: NumKind) -> &'static [u8]
    ensures { result.now ≡ kind_word kind }
{
    match kind {
        NumKind::S8 => b"s8",
        NumKind::S16 => b"s16",
        NumKind::S32 => b"s32",
        NumKind::S64 => b"s64",
    }
}
