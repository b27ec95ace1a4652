//! Words go after a text, each after a space.
ghost use Rattle.std.specs.Prelude.{◌≡◌, [], ◌∷◌, ◌++◌, OnOk};
ghost use Rattle.std.specs.List.{flat_map};
ghost use Rattle.std.specs.Fmt.{decimal, signed_decimal};
ghost use Rattle.hex.specs.Hex.{encode_lower};
ghost use Rattle.cf_ids.specs.Words.{number_word, thread_word};
ghost use Rattle.cf_contents.specs.Descriptions.{characters_of, member_word, shown_char};
ghost use Rattle.cf_render.specs.FormWords.{bytes_word, text_word};
ghost use Rattle.cf_render.specs.Rows.{alone, spaced, texts, texts_in};

use crate::names::name_of;
use crate::word::Word;
use cf_ids::{ObjId, ThreadId};
use cf_string::Str;
use cf_syntax::Script;
use itoa::Buffer;
use std::alloc::AllocError as NoMemory;

/// The hexadecimal digits.
const DIGITS: [u8; 16] = *b"0123456789abcdef";

/// Puts a number in decimal digits.
pub(crate) fn put_decimal(text: &mut Vec<u8>, number: u64) -> Result<(), NoMemory>
    ensures { OnOk result (text.new.items ≡ text.old.items ++ decimal number) }
{
    let mut digits = Buffer::new();
    text.extend_from_slice(digits.format(number).as_bytes())
}

/// Puts a number in decimal digits with its sign.
fn put_signed(text: &mut Vec<u8>, number: i64) -> Result<(), NoMemory>
    ensures { OnOk result (text.new.items ≡ text.old.items ++ signed_decimal number) }
{
    let mut digits = Buffer::new();
    text.extend_from_slice(digits.format(number).as_bytes())
}

/// Puts a thread as it is written: `t` and its number, or `lead`.
pub(crate) fn put_thread(text: &mut Vec<u8>, thread: ThreadId) -> Result<(), NoMemory>
    ensures { OnOk result (text.new.items ≡ text.old.items ++ thread_word thread) }
{
    if thread.0 == ThreadId::LEAD.0 {
        return text.extend_from_slice(b"lead");
    }
    text.push(b't')?;
    put_decimal(text, u64::from(thread.0))
}

/// Puts an object as it is written: `#` and its number.
pub(crate) fn put_object(text: &mut Vec<u8>, object: ObjId) -> Result<(), NoMemory>
    ensures { OnOk result (text.new.items ≡ text.old.items ++ number_word object) }
{
    text.push(b'#')?;
    put_decimal(text, u64::from(object.0))
}

/// Puts an object, or `nil`.
fn put_member(text: &mut Vec<u8>, object: Option<ObjId>) -> Result<(), NoMemory>
    ensures { OnOk result (text.new.items ≡ text.old.items ++ member_word object) }
{
    match object {
        Some(object) => put_object(text, object),
        None => text.extend_from_slice(b"nil"),
    }
}

/// Puts a character of a text: the quote, the backslash and LF are escaped.
fn put_character(text: &mut Vec<u8>, character: char) -> Result<(), NoMemory>
    ensures { OnOk result (text.new.items ≡ text.old.items ++ shown_char character) }
{
    match character {
        '"' => text.extend_from_slice(b"\\\""),
        '\\' => text.extend_from_slice(b"\\\\"),
        '\n' => text.extend_from_slice(b"\\n"),
        _ => text.extend_from_slice(character.encode_utf8(&mut [0; 4]).as_bytes()),
    }
}

/// Puts the characters of a text.
fn put_characters(text: &mut Vec<u8>, characters: &Str) -> Result<(), NoMemory>
    ensures { OnOk result (text.new.items
        ≡ text.old.items ++ flat_map shown_char (characters_of characters.now.units)) }
{
    let mut at = 0;
    while at < characters.length() {
        let (character, next) = characters.char_at(at);
        put_character(text, character)?;
        at = next;
    }
    Ok(())
}

/// Puts a text in quotes.
fn put_text(text: &mut Vec<u8>, characters: &Str) -> Result<(), NoMemory>
    ensures { OnOk result (text.new.items ≡ text.old.items ++ text_word characters.now.units) }
{
    text.push(b'"')?;
    put_characters(text, characters)?;
    Ok(text.push(b'"')?)
}

/// Puts a byte in two hexadecimal digits.
#[tactic(auto, unfolding(hex::specs::Hex::encode_with))]
fn put_byte(text: &mut Vec<u8>, byte: u8) -> Result<(), NoMemory>
    ensures { OnOk result (text.new.items ≡ text.old.items ++ encode_lower (byte ∷ [])) }
{
    text.push(DIGITS[usize::from(byte / 16)])?;
    Ok(text.push(DIGITS[usize::from(byte % 16)])?)
}

/// Puts bytes in hexadecimal digits, or a dash if there is none.
#[tactic(auto, unfolding(hex::specs::Hex::encode_with))]
fn put_bytes(text: &mut Vec<u8>, bytes: &[u8]) -> Result<(), NoMemory>
    ensures { OnOk result (text.new.items ≡ text.old.items ++ bytes_word bytes.now) }
{
    if bytes.is_empty() {
        return Ok(text.push(b'-')?);
    }
    for byte in bytes {
        put_byte(text, *byte)?;
    }
    Ok(())
}

/// Puts a word without a space.
fn put_alone(text: &mut Vec<u8>, script: &Script, word: &Word<'_>) -> Result<(), NoMemory>
    ensures { OnOk result (text.new.items ≡ text.old.items ++ alone script.now word.now) }
{
    match word {
        Word::Nothing => Ok(()),
        Word::Plain(bytes) => text.extend_from_slice(bytes),
        Word::Named(name) => text.extend_from_slice(name_of(script, *name)),
        Word::Object(object) => put_member(text, *object),
        Word::Number(number) => put_decimal(text, *number),
        Word::Integer(number) => put_signed(text, *number),
        Word::Text(literal) => put_text(text, literal.text()),
        Word::Bytes(literal) => put_bytes(text, literal.bytes()),
    }
}

/// Puts a word after a space, if it is one.
fn put_word(text: &mut Vec<u8>, script: &Script, word: &Word<'_>) -> Result<(), NoMemory>
    ensures { OnOk result (text.new.items ≡ text.old.items ++ spaced (texts script.now word.now)) }
{
    if matches!(word, Word::Nothing) {
        return Ok(());
    }
    text.push(b' ')?;
    put_alone(text, script, word)
}

/// Puts the words of a row, each after a space.
pub(crate) fn put_words(
    text: &mut Vec<u8>,
    script: &Script,
    words: &[Word<'_>],
) -> Result<(), NoMemory>
    ensures { OnOk result (text.new.items ≡ text.old.items ++ spaced (texts_in script.now words.now)) }
{
    for word in words {
        put_word(text, script, word)?;
    }
    Ok(())
}
