//! The words of a line.
ghost use Rattle.std.specs.Prelude.{◌≡◌, ◌≤◌, ◌<◌, ◌∷◌, length, take, drop, MatchOption, IfSome, IfOk, IsTrue, slice_index, None, Some, true, false};
ghost use Rattle.std.specs.List.{list_all, list_any};
ghost use Rattle.std.specs.Str.{bytes_eq};
ghost use Rattle.cf_syntax.specs.Words.{is_blank, goes, words, words_from, is_letter, is_name_byte, is_reserved, is_name, is_text, unescape, text_from, text_of};
ghost use Rattle.cf_syntax.specs.FormStatements.{word_at};
ghost use Rattle.cf_syntax.specs.FormWords.{needed};
ghost use Rattle.cf_syntax.specs.declared.place.Place.TheVariants.{Plain};
ghost use Rattle.cf_syntax.specs.declared.refusal.Reason.TheVariants.{Text};
ghost use Rattle.cf_script.specs.Gives.{GivesAs};
ghost use Rattle.cf_script.specs.Views.{lent};
ghost use Rattle.cf_syntax.proofs.WordLaws.{IsWithin, first_place, behind};

use crate::fault::LineFault;
use crate::lines::is_blank;
use cf_syntax::{Place, Reason};
use std::alloc::{AllocError, Global};

/// The words that are no names.
const RESERVED: [&[u8]; 21] = [
    b"nil",
    b"any",
    b"self",
    b"common",
    b"info",
    b"setup",
    b"forever",
    b"plain",
    b"string",
    b"mstring",
    b"data",
    b"mdata",
    b"number",
    b"array",
    b"dict",
    b"set",
    b"bag",
    b"heap",
    b"source",
    b"timer",
    b"observer",
];

/// Where the byte after this one stands, or `None` if this one may not stand here.
#[inline(always)]
fn goes(place: Place, byte: u8) -> Option<Place>
    ensures { result ≡ goes place byte }
{
    match place {
        Place::Between if is_blank(byte) => Some(Place::Between),
        Place::Between if byte == b'"' => Some(Place::Quoted),
        Place::Between => Some(Place::Plain),
        Place::Plain if byte > b'"' => Some(Place::Plain),
        Place::Plain if is_blank(byte) => Some(Place::Between),
        Place::Plain if byte == b'"' => None,
        Place::Plain => Some(Place::Plain),
        Place::Quoted if byte < 0x20 => None,
        Place::Quoted if byte == b'"' => Some(Place::Closed),
        Place::Quoted if byte == b'\\' => Some(Place::Escaped),
        Place::Quoted => Some(Place::Quoted),
        Place::Escaped if byte == b'"' || byte == b'\\' || byte == b'n' => Some(Place::Quoted),
        Place::Escaped => None,
        Place::Closed if is_blank(byte) => Some(Place::Between),
        Place::Closed => None,
    }
}

/// How many bytes go on with a word whose place is given, or `None` if it is not of its form.
fn word_len(place: Place, bytes: &[u8]) -> Option<usize>
    requires { IsWithin place }
    ensures words { MatchOption result (words_from place bytes.now ≡ None)
        (λ n. words_from place bytes.now ≡ behind (take n bytes.now) (words (drop n bytes.now))) }
    ensures within { IfSome result (λ n. n ≤ length bytes.now) }
{
    let mut place = place;
    for (i, b) in bytes.iter().enumerate() {
        match goes(place, *b)? {
            Place::Between => return Some(i),
            next => place = next,
        }
    }
    match place {
        Place::Plain | Place::Closed => Some(bytes.len()),
        _ => None,
    }
}

/// How many bytes go on with a word that is no TEXT, or `None` if a quote is among them. Nearly all are above a quote.
#[inline(always)]
fn plain_len(bytes: &[u8]) -> Option<usize>
    ensures words { MatchOption result (words_from Plain bytes.now ≡ None)
        (λ n. words_from Plain bytes.now ≡ behind (take n bytes.now) (words (drop n bytes.now))) }
    ensures within { IfSome result (λ n. n ≤ length bytes.now) }
{
    for (i, b) in bytes.iter().enumerate() {
        if let Place::Between = goes(Place::Plain, *b)? {
            return Some(i);
        }
    }
    Some(bytes.len())
}

/// How many bytes go on with a word after its first.
#[inline(always)]
fn len_after(first: u8, bytes: &[u8]) -> Option<usize>
    ensures words { MatchOption result (words_from (first_place first) bytes.now ≡ None)
        (λ n. words_from (first_place first) bytes.now ≡ behind (take n bytes.now) (words (drop n bytes.now))) }
    ensures within { IfSome result (λ n. n ≤ length bytes.now) }
{
    if first == b'"' {
        word_len(Place::Quoted, bytes)
    } else {
        plain_len(bytes)
    }
}

/// The first word, and what stands after it; `None` if it is not of its form.
fn first_word(bytes: &[u8]) -> Option<(&[u8], &[u8])>
    requires some { 0 < length bytes.now }
    requires starts { is_blank (slice_index bytes.now 0) ≡ false }
    ensures words { MatchOption result (words bytes.now ≡ None)
        (λ r. words bytes.now ≡ behind r.0.now (words r.1.now)) }
    ensures shorter { IfSome result (λ r. length r.1.now < length bytes.now) }
{
    let (_, behind) = bytes.split_at(1);
    let len = len_after(bytes[0], behind)?;
    Some(bytes.split_at(len + 1))
}

/// The bytes without the blanks at their front.
pub(crate) fn skip_blanks(bytes: &[u8]) -> &[u8]
    ensures words { words result.now ≡ words bytes.now }
    ensures starts { 0 < length result.now → is_blank (slice_index result.now 0) ≡ false }
    ensures within { length result.now ≤ length bytes.now }
{
    for (i, b) in bytes.iter().enumerate() {
        if !is_blank(*b) {
            let (_, rest) = bytes.split_at(i);
            return rest;
        }
    }
    &[]
}

/// The words of a line, in place of what `found` has.
pub(crate) fn split_words<'a>(found: &mut Vec<&'a [u8]>, line: &'a [u8]) -> Result<(), LineFault>
    ensures { GivesAs (λ _. lent found.new.items) result (needed Text (words line.now)) }
{
    found.clear();
    let mut rest = skip_blanks(line);
    while !rest.is_empty() {
        let (word, after) = first_word(rest).ok_or(Reason::Text)?;
        found.push(word)?;
        rest = skip_blanks(after);
    }
    Ok(())
}

/// The words of a line, which may be those that `found` has.
#[inline(always)]
pub(crate) fn words_of<'a>(
    found: &mut Vec<&'a [u8]>,
    line: &'a [u8],
    has_words: bool,
) -> Result<(), LineFault>
    requires { IsTrue has_words → words line.now ≡ Some (lent found.old.items) }
    ensures { GivesAs (λ _. lent found.new.items) result (needed Text (words line.now)) }
{
    if has_words {
        return Ok(());
    }
    split_words(found, line)
}

/// Whether two words are the same. Those of a byte are compared without a call.
#[inline(always)]
#[tactic(auto, using(crate::proofs::HintLaws::one_byte))]
pub(crate) fn is(word: &[u8], text: &[u8]) -> bool
    ensures { result ≡ bytes_eq word.now text.now }
{
    if word.len() == 1 && text.len() == 1 {
        word[0] == text[0]
    } else {
        word == text
    }
}

/// The word at a place, or no bytes where there is none.
#[inline(always)]
pub(crate) fn word_at<'a>(words: &[&'a [u8]], i: usize) -> &'a [u8]
    ensures { result.now ≡ word_at (lent words.now) i }
{
    if i < words.len() { words[i] } else { &[] }
}

fn is_letter(byte: u8) -> bool
    ensures { result ≡ is_letter byte }
{
    matches!(byte, b'a'..=b'z')
}

fn is_name_byte(byte: u8) -> bool
    ensures { result ≡ is_name_byte byte }
{
    matches!(byte, b'a'..=b'z' | b'0'..=b'9' | b'_')
}

fn begins_with_letter(word: &[u8]) -> bool
    ensures { result ≡ is_letter (slice_index word.now 0) }
{
    match word {
        [] => false,
        [first, ..] => is_letter(*first),
    }
}

fn has_name_bytes(word: &[u8]) -> bool
    ensures { result ≡ list_all is_name_byte word.now }
{
    word.iter().all(|b| is_name_byte(*b))
}

/// Whether a word is among some.
fn is_among(words: &[&[u8]], word: &[u8]) -> bool
    ensures { result ≡ list_any (λ w. bytes_eq w.now word.now) words.now }
{
    words.iter().any(|w| is(w, word))
}

/// Whether a word is one of those that are no names, which have 3 to 8 bytes.
fn is_reserved(word: &[u8]) -> bool
    ensures { result ≡ is_reserved word.now }
{
    if word.len() < 3 {
        return false;
    }
    if word.len() > 8 {
        return false;
    }
    is_among(&RESERVED, word)
}

/// Whether a word is a NAME.
pub(crate) fn is_name(word: &[u8]) -> bool
    ensures { result ≡ is_name word.now }
{
    begins_with_letter(word) && word.len() <= 32 && has_name_bytes(word) && !is_reserved(word)
}

/// Whether a word is a TEXT.
pub(crate) fn is_text(word: &[u8]) -> bool
    ensures { result ≡ is_text word.now }
{
    match word {
        [] => false,
        [first, ..] => *first == b'"',
    }
}

fn unescape(byte: u8) -> u8
    ensures { result ≡ unescape byte }
{
    if byte == b'n' { b'\n' } else { byte }
}

/// What a TEXT says, from after its first quote on.
fn text_from(alloc: Global, bytes: &[u8]) -> Result<Vec<u8>, AllocError>
    ensures { IfOk result (λ text. text.items ≡ text_from false bytes.now) }
{
    let mut text = Vec::new(alloc);
    let mut escape = false;
    for b in bytes {
        if escape {
            text.push(unescape(*b))?;
            escape = false;
        } else if *b == b'"' {
            return Ok(text);
        } else if *b == b'\\' {
            escape = true;
        } else {
            text.push(*b)?;
        }
    }
    Ok(text)
}

/// What a TEXT says.
pub(crate) fn text_of(alloc: Global, word: &[u8]) -> Result<Vec<u8>, AllocError>
    ensures { IfOk result (λ text. text.items ≡ text_of word.now) }
{
    match word {
        [] => Ok(Vec::new(alloc)),
        [_, rest @ ..] => text_from(alloc, rest),
    }
}
