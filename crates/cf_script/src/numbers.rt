//! The words that are numbers, bytes and kinds.
ghost use Rattle.std.specs.Prelude.{◌≡◌, ◌≤◌, ◌^◌, ◌<◌, [], IfOk, IfSome, None, Some, unwrap_or, is_some, ◌-◌, if◌then◌else◌};
ghost use Rattle.std.specs.List.{list_all};
ghost use Rattle.cf_syntax.specs.Numbers.{is_digit, number_below, index_of, unum_of, is_zero, is_mask, is_field_count, integer_of, bytes_of, kind_of};
ghost use Rattle.cf_syntax.specs.FormStatements.{index_at, field_count_at, number_at, mask_at, integer_at, kind_at};
ghost use Rattle.cf_script.specs.Views.{lent};
ghost use Rattle.hex.specs.Hex.{is_hex_digit};

use crate::words::{is, word_at};
use cf_ids::FIELDS;
use cf_number::NumKind;
use hex::FromHexError;
use std::alloc::{AllocError, Global};

/// The least number that is too large for an INDEX.
const INDEX_LIMIT: u128 = 1 << 32;

/// The least number that is too large for an INT.
const INT_LIMIT: u128 = 1 << 63;

/// The least number that is too large for a UNUM.
const UNUM_LIMIT: u128 = 1 << 64;

/// The number of a decimal digit.
fn digit_of(byte: u8) -> Option<u64>
    ensures { result ≡ (if is_digit byte then Some (byte - 48) else None) }
{
    if byte.is_ascii_digit() {
        Some(u64::from(byte - b'0'))
    } else {
        None
    }
}

/// The number of a numeral that is below a limit.
fn number_below(limit: u128, word: &[u8]) -> Option<u64>
    requires { limit ≤ 2 ^ 64 }
    ensures value { result ≡ number_below limit word.now }
    ensures below { IfSome result (λ n. n < limit) }
{
    if word.is_empty() {
        return None;
    }
    let mut number: u64 = 0;
    for b in word {
        number = number.checked_mul(10)?.checked_add(digit_of(*b)?)?;
    }
    if u128::from(number) < limit {
        Some(number)
    } else {
        None
    }
}

/// The number of an INDEX.
pub(crate) fn index_of(word: &[u8]) -> Option<u32>
    ensures { result ≡ index_of word.now }
{
    let number = number_below(INDEX_LIMIT, word)?;
    Some(number as u32)
}

/// Whether a word is an INDEX that is at most 255.
pub(crate) fn is_field_count(word: &[u8]) -> bool
    ensures { result ≡ is_field_count (index_of word.now) }
{
    match index_of(word) {
        Some(number) => number as usize <= FIELDS,
        None => false,
    }
}

/// The number of a UNUM.
pub(crate) fn unum_of(word: &[u8]) -> Option<u64>
    ensures { result ≡ unum_of word.now }
{
    let number = number_below(UNUM_LIMIT, word)?;
    Some(number)
}

/// Whether a word is a UNUM that is 0.
pub(crate) fn is_zero(word: &[u8]) -> bool
    ensures { result ≡ is_zero (unum_of word.now) }
{
    match unum_of(word) {
        Some(number) => number == 0,
        None => false,
    }
}

/// Whether a word is a MASK.
pub(crate) fn is_mask(word: &[u8]) -> bool
    ensures { result ≡ is_mask (unum_of word.now) }
{
    match unum_of(word) {
        Some(number) => 0 < number && number & 231 == number,
        None => false,
    }
}

/// The number of an INT.
pub(crate) fn integer_of(word: &[u8]) -> Option<i64>
    ensures { result ≡ integer_of word.now }
{
    match word {
        [b'-', digits @ ..] => 0i64.checked_sub_unsigned(number_below(INT_LIMIT + 1, digits)?),
        _ => Some(number_below(INT_LIMIT, word)? as i64),
    }
}

/// The kind that a KIND names.
pub(crate) fn kind_of(word: &[u8]) -> Option<NumKind>
    ensures { result ≡ kind_of word.now }
{
    if is(word, b"s8") {
        Some(NumKind::S8)
    } else if is(word, b"s16") {
        Some(NumKind::S16)
    } else if is(word, b"s32") {
        Some(NumKind::S32)
    } else if is(word, b"s64") {
        Some(NumKind::S64)
    } else {
        None
    }
}

/// Whether a byte is a hexadecimal digit.
fn is_hex_digit(byte: u8) -> bool
    ensures { result ≡ is_hex_digit byte }
{
    byte.is_ascii_hexdigit()
}

/// Whether all bytes are hexadecimal digits.
fn are_hex_digits(word: &[u8]) -> bool
    ensures { result ≡ list_all is_hex_digit word.now }
{
    word.iter().all(|b| is_hex_digit(*b))
}

/// Whether a word is a HEX.
pub(crate) fn is_hex(word: &[u8]) -> bool
    ensures { result ≡ is_some (bytes_of word.now) }
{
    is(word, b"-") || (word.len() % 2 == 0 && are_hex_digits(word))
}

/// The bytes of a HEX; of any other word none.
pub(crate) fn bytes_of(alloc: Global, word: &[u8]) -> Result<Vec<u8>, AllocError>
    ensures { IfOk result (λ bytes. bytes.items ≡ unwrap_or (bytes_of word.now) []) }
{
    if is(word, b"-") {
        return Ok(Vec::new(alloc));
    }
    match hex::decode(alloc, word) {
        Ok(bytes) => Ok(bytes),
        Err(FromHexError::OutOfMemory) => Err(AllocError),
        Err(_) => Ok(Vec::new(alloc)),
    }
}

/// What the word at a place says as an INDEX.
pub(crate) fn index_at(words: &[&[u8]], i: usize) -> u32
    ensures { result ≡ index_at (lent words.now) i }
{
    index_of(word_at(words, i)).unwrap_or(0)
}

/// What the word at a place says as a UNUM.
pub(crate) fn number_at(words: &[&[u8]], i: usize) -> u64
    ensures { result ≡ number_at (lent words.now) i }
{
    unum_of(word_at(words, i)).unwrap_or(0)
}

/// What the word at a place says as a number of fields.
pub(crate) fn field_count_at(words: &[&[u8]], i: usize) -> u8
    ensures { result ≡ field_count_at (lent words.now) i }
{
    let number = index_at(words, i);
    if number as usize <= FIELDS {
        number as u8
    } else {
        0
    }
}

/// What the word at a place says as a MASK.
pub(crate) fn mask_at(words: &[&[u8]], i: usize) -> u8
    ensures { result ≡ mask_at (lent words.now) i }
{
    let number = number_at(words, i);
    if number <= 231 { number as u8 } else { 0 }
}

/// What the word at a place says as an INT.
pub(crate) fn integer_at(words: &[&[u8]], i: usize) -> i64
    ensures { result ≡ integer_at (lent words.now) i }
{
    integer_of(word_at(words, i)).unwrap_or(0)
}

/// What the word at a place says as a KIND.
pub(crate) fn kind_at(words: &[&[u8]], i: usize) -> NumKind
    ensures { result ≡ kind_at (lent words.now) i }
{
    kind_of(word_at(words, i)).unwrap_or(NumKind::S8)
}
