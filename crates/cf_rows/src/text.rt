//! The lines of texts in files of cases: how often each stands, and the bytes for which its escapes stand.
ghost use Rattle.std.specs.Prelude.{◌<◌, IfSome};

use crate::fault::Fault;
use std::alloc::Global;

/// A line of a text, as a file of cases has it.
#[derive(Clone, Copy)]
pub struct Line<'a> {
    /// How often it stands in the text.
    pub times: usize,
    /// What stands after the bar, with its escapes.
    pub raw: &'a str,
}

/// The line of a text for which a line of a file stands: a number or none, a bar, a space that does not count, and
/// what comes after it.
pub fn text_line(line: &str) -> Option<Line<'_>> {
    let (before, after) = line.split_once('|')?;
    let before = before.trim();
    let times = if before.is_empty() {
        1
    } else {
        before.parse::<usize>().ok()?
    };
    let raw = after.strip_prefix(' ').unwrap_or(after);
    Some(Line { times, raw })
}

/// Puts a line into a text, as often as it stands there.
pub fn put_lines(
    alloc: Global,
    bytes: &mut Vec<u8>,
    line: Line,
    columns: &[Vec<u8>],
) -> Result<(), Fault> {
    for turn in 0..line.times {
        put_line(alloc, bytes, line.raw, columns, turn)?;
    }
    Ok(())
}

/// The bytes for which a word stands. A percent sign at its end stands for nothing.
pub fn word_of(alloc: Global, raw: &str, columns: &[Vec<u8>]) -> Result<Vec<u8>, Fault> {
    let mut bytes = Vec::new(alloc);
    let raw = raw.strip_suffix('%').unwrap_or(raw);
    put_text(alloc, &mut bytes, raw, columns, 0)?;
    Ok(bytes)
}

// Puts a line in. A percent sign at its end takes its LF away.
fn put_line(
    alloc: Global,
    bytes: &mut Vec<u8>,
    raw: &str,
    columns: &[Vec<u8>],
    turn: usize,
) -> Result<(), Fault> {
    match raw.strip_suffix('%') {
        Some(raw) => put_text(alloc, bytes, raw, columns, turn),
        None => {
            put_text(alloc, bytes, raw, columns, turn)?;
            bytes.push(b'\n')?;
            Ok(())
        }
    }
}

// Puts in the bytes for which a text with escapes stands. Each percent sign begins an escape.
fn put_text(
    alloc: Global,
    bytes: &mut Vec<u8>,
    raw: &str,
    columns: &[Vec<u8>],
    turn: usize,
) -> Result<(), Fault> {
    for (place, piece) in raw.split('%').enumerate() {
        if place == 0 {
            bytes.extend_from_slice(piece.as_bytes())?;
        } else {
            put_escaped(alloc, bytes, piece, columns, turn)?;
        }
    }
    Ok(())
}

// Puts in what stands after a percent sign: an escape, and then plain text.
fn put_escaped(
    alloc: Global,
    bytes: &mut Vec<u8>,
    piece: &str,
    columns: &[Vec<u8>],
    turn: usize,
) -> Result<(), Fault> {
    let Some(inner) = piece.strip_prefix('{') else {
        return put_byte(bytes, piece.as_bytes());
    };
    let Some((name, rest)) = inner.split_once('}') else {
        return Err(Fault::Braces);
    };
    put_number(alloc, bytes, name, columns, turn)?;
    bytes.extend_from_slice(rest.as_bytes())?;
    Ok(())
}

// Puts in the byte for which two hexadecimal digits stand, and then plain text.
fn put_byte(bytes: &mut Vec<u8>, piece: &[u8]) -> Result<(), Fault> {
    let [high, low, rest @ ..] = piece else {
        return Err(Fault::Escape);
    };
    let (Some(high), Some(low)) = (digit_of(*high), digit_of(*low)) else {
        return Err(Fault::Escape);
    };
    bytes.push(high * 16 + low)?;
    bytes.extend_from_slice(rest)?;
    Ok(())
}

// The value of a hexadecimal digit, in small letters.
fn digit_of(byte: u8) -> Option<u8>
    ensures { IfSome result (λ digit. digit < 16) }
{
    match byte {
        b'0'..=b'9' => Some(byte - b'0'),
        b'a'..=b'f' => Some(byte - b'a' + 10),
        _ => None,
    }
}

// Puts in what a number in braces stands for: `+5` the turn's number and 5, `-5` 5 less the turn's number, `1` the
// first column of a row.
fn put_number(
    alloc: Global,
    bytes: &mut Vec<u8>,
    name: &str,
    columns: &[Vec<u8>],
    turn: usize,
) -> Result<(), Fault> {
    match number_at(name, turn) {
        Some(number) => {
            let digits = number.to_string(alloc)?;
            bytes.extend_from_slice(digits.as_bytes())?;
        }
        None => {
            let column = column_at(columns, name).ok_or(Fault::Braces)?;
            bytes.extend_from_slice(column)?;
        }
    }
    Ok(())
}

// The column that a number names, counted from 1.
fn column_at<'a>(columns: &'a [Vec<u8>], name: &str) -> Option<&'a [u8]> {
    let number = name.parse::<usize>().ok()?;
    let column = columns.get(number.checked_sub(1)?)?;
    Some(column.as_slice())
}

// The number at a turn, where one counts up or down.
fn number_at(name: &str, turn: usize) -> Option<usize> {
    if let Some(first) = name.strip_prefix('-') {
        first.parse::<usize>().ok()?.checked_sub(turn)
    } else {
        name.strip_prefix('+')?
            .parse::<usize>()
            .ok()?
            .checked_add(turn)
    }
}
