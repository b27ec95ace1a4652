//! The lines of a text.
ghost use Rattle.std.specs.Prelude.{◌≡◌, ◌∷◌, ◌<◌, IfSome, IsTrue, Some, length, take};
ghost use Rattle.std.specs.Prelude.{nat_eq, ◌==◌, position};
ghost use Rattle.std.specs.Str.{is_utf8, IsUtf8};
ghost use Rattle.cf_syntax.specs.Lines.{lines, without_return};
ghost use Rattle.cf_syntax.specs.Words.{is_blank, says_nothing};

use memchr::memchr;

/// The place of the first LF.
fn line_end(bytes: &[u8]) -> Option<usize>
    ensures { result ≡ position (λ b. b == 10) bytes.now }
{
    memchr(b'\n', bytes)
}

/// The place of the first LF, which may be known.
#[inline(always)]
fn known_end(bytes: &[u8], known: Option<usize>) -> Option<usize>
    requires { IfSome known (λ n. position (λ b. b == 10) bytes.now ≡ Some n) }
    ensures { result ≡ position (λ b. b == 10) bytes.now }
{
    match known {
        Some(end) => Some(end),
        None => line_end(bytes),
    }
}

/// A piece without the CR at its end.
fn without_return(piece: &[u8]) -> &[u8]
    ensures { result.now ≡ without_return piece.now }
{
    match piece {
        [front @ .., b'\r'] => front,
        _ => piece,
    }
}

/// The first line, and the bytes after it. Where its LF is, may be known.
#[inline(always)]
pub(crate) fn next_line(bytes: &[u8], known: Option<usize>) -> (&[u8], &[u8])
    requires some { 0 < length bytes.now }
    requires known { IfSome known (λ n. position (λ b. b == 10) bytes.now ≡ Some n) }
    ensures first { IfSome known (λ n. result.0.now ≡ without_return (take n bytes.now)) }
    ensures lines { lines bytes.now ≡ result.0.now ∷ lines result.1.now }
    ensures shorter { length result.1.now < length bytes.now }
    ensures utf8 { IsUtf8 bytes.now → IsUtf8 result.0.now × IsUtf8 result.1.now }
{
    match known_end(bytes, known) {
        Some(end) => {
            let (piece, rest) = bytes.split_at(end);
            let (_, after) = rest.split_at(1);
            (without_return(piece), after)
        }
        None => (without_return(bytes), &[]),
    }
}

/// Whether a byte separates words.
pub(crate) fn is_blank(byte: u8) -> bool
    ensures { result ≡ is_blank byte }
{
    byte == b' ' || byte == b'\t'
}

/// Whether a line has no words, or begins with a `#`.
pub(crate) fn says_nothing(line: &[u8]) -> bool
    ensures { result ≡ says_nothing line.now }
{
    for b in line {
        if !is_blank(*b) {
            return *b == b'#';
        }
    }
    true
}

/// Whether bytes are UTF-8.
#[tactic(auto, using(crate::proofs::Utf8::utf8_answers))]
pub(crate) fn is_utf8(bytes: &[u8]) -> bool
    ensures { result ≡ is_utf8 bytes.now }
{
    match std::str::from_utf8(bytes) {
        Ok(_) => true,
        Err(_) => false,
    }
}

/// Whether a line is UTF-8, which may be known.
#[inline(always)]
#[tactic(auto, using(crate::proofs::Utf8::known_utf8))]
pub(crate) fn is_line_utf8(line: &[u8], is_known: bool) -> bool
    requires { IsTrue is_known → IsUtf8 line.now }
    ensures { result ≡ is_utf8 line.now }
{
    if is_known { true } else { is_utf8(line) }
}
