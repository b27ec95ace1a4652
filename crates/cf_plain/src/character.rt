//! The characters that units spell, and where units may be cut.
ghost use Rattle.std.specs.Prelude.{◌≡◌, ◌+◌, ◌<◌, ◌≤◌, true, ◌∷◌, length, drop, unwrap_or, ◌&&◌};
ghost use Rattle.std.specs.Char.Utf16.{is_high_surrogate, is_low_surrogate, lone_unit_char, surrogate_pair_char, utf16_lossy_chars};
ghost use Rattle.cf_string.specs.Faults.{split_fault};
ghost use Rattle.cf_string.specs.Units.{splits_pair};

use cf_string::StrFault;

/// Whether two units are a surrogate pair.
fn is_pair(high: u16, low: u16) -> bool
    ensures { result ≡ (is_high_surrogate high && is_low_surrogate low) }
{
    0xD800 <= high && high < 0xDC00 && 0xDC00 <= low && low < 0xE000
}

/// The character of a surrogate pair.
fn pair_char(high: u16, low: u16) -> char
    requires { (is_high_surrogate high && is_low_surrogate low) ≡ true }
    ensures { result ≡ surrogate_pair_char high low }
{
    let code = 0x1_0000 + (u32::from(high) - 0xD800) * 0x400 + (u32::from(low) - 0xDC00);
    char::from_u32(code).unwrap_or('\u{FFFD}')
}

/// The character of a unit in no pair; U+FFFD for a surrogate.
fn lone_char(unit: u16) -> char
    ensures { result ≡ unwrap_or (lone_unit_char unit) 0xFFFD }
{
    char::from_u32(u32::from(unit)).unwrap_or('\u{FFFD}')
}

/// The character whose units begin at a place, and where the next one begins.
pub(crate) fn char_at(units: &[u16], at: usize) -> (char, usize)
    requires { at < length units.now }
    ensures bound { (at < result.1) × (result.1 ≤ length units.now) }
    ensures first { utf16_lossy_chars (drop at units.now)
        ≡ result.0 ∷ utf16_lossy_chars (drop result.1 units.now) }
{
    let unit = units[at];
    if units.len() - at < 2 {
        return (lone_char(unit), at + 1);
    }
    let next = units[at + 1];
    if is_pair(unit, next) {
        (pair_char(unit, next), at + 2)
    } else {
        (lone_char(unit), at + 1)
    }
}

/// Whether a place falls inside a surrogate pair.
fn splits_pair(units: &[u16], at: usize) -> bool
    ensures { result ≡ splits_pair units.now at }
{
    if at == 0 {
        return match units.first() {
            Some(unit) => is_pair(*unit, *unit),
            None => false,
        };
    }
    if units.len() <= at {
        return false;
    }
    is_pair(units[at - 1], units[at])
}

/// Why so many units from a place on may not be cut out, if they may not.
pub(crate) fn split_fault(units: &[u16], at: usize, len: usize) -> Option<StrFault>
    ensures { result ≡ split_fault units.now at len }
{
    let all = units.len();
    if all < at || all - at < len {
        return Some(StrFault::Range);
    }
    if splits_pair(units, at) || splits_pair(units, at + len) {
        return Some(StrFault::SplitsPair);
    }
    None
}
