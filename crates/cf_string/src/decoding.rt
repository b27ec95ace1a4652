//! The characters that units spell.
ghost use Rattle.std.specs.Prelude.{◌≡◌, ◌<◌, ◌≤◌, true, ◌∷◌, length, drop, unwrap_or, ◌&&◌};
ghost use Rattle.std.specs.Char.Utf16.{is_high_surrogate, is_low_surrogate, lone_unit_char, surrogate_pair_char, utf16_lossy_chars};

/// The character whose units begin at `at`, and where the next one begins.
pub(crate) fn char_at(units: &[u16], at: usize) -> (char, usize)
    requires { at < length units.now }
    ensures bound { (at < result.1) × (result.1 ≤ length units.now) }
    ensures first { utf16_lossy_chars (drop at units.now)
        ≡ result.0 ∷ utf16_lossy_chars (drop result.1 units.now) }
{
    let unit = units[at];
    if units.len() - at < 2 {
        return (lone_char(unit), at + 1);
    }
    let next = units[at + 1];
    if is_pair(unit, next) {
        (pair_char(unit, next), at + 2)
    } else {
        (lone_char(unit), at + 1)
    }
}

/// Whether the two units are a surrogate pair.
fn is_pair(high: u16, low: u16) -> bool
    ensures { result ≡ (is_high_surrogate high && is_low_surrogate low) }
{
    0xD800 <= high && high < 0xDC00 && 0xDC00 <= low && low < 0xE000
}

/// The character of a surrogate pair.
fn pair_char(high: u16, low: u16) -> char
    requires { (is_high_surrogate high && is_low_surrogate low) ≡ true }
    ensures { result ≡ surrogate_pair_char high low }
{
    let code = 0x1_0000 + (u32::from(high) - 0xD800) * 0x400 + (u32::from(low) - 0xDC00);
    char::from_u32(code).unwrap_or('\u{FFFD}')
}

/// The character of a unit that is in no pair; U+FFFD for a surrogate.
fn lone_char(unit: u16) -> char
    ensures { result ≡ unwrap_or (lone_unit_char unit) 0xFFFD }
{
    char::from_u32(u32::from(unit)).unwrap_or('\u{FFFD}')
}
