//! Where a text may be cut.
ghost use Rattle.std.specs.Prelude.{◌≡◌};
ghost use Rattle.std.specs.Char.Utf16.{is_high_surrogate, is_low_surrogate};
ghost use Rattle.cf_string.specs.Units.{splits_pair};
ghost use Rattle.cf_string.specs.Faults.{split_fault};

use crate::faults::StrFault;

/// Why the units may not be cut at `at` and at `at + len`, if they may not.
pub(crate) fn split_fault(units: &[u16], at: usize, len: usize) -> Option<StrFault>
    ensures { result ≡ split_fault units.now at len }
{
    if units.len() < at || units.len() - at < len {
        return Some(StrFault::Range);
    }
    if splits_pair(units, at) || splits_pair(units, at + len) {
        return Some(StrFault::SplitsPair);
    }
    None
}

fn splits_pair(units: &[u16], place: usize) -> bool
    ensures { result ≡ splits_pair units.now place }
{
    0 < place
        && place < units.len()
        && is_high_surrogate(units[place - 1])
        && is_low_surrogate(units[place])
}

fn is_high_surrogate(unit: u16) -> bool
    ensures { result ≡ is_high_surrogate unit }
{
    0xD800 <= unit && unit < 0xDC00
}

fn is_low_surrogate(unit: u16) -> bool
    ensures { result ≡ is_low_surrogate unit }
{
    0xDC00 <= unit && unit < 0xE000
}
