//! The first line of a text and its words, found at once where the line ends soon and has none but plain words.
ghost use Rattle.std.specs.Prelude.{◌≡◌, ◌≤◌, ◌<◌, ◌==◌, ◌-◌, ◌++◌, ℕ, IfSome, OnOk, Some, drop, length, position, slice_index, take};
ghost use Rattle.std.specs.Int.{bit_at};
ghost use Rattle.cf_syntax.specs.Lines.{without_return};
ghost use Rattle.cf_syntax.specs.Words.{words};
ghost use Rattle.cf_script.specs.Whole.{whole};
ghost use Rattle.cf_script.specs.Views.{lent};

use std::alloc::AllocError;
use std::simd::prelude::*;

/// How many bytes are looked at together.
const LOOK: usize = 32;

/// A bit for each of some bytes, which is set where the byte is none above a quote.
#[inline(always)]
fn stops_of(bytes: u8x32) -> u64
    ensures within { (k : ℕ) → bit_at result k ≡ 1 → k < 32 }
    ensures above { (k : ℕ) → k < 32 → bit_at result k ≡ 0 → 34 < slice_index bytes k }
{
    bytes.simd_lt(u8x32::splat(b'#')).to_bitmask()
}

/// The place of the first bit that is set, from a place on.
#[inline(always)]
fn next_stop(stops: u64, from: usize) -> Option<usize>
    requires { from < 64 }
    ensures set { IfSome result (λ k. bit_at stops k ≡ 1) }
    ensures from { IfSome result (λ k. from ≤ k) }
    ensures first { IfSome result (λ n. (k : ℕ) → from ≤ k → k < n → bit_at stops k ≡ 0) }
{
    let left = stops >> from;
    if left == 0 {
        return None;
    }
    Some(from + left.trailing_zeros() as usize)
}

/// A word more, which stands between two places, unless they are the same.
#[inline(always)]
fn push_between<'a>(
    found: &mut Vec<&'a [u8]>,
    bytes: &'a [u8],
    from: usize,
    to: usize,
) -> Result<(), AllocError>
    requires ordered { from ≤ to }
    requires within { to ≤ length bytes.now }
    ensures { OnOk result
        (lent found.new.items ≡ lent found.old.items ++ whole (take (to - from) (drop from bytes.now))) }
{
    if from < to {
        found.push(&bytes[from..to])?;
    }
    Ok(())
}

/// Where the first line ends, if it does so soon and has none but plain words, which are then found. There may be
/// others where it returns none.
pub(crate) fn near_words<'a>(found: &mut Vec<&'a [u8]>, bytes: &'a [u8]) -> Option<usize>
    ensures end { IfSome result (λ n. position (λ b. b == 10) bytes.now ≡ Some n) }
    ensures words { IfSome result (λ n. words (without_return (take n bytes.now)) ≡ Some (lent found.new.items)) }
{
    found.clear();
    if bytes.len() < LOOK {
        return None;
    }
    let stops = stops_of(u8x32::from_slice(bytes));
    let mut start = 0;
    while let Some(stop) = next_stop(stops, start) {
        let Ok(_) = push_between(found, bytes, start, stop) else {
            return None;
        };
        let byte = bytes[stop];
        if byte == b'\n' {
            return Some(stop);
        }
        if byte != b' ' {
            return None;
        }
        start = stop + 1;
    }
    None
}
