//! Where a member or a row stands in a plain list, and lists with a part of them replaced.
ghost use Rattle.std.specs.Prelude.{◌≡◌, ◌+◌, is_some, position, IfOk};
ghost use Rattle.std.specs.List.{list_any, splice};
ghost use Rattle.std.specs.Map.{lookup};
ghost use Rattle.cf_basichash.specs.Tables.{place_of};
ghost use Rattle.cf_contents.specs.Keys.{equal_to};

use crate::element::{Element, is_equal};
use std::alloc::{AllocError as NoMemory, Global};

/// Whether a member is equal to a key.
pub(crate) fn contains(plain: bool, members: &[Element], key: &Element) -> bool
    ensures { result ≡ list_any (equal_to plain key.now) members.now }
{
    members.iter().any(|member| is_equal(plain, key, member))
}

/// The place of the first member that is equal to a key.
pub(crate) fn place_in(plain: bool, members: &[Element], key: &Element) -> Option<usize>
    ensures { result ≡ position (equal_to plain key.now) members.now }
{
    members
        .iter()
        .position(|member| is_equal(plain, key, member))
}

/// The place of the first row whose member or key is equal to a key.
pub(crate) fn row_place<V>(plain: bool, rows: &[(Element, V)], key: &Element) -> Option<usize>
    ensures { result ≡ place_of (equal_to plain key.now) rows.now }
{
    rows.iter().position(|row| is_equal(plain, key, &row.0))
}

/// Whether a row has a member or a key that is equal to a key.
pub(crate) fn has_row<V>(plain: bool, rows: &[(Element, V)], key: &Element) -> bool
    ensures { result ≡ is_some (lookup (equal_to plain key.now) rows.now) }
{
    row_place(plain, rows, key).is_some()
}

/// A list with others in place of so many items from a place on.
pub(crate) fn spliced<T: Copy>(
    alloc: Global,
    items: &[T],
    at: usize,
    out: usize,
    enter: &[T],
) -> Result<Vec<T>, NoMemory>
    ensures { IfOk result (λ v. v.items ≡ splice items.now at (at + out) enter.now) }
{
    let all = items.len();
    let start = at.min(all);
    let end = at.saturating_add(out).min(all);
    let mut whole = Vec::from_slice(alloc, &items[..start])?;
    whole.extend_from_slice(enter)?;
    whole.extend_from_slice(&items[end..])?;
    Ok(whole)
}
