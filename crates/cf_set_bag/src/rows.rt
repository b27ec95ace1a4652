//! What sets and bags do alike with the row of the member that is equal to one.
ghost use Rattle.std.specs.Prelude.{◌≡◌, ◌+◌, ◌<◌, ◌∷◌, [], ◌++◌, IfNone, OnSome, is_some, if◌then◌else◌};
ghost use Rattle.std.specs.Map.{lookup, lookup_entry, lookup_key, remove_entry, set_key};
ghost use Rattle.std.specs.Option.{option_map, ok_or};

use cf_basichash::Rows;
use cf_callbacks::Callbacks;

// The row, or `None` if there is none.
pub(crate) fn row_of<'a, E, V, C: Callbacks<E>>(
    rows: &'a Rows<E, V, C>,
    e: &E,
) -> Option<(&'a E, &'a V)>
    ensures { option_map (λ row. (row.0.now, row.1.now)) result ≡
        lookup_entry (C.same rows.now.callbacks e.now) rows.now.rows }
{
    let place = rows.find(e)?;
    rows.row(place)
}

// Puts `e` in place of the member and gives that one, or gives `e` back.
pub(crate) fn replace_member<E, V, C: Callbacks<E>>(rows: &mut Rows<E, V, C>, e: E) -> Result<E, E>
    ensures answer { result ≡ ok_or (lookup_key (C.same rows.old.callbacks e) rows.old.rows) e }
    ensures rows { rows.new ≡ record rows.old { rows = set_key (C.same rows.old.callbacks e) rows.old.rows e } }
{
    match rows.find(&e) {
        Some(place) => Ok(rows.swap_key(place, e)),
        None => Err(e),
    }
}

// Puts `e` in place of the member and gives that one, or adds it with `v` after the last.
pub(crate) fn set_member<E, V: Drop, C: Callbacks<E>>(
    rows: &mut Rows<E, V, C>,
    e: E,
    v: V,
) -> Option<E>
    requires { 0 < rows.old.room }
    ensures answer { result ≡ lookup_key (C.same rows.old.callbacks e) rows.old.rows }
    ensures rows { let there = is_some (lookup (C.same rows.old.callbacks e) rows.old.rows) in
        let rekeyed = set_key (C.same rows.old.callbacks e) rows.old.rows e in
        rows.new.rows ≡ (if there then rekeyed else rows.old.rows ++ (e, v) ∷ []) }
    ensures room { let there = is_some (lookup (C.same rows.old.callbacks e) rows.old.rows) in
        rows.new.room + (if there then 0 else 1) ≡ rows.old.room }
    ensures callbacks { rows.new.callbacks ≡ rows.old.callbacks }
{
    match rows.find(&e) {
        Some(place) => Some(rows.swap_key(place, e)),
        None => {
            rows.add(e, v).unwrap();
            None
        }
    }
}

// Takes the row out.
pub(crate) fn remove_row<E, V, C: Callbacks<E>>(rows: &mut Rows<E, V, C>, e: &E) -> Option<(E, V)>
    ensures answer { result ≡ lookup_entry (C.same rows.old.callbacks e.now) rows.old.rows }
    ensures rows { rows.new.rows ≡ remove_entry (C.same rows.old.callbacks e.now) rows.old.rows }
    ensures room { OnSome result (rows.new.room ≡ rows.old.room + 1) }
    ensures callbacks { OnSome result (rows.new.callbacks ≡ rows.old.callbacks) }
    ensures none { IfNone result (rows.new ≡ rows.old) }
{
    let place = rows.find(e)?;
    rows.remove(place)
}
