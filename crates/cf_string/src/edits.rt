//! Edits of a list of units within the room that it has.
ghost use Rattle.std.specs.Prelude.{◌≡◌, ◌+◌, ◌≤◌, ◌++◌, length, take, drop, vec_len, vec_capacity};

/// Puts `more` after the last unit, in the room that is there.
pub(crate) fn push_all(units: &mut Vec<u16>, more: &[u16])
    requires { vec_len units.old + length more.now ≤ vec_capacity units.old }
    ensures units { units.new.items ≡ units.old.items ++ more.now }
    ensures len { vec_len units.new ≡ vec_len units.old + length more.now }
    ensures capacity { vec_capacity units.new ≡ vec_capacity units.old }
{
    for &unit in more {
        units.push_reserved(unit);
    }
}

/// Puts `more` in at the place `at`, in the room that is there. What stands from there on moves up.
pub(crate) fn put_in(units: &mut Vec<u16>, at: usize, more: &[u16])
    requires place { at ≤ vec_len units.old }
    requires room { vec_len units.old + length more.now ≤ vec_capacity units.old }
    ensures units { units.new.items ≡ take at units.old.items ++ more.now ++ drop at units.old.items }
    ensures len { vec_len units.new ≡ vec_len units.old + length more.now }
    ensures capacity { vec_capacity units.new ≡ vec_capacity units.old }
{
    push_all(units, more);
    units[at..].rotate_right(more.len());
}

/// Takes out `len` units from the place `at` on. What stands after them moves down.
pub(crate) fn take_out(units: &mut Vec<u16>, at: usize, len: usize)
    requires { at + len ≤ vec_len units.old }
    ensures units { units.new.items ≡ take at units.old.items ++ drop (at + len) units.old.items }
    ensures len { vec_len units.new + len ≡ vec_len units.old }
    ensures capacity { vec_capacity units.new ≡ vec_capacity units.old }
{
    units.copy_within(at + len.., at);
    units.truncate(units.len() - len);
}
