//! Edits of bytes within the capacity that they have.
ghost use Rattle.std.specs.Prelude.{◌≡◌, ◌+◌, ◌≤◌, ◌++◌, length, take, drop, vec_len, vec_capacity};
ghost use Rattle.std.specs.List.{splice};

/// Appends bytes for which the capacity has places.
pub fn push_all(v: &mut Vec<u8>, b: &[u8])
    requires { vec_len v.old + length b.now ≤ vec_capacity v.old }
    ensures items { v.new.items ≡ v.old.items ++ b.now }
    ensures len { vec_len v.new ≡ vec_len v.old + length b.now }
    ensures capacity { vec_capacity v.new ≡ vec_capacity v.old }
{
    for &byte in b {
        v.push_reserved(byte);
    }
}

/// Takes out `len` bytes from `at` on, and moves those after them down.
pub fn take_out(v: &mut Vec<u8>, at: usize, len: usize)
    requires { at + len ≤ vec_len v.old }
    ensures items { v.new.items ≡ take at v.old.items ++ drop (at + len) v.old.items }
    ensures len { vec_len v.new + len ≡ vec_len v.old }
    ensures capacity { vec_capacity v.new ≡ vec_capacity v.old }
{
    let kept = v.len() - len;
    v.copy_within(at + len.., at);
    v.truncate(kept);
}

/// Puts bytes, for which the capacity has places, before the byte at `at`.
pub fn insert_all(v: &mut Vec<u8>, at: usize, b: &[u8])
    requires in_bounds { at ≤ vec_len v.old }
    requires room { vec_len v.old + length b.now ≤ vec_capacity v.old }
    ensures items { v.new.items ≡ splice v.old.items at at b.now }
    ensures len { vec_len v.new ≡ vec_len v.old + length b.now }
    ensures capacity { vec_capacity v.new ≡ vec_capacity v.old }
{
    push_all(v, b);
    v[at..].rotate_right(b.len());
}
