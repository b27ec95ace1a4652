//! What a retain and a release make of a count byte.
ghost use Rattle.std.specs.Prelude.{◌≡◌, ℕ, ◌+◌, ◌<◌, Some};
ghost use Rattle.cf_count.specs.Counts.{Count, TellsExternal, objects_after, composite, release_rows, retain_rows, unrolled_byte};
ghost use Rattle.cf_count.specs.Changes.{left_by_release, left_by_retain};

/// The byte after a roll: bit 7, and 64 in the low seven bits.
pub const ROLLED: u8 = 0xC0;

/// What a retain makes of a byte.
#[derive(Clone, Copy, Debug, PartialEq, Eq)]
pub enum Retained {
    /// The byte is this one.
    Inline(u8),
    /// The low seven bits are full: under the table's lock the byte becomes `ROLLED` and the external number one more.
    Roll,
}

/// What a release makes of a byte.
#[derive(Clone, Copy, Debug, PartialEq, Eq)]
pub enum Released {
    /// The byte is this one.
    Inline(u8),
    /// The low seven bits are 0: under the table's lock the external number becomes one less, and the byte what
    /// `unrolled` gives for the number that is left.
    Unroll,
    /// It was the last reference: the byte is 0, and the object is finalised.
    Last,
}

/// What a retain makes of this byte.
pub fn after_retain(byte: u8) -> Retained
    // It is the row of the table, whatever the external number is.
    ensures row { (external : ℕ) → objects_after retain_rows (record { byte = byte; external = external })
        ≡ Some (left_by_retain (record { byte = byte; external = external }) result) }
    ensures one_more { (external : ℕ) →
        composite (left_by_retain (record { byte = byte; external = external }) result)
        ≡ composite (record { byte = byte; external = external }) + 1 }
    ensures bit_7 { (external : ℕ) → TellsExternal (record { byte = byte; external = external }) →
        TellsExternal (left_by_retain (record { byte = byte; external = external }) result) }
{
    if byte % 128 == 127 {
        Retained::Roll
    } else {
        Retained::Inline(byte + 1)
    }
}

/// What a release makes of this byte.
pub fn after_release(byte: u8) -> Released
    requires { 0 < byte }

    // It is the row of the table, whatever the external number is.
    ensures row { (external : ℕ) → objects_after release_rows (record { byte = byte; external = external })
        ≡ Some (left_by_release (record { byte = byte; external = external }) result) }
    ensures one_less { (external : ℕ) → TellsExternal (record { byte = byte; external = external }) →
        composite (left_by_release (record { byte = byte; external = external }) result) + 1
        ≡ composite (record { byte = byte; external = external }) }
    ensures bit_7 { (external : ℕ) → TellsExternal (record { byte = byte; external = external }) →
        TellsExternal (left_by_release (record { byte = byte; external = external }) result) }
{
    match byte {
        1 => Released::Last,
        0x80 => Released::Unroll,
        _ => Released::Inline(byte - 1),
    }
}

/// The byte after an unroll that leaves `left` of the external number.
pub fn unrolled(left: u64) -> u8
    ensures byte { result ≡ unrolled_byte left }
    ensures one_less { composite (record { byte = result; external = left }) + 1
        ≡ composite (record { byte = 128; external = left + 1 }) }
    ensures bit_7 { TellsExternal (record { byte = result; external = left }) }
{
    if left > 0 { 0xBF } else { 63 }
}

/// The composite count: how many references a byte and an external number count.
pub fn composite(byte: u8, ext: u64) -> u128
    ensures { result ≡ composite (record { byte = byte; external = ext }) }
{
    u128::from(byte % 128) + 64 * u128::from(ext)
}
