//! The kinds of numbers.
ghost use Rattle.std.specs.Prelude.{◌≡◌, ◌↔◌, IsTrue};

/// The four signed kinds of the CFNumber reference, SInt8 to SInt64.
#[derive(Clone, Copy)]
pub enum NumKind {
    /// SInt8: from -128 to 127.
    S8 = 1,
    /// SInt16: from -32,768 to 32,767.
    S16 = 2,
    /// SInt32: from -2^31 to 2^31 - 1.
    S32 = 3,
    /// SInt64: from -2^63 to 2^63 - 1.
    S64 = 4,
}

impl NumKind {
    ghost use Rattle.cf_number.specs.Kinds.{kind_number, FitsKind};

    /// The kind's number in the reference, from 1 to 4.
    pub fn number(self) -> u8
        ensures { result ≡ kind_number self }
    {
        self as u8
    }

    /// Whether the kind holds `value`, from -2^(w - 1) to 2^(w - 1) - 1 for its width w.
    pub(crate) fn holds(self, value: i64) -> bool
        ensures { IsTrue result ↔ FitsKind self value }
    {
        match self {
            NumKind::S8 => i8::try_from(value).is_ok(),
            NumKind::S16 => i16::try_from(value).is_ok(),
            NumKind::S32 => i32::try_from(value).is_ok(),
            NumKind::S64 => true,
        }
    }
}
